//! What holds of the grammars and of reading, as calls that do nothing: their contracts are the
//! laws.
ghost use Rattle.std.specs.Prelude.{◌≡◌, ◌↔◌, IsTrue};
ghost use Rattle.wasm_grammar.specs.Readers.{IsUnambiguous};
ghost use Rattle.wasm_grammar.specs.Stays.{IsSteady};
ghost use Rattle.wasm_types.specs.Types.{SpellsValType, SpellsFuncType, SpellsLimits, SpellsGlobalType, SpellsTableType, SpellsImportKind, SpellsImport, SpellsConstExpr, val_type_at, func_type_at, limits_at, global_type_at, table_type_at, import_kind_at, import_at, const_expr_at};
ghost use Rattle.wasm_types.specs.Same.{same_val, same_type, same_global_type};
ghost use Rattle.wasm_types.specs.declared.value.ValType.{ValType};
ghost use Rattle.wasm_types.specs.declared.function.FuncType.{FuncType};
ghost use Rattle.wasm_types.specs.declared.table.GlobalType.{GlobalType};

/// No spelling has two value types.
pub fn val_type_is_unambiguous()
    ensures { IsUnambiguous SpellsValType }
{}

/// No spelling has two function types.
pub fn func_type_is_unambiguous()
    ensures { IsUnambiguous SpellsFuncType }
{}

/// No spelling has two limits.
pub fn limits_are_unambiguous()
    ensures { IsUnambiguous SpellsLimits }
{}

/// No spelling has two global types.
pub fn global_type_is_unambiguous()
    ensures { IsUnambiguous SpellsGlobalType }
{}

/// No spelling has two table types.
pub fn table_type_is_unambiguous()
    ensures { IsUnambiguous SpellsTableType }
{}

/// No spelling has two imports.
pub fn import_is_unambiguous()
    ensures kind { IsUnambiguous SpellsImportKind }
    ensures whole { IsUnambiguous SpellsImport }
{}

/// No spelling has two constant expressions.
pub fn const_expr_is_unambiguous()
    ensures { IsUnambiguous SpellsConstExpr }
{}

/// A foreign value type is the answer, whatever follows it.
pub fn val_type_is_steady()
    ensures { IsSteady val_type_at }
{}

/// A foreign flag of limits is the answer, whatever follows it.
pub fn limits_are_steady()
    ensures { IsSteady limits_at }
{}

/// A foreign value type in a function type is the answer, whatever follows it.
pub fn func_type_is_steady()
    ensures { IsSteady func_type_at }
{}

/// A foreign value type of a global is the answer, whatever follows it.
pub fn global_type_is_steady()
    ensures { IsSteady global_type_at }
{}

/// A foreign flag of a table's limits is the answer, whatever follows it.
pub fn table_type_is_steady()
    ensures { IsSteady table_type_at }
{}

/// The import of a tag, or a foreign part of another import, is the answer, whatever follows it.
pub fn import_is_steady()
    ensures kind { IsSteady import_kind_at }
    ensures whole { IsSteady import_at }
{}

/// A foreign opcode in a constant expression is the answer, whatever follows it.
pub fn const_expr_is_steady()
    ensures { IsSteady const_expr_at }
{}

/// Types are the same just where they are equal.
pub fn same_types_are_equal()
    ensures value { (a b : ValType) → IsTrue (same_val a b) ↔ (a ≡ b) }
    ensures function { (a b : FuncType) → IsTrue (same_type a b) ↔ (a ≡ b) }
    ensures of_global { (a b : GlobalType) → IsTrue (same_global_type a b) ↔ (a ≡ b) }
{}
