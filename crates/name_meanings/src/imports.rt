//! The imports that symbols mean, by number.
ghost use Rattle.std.specs.Prelude.{◌≡◌, ◌<◌, [], Some, length, slice_get, codes, if◌then◌else◌, IfOk, OnOk};
ghost use Rattle.name_entries.specs.object_columns.Seen.{import_seen};
ghost use Rattle.name_entries.specs.name_rules.Entries.{key_of};
ghost use Rattle.name_entries.specs.Shown.{type_seen};
ghost use Rattle.name_meanings.specs.Kept.{type_kept, import_of, cell_key, made_key, with_import};

use indexmap::IndexSet;
use name_entries::{ImportRef, TypeRef};
use std::alloc::Global;
use std::marker::Model;
use wasm_types::{FuncType, ValType};
use wl_base::{Name, OutOfMemory, Seq};

/// The module from which a loader takes the cells of functions' addresses (DynamicLinking.md).
const FUNCTION_CELLS: &str = "GOT.func";

/// The same of the addresses of data.
const DATA_CELLS: &str = "GOT.mem";

/// The module from which it takes what the output shares with others: here the linker's globals.
const ENVIRONMENT: &str = "env";

/// The type of an import.
#[derive(Debug, PartialEq, Eq, Hash, Drop)]
pub enum ImportType {
    /// Of a function.
    Function(FuncType),
    /// Of a global: the type of its value, and whether it may change.
    GlobalVar(ValType, bool),
    /// Of a table.
    Untyped,
}

/// What an import of the output is made for. Two are one where all three are equal.
#[derive(Debug, PartialEq, Eq, Hash, Drop)]
pub struct OutputImport {
    /// The module that it is taken from.
    pub module: Name,
    /// Its name there.
    pub field: Name,
    /// Its type.
    pub kind: ImportType,
}

/// The type in memory of its own.
fn own_type(alloc: Global, kind: TypeRef<'_>) -> Result<ImportType, OutOfMemory>
    ensures { IfOk result (λ t. type_kept t ≡ type_seen kind.entry) }
{
    match kind {
        TypeRef::Function(t) => Ok(ImportType::Function(FuncType {
            params: Seq::from_slice(alloc, t.params)?,
            results: Seq::from_slice(alloc, t.results)?,
        })),
        TypeRef::GlobalVar(t) => Ok(ImportType::GlobalVar(t.kind, t.var)),
        TypeRef::Untyped => Ok(ImportType::Untyped),
    }
}

/// The module of a cell, in memory of its own.
fn cell_module(alloc: Global, function: bool) -> Result<Name, OutOfMemory>
    ensures { IfOk result (λ m. m ≡ (if function then codes "GOT.func" else codes "GOT.mem")) }
{
    if function {
        Seq::from_slice(alloc, FUNCTION_CELLS.as_bytes())
    } else {
        Seq::from_slice(alloc, DATA_CELLS.as_bytes())
    }
}

impl OutputImport {
    /// The import of this type, in memory of its own.
    pub(crate) fn of(
        alloc: Global,
        kind: TypeRef<'_>,
        import: ImportRef<'_>,
    ) -> Result<OutputImport, OutOfMemory>
        ensures { IfOk result (λ i. import_of i ≡ key_of (type_seen kind.entry) (import_seen import.entry)) }
    {
        Ok(OutputImport {
            module: Seq::from_slice(alloc, import.module)?,
            field: Seq::from_slice(alloc, import.field)?,
            kind: own_type(alloc, kind)?,
        })
    }

    /// The cell that holds the address of a function, or of a datum, of this name.
    pub(crate) fn cell(
        alloc: Global,
        function: bool,
        name: &[u8],
    ) -> Result<OutputImport, OutOfMemory>
        ensures { IfOk result (λ i. import_of i ≡ cell_key function name.now) }
    {
        let module = cell_module(alloc, function)?;
        let field = Seq::from_slice(alloc, name)?;
        Ok(OutputImport {
            module,
            field,
            kind: ImportType::GlobalVar(ValType::I32, true),
        })
    }

    /// The import of a linker's global of this name, which may change or not.
    pub(crate) fn made(
        alloc: Global,
        name: &[u8],
        changes: bool,
    ) -> Result<OutputImport, OutOfMemory>
        ensures { IfOk result (λ i. import_of i ≡ made_key name.now changes) }
    {
        let module = Seq::from_slice(alloc, ENVIRONMENT.as_bytes())?;
        let field = Seq::from_slice(alloc, name)?;
        Ok(OutputImport {
            module,
            field,
            kind: ImportType::GlobalVar(ValType::I32, changes),
        })
    }
}

/// Imports, each once, by number. Contracts see the list of them.
#[derive(Drop)]
pub(crate) struct ImportTable {
    keys: IndexSet<OutputImport>,
}

impl Model for ImportTable {
    ghost use Rattle.std.specs.Prelude.{◌<◌, ◌^◌, List, length, map};
    ghost use Rattle.name_entries.specs.name_rules.Entries.{ImportKey};
    ghost use Rattle.name_meanings.specs.Kept.{import_of};

    ghost Value = { List ImportKey };

    ghost view = { λ t. map import_of t.keys.keys };

    ghost invariant = { λ t. length t.keys.keys < 2 ^ 32 };
}

impl ImportTable {
    /// No imports. It takes no memory.
    pub(crate) fn new(alloc: Global) -> ImportTable
        ensures { result ≡ [] }
    {
        ImportTable {
            keys: IndexSet::new(alloc),
        }
    }

    /// How many there are.
    pub(crate) fn len(&self) -> u32
        ensures { result ≡ length self.now }
    {
        self.keys.len() as u32
    }

    /// The number of an import, which goes last if it isn't there.
    pub(crate) fn add(&mut self, import: OutputImport) -> Result<u32, OutOfMemory>
        ensures imports { OnOk result (self.new ≡ with_import self.old (import_of import)) }
        ensures number { IfOk result (λ number. slice_get self.new number ≡ Some (import_of import)) }
    {
        if self.keys.len() >= u32::MAX as usize {
            return Err(OutOfMemory);
        }
        let (number, _) = self.keys.insert_full(import)?;
        Ok(number as u32)
    }

    /// The import of a number.
    pub(crate) fn get(&self, number: u32) -> &OutputImport
        requires { number < length self.now }
        ensures { slice_get self.now number ≡ Some (import_of result.now) }
    {
        &self.keys.as_slice()[number as usize]
    }
}
