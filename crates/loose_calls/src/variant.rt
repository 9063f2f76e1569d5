//! A function by the type by which it is called.
ghost use Rattle.std.specs.Prelude.{◌≡◌, [], Some, IsSome, IfOk, unwrap_or};
ghost use Rattle.program_tables.specs.link_program.object_columns.Seen.{func_type_seen, symbol_seen};
ghost use Rattle.program_tables.specs.link_program.name_rules.Entries.{InputSymbol};
ghost use Rattle.program_tables.specs.link_program.name_entries.Shown.{type_seen};
ghost use Rattle.program_tables.specs.link_program.name_entries.View.{entry_at};
ghost use Rattle.program_tables.specs.link_program.name_entries.Fits.{FitsObjects};
ghost use Rattle.program_tables.specs.link_program.link_rules.Program.{renamed};
ghost use Rattle.program_tables.specs.link_program.link_rules.Keys.{function_type_of};
ghost use Rattle.loose_calls.specs.Found.{variant_from, variant_seen};

use crate::naming::variant_name;
use name_cases::SymbolKind;
use program_tables::{Entries, FuncTypeRef, SymbolRef, TypeRef};
use std::alloc::Global;
use wasm_types::FuncType;
use wl_base::{Name, OutOfMemory, Seq};

/// What calls of a function by another type than its definition has name in place of it.
#[derive(Debug, Drop)]
pub(crate) struct Variant {
    pub(crate) kind: SymbolKind,
    pub(crate) name: Name,
    /// The type by which it is called.
    pub(crate) of_type: FuncType,
}

/// A type of one's own.
pub(crate) fn owned(alloc: Global, t: FuncTypeRef<'_>) -> Result<FuncType, OutOfMemory>
    ensures { IfOk result (λ own. own ≡ func_type_seen t.entry) }
{
    let params = Seq::from_slice(alloc, t.params)?;
    let results = Seq::from_slice(alloc, t.results)?;
    Ok(FuncType { params, results })
}

/// The name of a variant of this type.
fn renamed(alloc: Global, t: TypeRef<'_>, name: &[u8]) -> Result<Name, OutOfMemory>
    ensures { IfOk result (λ bytes. bytes ≡ renamed (type_seen t.entry) name.now) }
{
    match t {
        TypeRef::Function(t) => variant_name(alloc, t, name),
        TypeRef::GlobalVar(_) | TypeRef::Untyped => Seq::from_slice(alloc, name),
    }
}

/// The type of a function.
pub(crate) fn function_type(alloc: Global, t: TypeRef<'_>) -> Result<FuncType, OutOfMemory>
    ensures { IfOk result (λ own. own ≡ function_type_of (type_seen t.entry)) }
{
    match t {
        TypeRef::Function(t) => owned(alloc, t),
        TypeRef::GlobalVar(_) | TypeRef::Untyped => Ok(FuncType {
            params: Seq::new(alloc),
            results: Seq::new(alloc),
        }),
    }
}

/// The name of a symbol; empty where it has none.
pub(crate) fn name_of<'a>(symbol: SymbolRef<'a>) -> &'a [u8]
    ensures { result.now ≡ unwrap_or (symbol_seen symbol.entry).name [] }
{
    match symbol.name {
        Some(name) => name,
        None => &[],
    }
}

/// The variant of a symbol of this type.
fn variant_by(
    alloc: Global,
    symbol: SymbolRef<'_>,
    of_type: TypeRef<'_>,
) -> Result<Variant, OutOfMemory>
    ensures { IfOk result (λ v. v ≡ variant_from (symbol_seen symbol.entry) (type_seen of_type.entry)) }
{
    let name = renamed(alloc, of_type, name_of(symbol))?;
    let own = function_type(alloc, of_type)?;
    Ok(Variant {
        kind: symbol.kind,
        name,
        of_type: own,
    })
}

/// The type of the symbol at a place of an object.
pub(crate) fn type_at<'a>(entries: Entries<'a>, object: u32, place: u32) -> TypeRef<'a>
    requires fits { FitsObjects entries }
    requires there { IsSome (entry_at entries.objects.now object place) }
    ensures { (e : InputSymbol) → entry_at entries.entry.objects.now object place ≡ Some e → type_seen result ≡ e.type }
{
    let Some(of_type) = entries.type_of(object, place) else {
        unreachable!()
    };
    of_type
}

/// The variant of the symbol at a place of an object.
pub(crate) fn variant_of(
    alloc: Global,
    entries: Entries<'_>,
    object: u32,
    place: u32,
) -> Result<Variant, OutOfMemory>
    requires fits { FitsObjects entries }
    requires there { IsSome (entry_at entries.objects.now object place) }
    ensures { IfOk result (λ v. (e : InputSymbol) → entry_at entries.entry.objects.now object place ≡ Some e → v ≡ variant_seen e) }
{
    let Some(entry) = entries.entry(object, place) else {
        unreachable!()
    };
    let of_type = type_at(entries, object, place);
    let variant = variant_by(alloc, entry.symbol, of_type)?;
    Ok(variant)
}
