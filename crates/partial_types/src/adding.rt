//! Types that are added to a table.
ghost use Rattle.std.specs.Prelude.{◌≡◌, ◌<◌, ◌-◌, ◌^◌, nat_lt, length, Some, IfOk, OnOk};
ghost use Rattle.partial_imports.specs.link_program.object_file.Spaces.{no_type};
ghost use Rattle.partial_imports.specs.link_program.object_columns.Seen.{func_type_seen};
ghost use Rattle.partial_imports.specs.link_program.name_entries.Fits.{FitsObjects};
ghost use Rattle.partial_imports.specs.link_program.type_merge.Types.{with_type};
ghost use Rattle.partial_types.specs.Added.{type_at, content_type_at, type_there};

use partial_imports::{At, Content, Entries, FuncTypeRef, TypeRef};
use type_merge::TypeTable;
use wasm_types::FuncType;
use wl_base::OutOfMemory;

/// Whether one type more fits.
fn has_room(table: &TypeTable) -> bool
    ensures { result ≡ nat_lt (length table.now) (2 ^ 32 - 1) }
{
    table.types().len() < u32::MAX as usize
}

fn add(table: &mut TypeTable, t: &FuncType) -> Result<(), OutOfMemory>
    ensures { OnOk result (table.new ≡ with_type table.old t.now) }
{
    if !has_room(table) {
        return Err(OutOfMemory);
    }
    table.add(t)?;
    Ok(())
}

/// The type () to ().
fn add_empty(table: &mut TypeTable) -> Result<(), OutOfMemory>
    ensures { OnOk result (table.new ≡ with_type table.old no_type) }
{
    if !has_room(table) {
        return Err(OutOfMemory);
    }
    table.add_of(&[], &[])?;
    Ok(())
}

fn add_lent(table: &mut TypeTable, t: FuncTypeRef<'_>) -> Result<(), OutOfMemory>
    ensures { OnOk result (table.new ≡ with_type table.old (func_type_seen t.entry)) }
{
    if !has_room(table) {
        return Err(OutOfMemory);
    }
    table.add_of(t.params, t.results)?;
    Ok(())
}

/// The type that has this number in a list.
pub(crate) fn add_numbered(
    table: &mut TypeTable,
    types: &[FuncType],
    number: u32,
) -> Result<(), OutOfMemory>
    ensures { OnOk result (table.new ≡ with_type table.old (type_at types.now number)) }
{
    match types.get(number as usize) {
        Some(t) => add(table, t),
        None => add_empty(table),
    }
}

/// The type of a part.
pub(crate) fn add_content(
    table: &mut TypeTable,
    types: &[FuncType],
    content: Content,
) -> Result<(), OutOfMemory>
    ensures { OnOk result (table.new ≡ with_type table.old (content_type_at types.now content)) }
{
    match content {
        Content::Function(number) => add_numbered(table, types, number),
        Content::Segment { align: _, flags: _ } => add_empty(table),
        Content::Global { kind: _, value: _ } => add_empty(table),
        Content::Made => add_empty(table),
    }
}

/// The type of a symbol.
pub(crate) fn add_symbol(
    table: &mut TypeTable,
    entries: Entries<'_>,
    at: At,
) -> Result<(), OutOfMemory>
    requires { FitsObjects entries }
    ensures { OnOk result (table.new ≡ with_type table.old (type_there entries.entry.objects.now at)) }
{
    match entries.type_of(at.object, at.place) {
        Some(TypeRef::Function(t)) => add_lent(table, t),
        Some(TypeRef::GlobalVar(_)) | Some(TypeRef::Untyped) | None => add_empty(table),
    }
}
