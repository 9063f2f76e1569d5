//! The uses in an object's kept parts.
ghost use Rattle.std.specs.Prelude.{◌≡◌, ◌++◌, ◌<◌, ◌+◌, ◌||◌, [], if◌then◌else◌, not, Some, None, length, filter_map, map, slice_get, slice_index_or, OnOk};
ghost use Rattle.std.specs.List.{cons_option};
ghost use Rattle.name_entries.specs.body_windows.Operands.{operands_seen};
ghost use Rattle.name_entries.specs.object_columns.Seen.{function_seen, segment_seen};
ghost use Rattle.name_entries.specs.linking_section.Flags.{is_undefined};
ghost use Rattle.name_entries.specs.name_rules.Meanings.{use_of};
ghost use Rattle.name_entries.specs.Fits.{FitsObjects};
ghost use Rattle.name_entries.specs.View.{entry_at};
ghost use Rattle.name_entries.specs.Parts.{has_flag};
ghost use Rattle.name_uses.specs.Told.{told_use, use_seen, told_init, row_of, told_operand, told_window, kept_told, operands_told, windows_told, told_at};

use crate::NameUse;
use body_windows::{Operand, OperandsRef};
use linking_section::{InitFunc, SymbolKind};
use name_entries::{Entries, EntryRef, FunctionRef, Object, ObjectParts, SegmentRef};
use reloc_section::{Reloc, kinds};
use wl_base::{OutOfMemory, Seq};

/// Puts the item at the end, if there is one.
fn push_some(to: &mut Seq<NameUse>, item: Option<NameUse>) -> Result<(), OutOfMemory>
    ensures { OnOk result (to.new ≡ to.old ++ cons_option item []) }
{
    match item {
        Some(item) => to.push(item),
        None => Ok(()),
    }
}

/// The use by an entry, by its relocation's type.
fn use_by(entry: EntryRef<'_>, kind: u8) -> Option<NameUse>
    ensures { result ≡ use_seen entry.entry kind }
{
    let number = entry.number?;
    match entry.symbol.kind {
        SymbolKind::Function => Some(NameUse {
            number,
            calls: kind == kinds::FUNCTION_INDEX_LEB,
        }),
        SymbolKind::Datum | SymbolKind::GlobalVar | SymbolKind::Section | SymbolKind::Table => None,
    }
}

/// A use of a symbol of an object.
fn use_at(entries: Entries<'_>, object: u32, kind: u8, symbol: u32) -> Option<NameUse>
    requires { FitsObjects entries }
    ensures { result ≡ told_use entries.entry.names.now.names (use_of kind (entry_at entries.entry.objects.now object symbol)) }
{
    let entry = entries.entry(object, symbol)?;
    use_by(entry, kind)
}

/// What an operand uses.
fn use_in(entries: Entries<'_>, object: u32, operand: Operand) -> Option<NameUse>
    requires { FitsObjects entries }
    ensures { result ≡ told_operand entries.entry.names.now.names (row_of entries.entry object) operand }
{
    match operand {
        Operand::Symbol {
            kind,
            place: _,
            symbol,
            addend: _,
        } => use_at(entries, object, kind, symbol),
        Operand::Number | Operand::TypeRef { place: _, index: _ } | Operand::TableZero => None,
    }
}

/// What an init entry calls; it is skipped where its symbol is defined in a part that isn't kept.
fn init_at(entries: Entries<'_>, object: u32, init: InitFunc) -> Option<NameUse>
    requires { FitsObjects entries }
    ensures { result ≡ told_init entries.entry.names.now.names (row_of entries.entry object) init }
{
    let entry = entries.entry(object, init.symbol)?;
    if entry.defines || entry.symbol.is_undefined() {
        use_by(entry, kinds::FUNCTION_INDEX_LEB)
    } else {
        None
    }
}

/// Puts what operands use at the end.
fn put_operands(
    to: &mut Seq<NameUse>,
    entries: Entries<'_>,
    object: u32,
    operands: OperandsRef<'_>,
) -> Result<(), OutOfMemory>
    requires { FitsObjects entries }
    ensures { OnOk result (to.new ≡ to.old ++ filter_map (told_operand entries.entry.names.now.names (row_of entries.entry object)) (operands_seen operands.entry)) }
{
    for reference in operands.references {
        push_some(to, use_in(entries, object, reference.operand()))?;
    }
    Ok(())
}

/// Puts what a segment's windows use at the end.
fn put_windows(
    to: &mut Seq<NameUse>,
    entries: Entries<'_>,
    object: u32,
    windows: &[Reloc],
) -> Result<(), OutOfMemory>
    requires { FitsObjects entries }
    ensures { OnOk result (to.new ≡ to.old ++ filter_map (told_window entries.entry.names.now.names (row_of entries.entry object)) windows.now) }
{
    for window in windows {
        push_some(to, use_at(entries, object, window.kind, window.index))?;
    }
    Ok(())
}

/// Puts what init entries call at the end.
fn put_inits(
    to: &mut Seq<NameUse>,
    entries: Entries<'_>,
    object: u32,
    inits: &[InitFunc],
) -> Result<(), OutOfMemory>
    requires { FitsObjects entries }
    ensures { OnOk result (to.new ≡ to.old ++ filter_map (told_init entries.entry.names.now.names (row_of entries.entry object)) inits.now) }
{
    for init in inits {
        push_some(to, init_at(entries, object, *init))?;
    }
    Ok(())
}

/// Whether a part is dropped.
fn is_dropped(flags: &Seq<bool>, at: usize) -> bool
    ensures { result ≡ has_flag flags.now at }
{
    match flags.get(at) {
        Some(flag) => *flag,
        None => false,
    }
}

/// Puts what a function uses, if it isn't dropped.
fn put_function(
    to: &mut Seq<NameUse>,
    entries: Entries<'_>,
    object: u32,
    dropped: bool,
    function: FunctionRef<'_>,
) -> Result<(), OutOfMemory>
    requires { FitsObjects entries }
    ensures { OnOk result (to.new ≡ to.old ++ (if dropped then [] else operands_told entries.entry.names.now.names (row_of entries.entry object) (function_seen function.entry))) }
{
    if dropped {
        return Ok(());
    }
    put_operands(to, entries, object, function.operands)
}

/// Puts what a segment uses, if it isn't dropped.
fn put_segment(
    to: &mut Seq<NameUse>,
    entries: Entries<'_>,
    object: u32,
    dropped: bool,
    segment: SegmentRef<'_>,
) -> Result<(), OutOfMemory>
    requires { FitsObjects entries }
    ensures { OnOk result (to.new ≡ to.old ++ (if dropped then [] else windows_told entries.entry.names.now.names (row_of entries.entry object) (segment_seen segment.entry))) }
{
    if dropped {
        return Ok(());
    }
    put_windows(to, entries, object, segment.windows)
}

/// Puts what an object's kept functions use at the end. They stand behind the imported ones.
fn put_functions(
    to: &mut Seq<NameUse>,
    entries: Entries<'_>,
    object: u32,
    from: &Object,
    parts: &ObjectParts,
) -> Result<(), OutOfMemory>
    requires { FitsObjects entries }
    ensures { OnOk result (to.new ≡ to.old ++ kept_told parts.now.dropped_functions (length parts.now.imports.functions)
        (map (operands_told entries.entry.names.now.names (row_of entries.entry object)) from.now.functions)) }
{
    let imports = parts.imports.functions.len();
    for index in 0..from.functions.len() {
        let Some(function) = from.functions.get(index) else {
            unreachable!()
        };
        let Some(at) = imports.checked_add(index) else {
            return Err(OutOfMemory);
        };
        let dropped = is_dropped(&parts.dropped_functions, at);
        put_function(to, entries, object, dropped, function)?;
    }
    Ok(())
}

/// Puts what an object's kept segments use at the end.
fn put_segments(
    to: &mut Seq<NameUse>,
    entries: Entries<'_>,
    object: u32,
    from: &Object,
    parts: &ObjectParts,
) -> Result<(), OutOfMemory>
    requires { FitsObjects entries }
    ensures { OnOk result (to.new ≡ to.old ++ kept_told parts.now.dropped_segments 0
        (map (windows_told entries.entry.names.now.names (row_of entries.entry object)) from.now.segments)) }
{
    for index in 0..from.segments.len() {
        let Some(segment) = from.segments.get(index) else {
            unreachable!()
        };
        let dropped = is_dropped(&parts.dropped_segments, index);
        put_segment(to, entries, object, dropped, segment)?;
    }
    Ok(())
}

/// Puts the uses of an object at the end: those of its kept functions, of its kept segments, and of its init entries.
pub(crate) fn put_object(
    to: &mut Seq<NameUse>,
    entries: Entries<'_>,
    object: u32,
) -> Result<(), OutOfMemory>
    requires fits { FitsObjects entries }
    requires there { object < length entries.objects.now }
    ensures { OnOk result (to.new ≡ to.old ++ told_at entries.entry object) }
{
    let from = &entries.objects[object as usize];
    let parts = &entries.parts[object as usize];
    put_functions(to, entries, object, from, parts)?;
    put_segments(to, entries, object, from, parts)?;
    put_inits(to, entries, object, from.inits.as_slice())
}
