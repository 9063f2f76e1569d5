//! Which relocation of live code a shared output can't have. The tables don't tell the place of a symbol in its object, so it is looked for
//! in the objects.
ghost use Rattle.std.specs.Prelude.{◌≡◌, ◌==◌, ◌||◌, Some, length, option_map, slice_get};
ghost use Rattle.std.specs.List.{find};
ghost use Rattle.link_program.specs.body_windows.Operands.{operand_of};
ghost use Rattle.link_program.specs.object_columns.Seen.{symbol_seen};
ghost use Rattle.link_program.specs.name_entries.View.{InputsRise};
ghost use Rattle.link_program.specs.name_meanings.Means.{row_of};
ghost use Rattle.link_program.specs.name_rules.Entries.{entries};
ghost use Rattle.link_program.specs.name_rules.Meanings.{resolve};
ghost use Rattle.link_program.specs.name_meanings.Means.{IsResolution};
ghost use Rattle.name_unresolved.specs.Unresolved.{AreMeant};
ghost use Rattle.link_program.specs.link_rules.ModeOf.{mode_of};
ghost use Rattle.link_program.specs.link_rules.Marks as marks;
ghost use Rattle.link_program.specs.Program.{IsProgram};
ghost use Rattle.link_marks.specs.About.{Living};
ghost use Rattle.link_marks.specs.Alive.{IsLive};
ghost use Rattle.link_marks.specs.Fixed.{first_by, is_told_here, is_foreign_told, fixed_symbol, fixed_operand, fixed_in, fixed_of, fixed_at, first_fixed, told_fault};

use crate::live::Live;
use crate::objects::object_of;
use body_windows::{Operand, Reference, kinds as reloc_kinds};
use link_program::{
    Meaning, Mode, Object, Program, Resolution, SymbolRef, Tables, mode_of, part_at,
};
use linking_section::SymbolKind;
use mark_bits::{Chunk, kinds as chunk_kinds};
use name_unresolved::laws::resolved_is_meant;
use wl_base::{Fault, InputId};

/// A relocation: the input of its object, its symbol and its type.
type Fixed = (InputId, u32, u8);

/// Whether a relocation's type holds a slot or an address that counts from 0.
fn is_absolute(kind: u8) -> bool
    ensures { result ≡ marks.is_absolute kind }
{
    kind == reloc_kinds::TABLE_INDEX_SLEB
        || kind == reloc_kinds::MEMORY_ADDR_LEB
        || kind == reloc_kinds::MEMORY_ADDR_SLEB
}

/// Whether it holds one that counts from a base.
fn is_relative(kind: u8) -> bool
    ensures { result ≡ marks.is_relative kind }
{
    kind == reloc_kinds::MEMORY_ADDR_REL_SLEB || kind == reloc_kinds::TABLE_INDEX_REL_SLEB
}

/// Whether a symbol means a definition of the link.
fn is_here(meaning: Meaning) -> bool
    ensures { result ≡ is_told_here (Some meaning) }
{
    match meaning {
        Meaning::Here { .. } | Meaning::Made(_) => true,
        Meaning::Import(_) | Meaning::Null | Meaning::Nothing => false,
    }
}

/// Whether a symbol is a function, datum or global that the link doesn't define.
fn is_foreign(symbol: SymbolRef<'_>, meaning: Meaning) -> bool
    ensures { result ≡ is_foreign_told (symbol_seen symbol.entry) (Some meaning) }
{
    let has_value = symbol.kind == SymbolKind::Function
        || symbol.kind == SymbolKind::Datum
        || symbol.kind == SymbolKind::GlobalVar;
    let is_entry = symbol.name.is_some() && !symbol.is_local_definition();
    !is_here(meaning) && is_entry && has_value
}

/// Whether it holds either. Most types don't, and nothing has to be looked up for them.
fn holds_place(kind: u8) -> bool
    ensures { result ≡ (marks.is_absolute kind || marks.is_relative kind) }
{
    is_absolute(kind) || is_relative(kind)
}

/// The relocation of a type with a symbol of the object, if a shared output can't have it.
#[tactic(auto, using(crate::proofs::Fixing::answered, crate::proofs::Fixing::unasked))]
fn fixed_symbol(object: &Object, resolution: &Resolution, kind: u8, symbol: u32) -> Option<Fixed>
    requires { length (row_of resolution.now.rows object.now.input) ≡ length object.now.symbols }
    ensures { result ≡ fixed_symbol object.now (row_of resolution.now.rows object.now.input) kind symbol }
{
    if !holds_place(kind) {
        return None;
    }
    let input = object.input;
    let Some(named) = object.symbols.get(symbol as usize) else {
        return None;
    };
    let meaning = resolution.meaning(input, symbol);
    if is_absolute(kind) || is_relative(kind) && is_foreign(named, meaning) {
        Some((input, symbol, kind))
    } else {
        None
    }
}

/// The relocation of an operand, if a shared output can't have it.
fn fixed_operand(object: &Object, resolution: &Resolution, operand: Operand) -> Option<Fixed>
    requires { length (row_of resolution.now.rows object.now.input) ≡ length object.now.symbols }
    ensures { result ≡ fixed_operand object.now (row_of resolution.now.rows object.now.input) operand }
{
    match operand {
        Operand::Symbol { kind, symbol, .. } => fixed_symbol(object, resolution, kind, symbol),
        Operand::Number | Operand::TypeRef { .. } | Operand::TableZero => None,
    }
}

/// The first of these references.
fn in_references(
    object: &Object,
    resolution: &Resolution,
    references: &[Reference],
) -> Option<Fixed>
    requires { length (row_of resolution.now.rows object.now.input) ≡ length object.now.symbols }
    ensures { result ≡ first_by (λ r. fixed_operand object.now (row_of resolution.now.rows object.now.input) (operand_of r)) references.now }
{
    for reference in references {
        if let Some(fixed) = fixed_operand(object, resolution, reference.operand()) {
            return Some(fixed);
        }
    }
    None
}

/// The first of the function of an index.
fn in_function(object: &Object, resolution: &Resolution, index: u32) -> Option<Fixed>
    requires { length (row_of resolution.now.rows object.now.input) ≡ length object.now.symbols }
    ensures { result ≡ fixed_in object.now (row_of resolution.now.rows object.now.input) (slice_get object.now.functions index) }
{
    match object.functions.get(index as usize) {
        Some(function) => in_references(object, resolution, function.operands.references),
        None => None,
    }
}

/// The first of the function of an index in the object of an input.
fn in_object(
    objects: &[Object],
    resolution: &Resolution,
    input: InputId,
    index: u32,
) -> Option<Fixed>
    requires inputs { InputsRise 0 objects.now }
    requires meant { AreMeant resolution.now.rows objects.now }
    ensures { result ≡ fixed_of resolution.now.rows index (find (λ o. o.input == input) objects.now) }
{
    match object_of(objects, input) {
        Some(object) => in_function(object, resolution, index),
        None => None,
    }
}

/// The first of a chunk, which is a function.
fn in_chunk(objects: &[Object], resolution: &Resolution, chunk: Chunk) -> Option<Fixed>
    requires inputs { InputsRise 0 objects.now }
    requires meant { AreMeant resolution.now.rows objects.now }
    ensures { result ≡ fixed_at objects.now resolution.now.rows chunk }
{
    if chunk.kind == chunk_kinds::FUNCTION {
        in_object(objects, resolution, chunk.input, chunk.index)
    } else {
        None
    }
}

/// The first of the parts of these numbers.
fn in_parts(
    objects: &[Object],
    resolution: &Resolution,
    tables: &Tables,
    numbers: &[u32],
) -> Option<Fixed>
    requires inputs { InputsRise 0 objects.now }
    requires meant { AreMeant resolution.now.rows objects.now }
    ensures { result ≡ first_fixed objects.now resolution.now.rows tables.now numbers.now }
{
    for number in numbers {
        if let Some(fixed) = in_chunk(objects, resolution, part_at(tables, *number).chunk) {
            return Some(fixed);
        }
    }
    None
}

/// The fault of a relocation.
fn told_fault(fixed: Option<Fixed>) -> Option<Fault>
    ensures { result ≡ option_map told_fault fixed }
{
    match fixed {
        Some((input, symbol, kind)) => Some(Fault::NotPic {
            input,
            symbol,
            kind,
        }),
        None => None,
    }
}

/// The fault of the first of the live parts.
fn shared_fault(program: Program<'_>, live: &Live) -> Option<Fault>
    requires inputs { InputsRise 0 program.objects.now }
    requires meant { IsResolution (mode_of program.plan.now) (entries (mode_of program.plan.now) program.objects.now) program.resolution.now
        (resolve (mode_of program.plan.now) program.plan.now.allow_undefined (entries (mode_of program.plan.now) program.objects.now) program.objects.now) }
    ensures { result ≡ option_map told_fault (first_fixed program.entry.objects.now program.entry.resolution.now.rows program.entry.tables.now live.now.numbers) }
{
    resolved_is_meant();
    let numbers = live.numbers.as_slice();
    told_fault(in_parts(program.objects, program.resolution, program.tables, numbers))
}

/// The fault of the first relocation in live code, by the order of the parts and by place, that a shared output can't have: a slot or an
/// address that counts from 0, or one that counts from a base, of a function or datum that the link doesn't define (Linking.md,
/// "Relocation Sections"; DynamicLinking.md). A plain output has none.
pub fn first_fixed(program: Program<'_>, live: &Live) -> Option<Fault>
    ghost w: { Living }
    requires program { IsProgram program w.program }
    requires live { IsLive w.program live.now w.parts }
    ensures { result ≡ marks.pic_fault (mode_of w.program.plan) w.parts }
{
    match mode_of(program.plan) {
        Mode::Plain => None,
        Mode::Shared => shared_fault(program, live),
    }
}
