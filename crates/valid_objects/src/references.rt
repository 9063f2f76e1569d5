//! The references of a body, as its instructions come to them.
ghost use Rattle.std.specs.Prelude.{◌≡◌};
ghost use Rattle.valid_objects.specs.Objects.{is_at};
ghost use Rattle.valid_objects.specs.Merging.{stands_before, behind, first_at, named_place, left_at, operand_in};

use object_file::{Operand, Reference};
use wasm_instr::{BlockKind, Instr, Placed};

/// Whether an operand stands before a place, or at none.
fn stands_before(operand: Operand, place: usize) -> bool
    ensures { result ≡ stands_before place operand }
{
    match operand {
        Operand::Symbol { place: at, .. } => (at as usize) < place,
        Operand::TypeRef { place: at, .. } => (at as usize) < place,
        Operand::Number | Operand::TableZero => true,
    }
}

/// Whether an operand stands at a place.
fn stands_at(operand: Operand, place: usize) -> bool
    ensures { result ≡ is_at place operand }
{
    match operand {
        Operand::Symbol { place: at, .. } => at as usize == place,
        Operand::TypeRef { place: at, .. } => at as usize == place,
        Operand::Number | Operand::TableZero => false,
    }
}

/// The references from the first on that doesn't stand before a place.
fn behind(references: &[Reference], place: usize) -> &[Reference]
    ensures { result.now ≡ behind place references.now }
{
    for at in 0..references.len() {
        if !stands_before(references[at].operand(), place) {
            return &references[at..];
        }
    }
    &[]
}

/// The first reference, where it stands at a place.
fn first_at(references: &[Reference], place: usize) -> Option<Operand>
    ensures { result ≡ first_at place references.now }
{
    match references {
        [] => None,
        [first, ..] => {
            let operand = first.operand();
            if stands_at(operand, place) {
                Some(operand)
            } else {
                None
            }
        }
    }
}

/// The place of the immediate that says what an instruction names: its last one, and the first one of
/// a call through the table, behind the opcode.
fn named_place(placed: &Placed) -> Option<usize>
    ensures { result ≡ named_place placed.now placed.now.instr }
{
    match &placed.instr {
        Instr::Block {
            kind: BlockKind::Index(_),
            ..
        } => Some(placed.mid as usize),
        Instr::Call(_) | Instr::GlobalAt { .. } => Some(placed.mid as usize),
        Instr::CallIndirect { .. } => Some(placed.at as usize + 1),
        _ => None,
    }
}

/// Of the references that are left, those that are left at an instruction.
pub fn left_at<'a>(left: &'a [Reference], placed: &Placed) -> &'a [Reference]
    ensures { result.now ≡ left_at (named_place placed.now placed.now.instr) left.now }
{
    match named_place(placed) {
        None => left,
        Some(place) => behind(left, place),
    }
}

/// What stands at the immediate of an instruction that says what it names; these are left there.
pub fn operand_in(left: &[Reference], placed: &Placed) -> Option<Operand>
    ensures { result ≡ operand_in (named_place placed.now placed.now.instr) left.now }
{
    match named_place(placed) {
        None => None,
        Some(place) => first_at(left, place),
    }
}
