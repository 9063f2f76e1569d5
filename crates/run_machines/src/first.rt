//! How a run of loaded objects begins: the cells by what the session gives, and the memory with one segment after
//! another.
ghost use Rattle.std.specs.Prelude.{◌≡◌, true, length, map, IfOk};
ghost use Rattle.std.specs.List.{list_all};
ghost use Rattle.run_modules.specs.Fits.{first_not};
ghost use Rattle.run_machines.specs.Sym.{sym_value, sym_pages, segment_fits, with_segments};

use crate::sym::{SymCell, SymSegment, SymWorld};
use run_modules::{first_value, write_bytes};
use run_rules::{Session, Value};
use std::alloc::Global;
use wl_base::{OutOfMemory, Seq};

/// The pages that the memory has at first.
pub(crate) fn pages_of(session: &Session, w: &SymWorld) -> u32
    ensures { result ≡ sym_pages session.now w.now }
{
    if !w.imported {
        return w.pages;
    }
    match session.pages {
        Some(pages) => pages,
        None => w.pages,
    }
}

/// The first value of a cell.
fn value_of(session: &Session, cell: &SymCell) -> Option<Value>
    ensures { result ≡ sym_value session.now cell.now }
{
    match cell {
        SymCell::Import {
            module,
            field,
            kind,
        } => Some(first_value(session, module.as_slice(), field.as_slice(), *kind)),
        SymCell::Holds(value) => *value,
    }
}

/// The first values of cells.
pub(crate) fn values_of(
    alloc: Global,
    session: &Session,
    cells: &[SymCell],
) -> Result<Seq<Option<Value>>, OutOfMemory>
    ensures { IfOk result (λ values. values ≡ map (sym_value session.now) cells.now) }
{
    let mut values = Seq::new(alloc);
    for cell in cells {
        values.push(value_of(session, cell))?;
    }
    Ok(values)
}

/// Whether a segment fits a memory of so many bytes.
fn fits(room: u64, segment: &SymSegment) -> bool
    ensures { result ≡ segment_fits room segment.now }
{
    match (segment.address as u64).checked_add(segment.bytes.as_slice().len() as u64) {
        Some(end) => end <= room,
        None => false,
    }
}

/// The first segment that doesn't fit a memory of so many bytes.
pub(crate) fn first_outside(room: u64, segments: &[SymSegment]) -> Option<usize>
    ensures { result ≡ first_not (segment_fits room) 0 segments.now }
{
    for i in 0..segments.len() {
        if !fits(room, &segments[i]) {
            return Some(i);
        }
    }
    None
}

/// The memory with all segments.
#[tactic(auto, using(crate::proofs::Room::writing))]
pub(crate) fn add_segments(segments: &[SymSegment], memory: &mut [u8])
    requires { list_all (segment_fits (length memory.old)) segments.now ≡ true }
    ensures { memory.new ≡ with_segments segments.now memory.old }
{
    for segment in segments {
        write_bytes(memory, segment.address as usize, segment.bytes.as_slice());
    }
}
