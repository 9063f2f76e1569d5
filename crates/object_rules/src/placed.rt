//! Windows stand where their types say, and what has to have a window has one.
ghost use Rattle.std.specs.Prelude.{◌≡◌, ◌+◌, slice_get};
ghost use Rattle.std.specs.List.{list_all};
ghost use Rattle.object_parts.specs.Code.{end_in, base_in};
ghost use Rattle.object_rules.specs.Windows.{is_placed, is_covered, is_global_symbol, byte_before, is_set_or_read, code_windows_stand, in_segment, data_windows_stand, windows_stand, indexes_are_covered};

use crate::windows::{relocs_for, split_before, start_of};
use object_parts::{
    CodeBody, DataPart, GLOBAL_GET, Mismatch, Operands, Parts, Reloc, SectionSpan, Symbol,
    SymbolKind, kinds,
};
use wl_base::Span;

fn is_placed(windows: &Result<Operands, Mismatch>) -> bool
    ensures { result ≡ is_placed windows.now }
{
    match windows {
        Ok(_) => true,
        Err(Mismatch::Overlap(_)) => false,
        Err(Mismatch::OffImmediate(_)) => false,
        Err(Mismatch::BareIndex(_)) => true,
    }
}

fn is_covered(windows: &Result<Operands, Mismatch>) -> bool
    ensures { result ≡ is_covered windows.now }
{
    match windows {
        Ok(_) => true,
        Err(Mismatch::Overlap(_)) => true,
        Err(Mismatch::OffImmediate(_)) => true,
        Err(Mismatch::BareIndex(_)) => false,
    }
}

fn are_placed(bodies: &[CodeBody]) -> bool
    ensures { result ≡ list_all (λ b. is_placed b.windows) bodies.now }
{
    bodies.iter().all(|body| is_placed(&body.windows))
}

fn is_global_symbol(symbols: &[Symbol], at: usize) -> bool
    ensures { result ≡ is_global_symbol (slice_get symbols.now at) }
{
    match symbols.get(at) {
        None => false,
        Some(symbol) => matches!(symbol.kind, SymbolKind::GlobalVar),
    }
}

/// The byte before this offset of a payload that begins at `start`; 0 where there is none.
fn byte_before(bytes: &[u8], start: u64, offset: u32) -> u8
    ensures { result ≡ byte_before bytes.now (start + offset) }
{
    let place = (u128::from(start) + u128::from(offset)).saturating_sub(1);
    if place < bytes.len() as u128 {
        bytes[place as usize]
    } else {
        0
    }
}

/// Whether the address of a function or datum is the operand of a `global.get` alone.
fn is_set_or_read(bytes: &[u8], start: u64, symbols: &[Symbol], reloc: &Reloc) -> bool
    ensures { result ≡ is_set_or_read bytes.now start symbols.now reloc.now }
{
    reloc.kind != kinds::GLOBAL_INDEX_LEB
        || is_global_symbol(symbols, reloc.index as usize)
        || byte_before(bytes, start, reloc.offset) == GLOBAL_GET
}

fn are_set_or_read(bytes: &[u8], start: u64, symbols: &[Symbol], relocs: &[Reloc]) -> bool
    ensures { result ≡ list_all (is_set_or_read bytes.now start symbols.now) relocs.now }
{
    relocs
        .iter()
        .all(|reloc| is_set_or_read(bytes, start, symbols, reloc))
}

fn code_windows_stand(all: &[SectionSpan], bytes: &[u8], parts: &Parts, symbols: &[Symbol]) -> bool
    ensures { result ≡ code_windows_stand all.now bytes.now parts.now symbols.now }
{
    let relocs = relocs_for(10, all, parts.relocs.as_slice());
    are_placed(parts.bodies.as_slice())
        && (!parts.bodies.is_empty() || relocs.is_empty())
        && are_set_or_read(bytes, start_of(10, all), symbols, relocs)
}

/// Where a part of the object ends in a payload that begins at `start`.
fn end_in(start: u64, span: Span) -> u128
    ensures { result ≡ end_in start span }
{
    (u128::from(span.start) + u128::from(span.len)).saturating_sub(u128::from(start))
}

fn in_segment(start: u64, span: Span, reloc: &Reloc) -> bool
    ensures { result ≡ in_segment start span reloc.now }
{
    let offset = u128::from(reloc.offset);
    matches!(reloc.kind, kinds::TABLE_INDEX_I32 | kinds::MEMORY_ADDR_I32)
        && u128::from(span.start.saturating_sub(start)) <= offset
        && offset + 4 <= end_in(start, span)
}

fn all_in_segment(start: u64, span: Span, relocs: &[Reloc]) -> bool
    ensures { result ≡ list_all (in_segment start span) relocs.now }
{
    relocs.iter().all(|reloc| in_segment(start, span, reloc))
}

/// Whether each relocation of the data section, whose payload begins at `start`, lies in a segment.
fn data_windows_stand(start: u64, relocs: &[Reloc], segments: &[DataPart]) -> bool
    ensures { result ≡ data_windows_stand start relocs.now segments.now }
{
    let mut rest = relocs;
    for segment in segments {
        let (own, behind) = split_before(end_in(start, segment.span), rest);
        if !all_in_segment(start, segment.span, own) {
            return false;
        }
        rest = behind;
    }
    rest.is_empty()
}

/// Whether windows stand on immediates of their types' kinds, or in a segment's bytes.
pub fn windows_stand(all: &[SectionSpan], bytes: &[u8], parts: &Parts, symbols: &[Symbol]) -> bool
    ensures { result ≡ windows_stand all.now bytes.now parts.now symbols.now }
{
    let relocs = relocs_for(11, all, parts.relocs.as_slice());
    code_windows_stand(all, bytes, parts, symbols)
        && data_windows_stand(start_of(11, all), relocs, parts.segments.as_slice())
}

fn are_covered(bodies: &[CodeBody]) -> bool
    ensures { result ≡ list_all (λ b. is_covered b.windows) bodies.now }
{
    bodies.iter().all(|body| is_covered(&body.windows))
}

/// Whether what names an index in code has a window.
pub fn indexes_are_covered(parts: &Parts) -> bool
    ensures { result ≡ indexes_are_covered parts.now }
{
    are_covered(parts.bodies.as_slice())
}
