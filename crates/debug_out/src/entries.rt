//! The relocations of a section, read where they stand: whether they may stand there, and where the
//! first begins. No list of them is made.
ghost use Rattle.std.specs.Prelude.{◌≡◌, ◌==◌, ◌&&◌, ◌+◌, nat_le, ℕ, List, length, slice_get, slice_index_or, false};
ghost use Rattle.std.specs.List.{list_any};
ghost use Rattle.wl_base.specs.Choice.{given};
ghost use Rattle.reloc_section.specs.Relocs.{relocs_at};
ghost use Rattle.debug_rules.specs.Faults.{may_stand, entry_stands, if_stand};
ghost use Rattle.debug_out.specs.Judged.{judged, judged_payload};
ghost use Rattle.debug_out.specs.Refs.{entries_from, entries_of};
ghost use Rattle.debug_out.specs.Targets.{HasPlaces};

use linking_section::SymbolKind;
use object_file::Symbols;
use reloc_section::{Reloc, reloc_at};
use wasm_grammar::u32_at;

/// How many entries a payload has, and the bytes from the first on; none where that isn't spelled.
pub fn front_of(payload: &[u8]) -> (u32, &[u8])
    ensures { entries_from result.0 (length payload.now) result.1.now ≡ entries_of payload.now }
{
    let end = payload.len();
    match u32_at(end, payload) {
        Ok((_, rest)) => match u32_at(end, rest) {
            Ok(front) => front,
            Err(_) => (0, &[]),
        },
        Err(_) => (0, &[]),
    }
}

/// Whether a relocation of this type may name a symbol of this kind in a debug section.
fn may_stand(kind: u8, symbol: SymbolKind) -> bool
    ensures { result ≡ may_stand kind symbol }
{
    match symbol {
        SymbolKind::Function => kind == 2 || kind == 8,
        SymbolKind::Datum => kind == 5,
        SymbolKind::GlobalVar => kind == 13,
        SymbolKind::Section => kind == 9,
        SymbolKind::Table => false,
    }
}

fn is_marked(table: &[bool], at: u32) -> bool
    ensures { result ≡ slice_index_or table.now at false }
{
    match table.get(at as usize) {
        Some(mark) => *mark,
        None => false,
    }
}

/// Whether an entry names a symbol of its kind, and a debug section where it names a section.
/// `debug` tells of each place whether a debug section stands there.
fn entry_stands(debug: &[bool], symbols: &Symbols, r: &Reloc) -> bool
    ensures { (places : List ℕ) → HasPlaces debug.now places → result ≡ entry_stands places r.now (slice_get symbols.now r.now.index) }
{
    match symbols.get(r.index as usize) {
        None => false,
        Some(s) => may_stand(r.kind, s.kind) && (r.kind != 9 || is_marked(debug, s.index)),
    }
}

/// Whether an entry stands, with its window from this place on and in the length.
fn entry_fits(debug: &[bool], symbols: &Symbols, len: u64, from: u64, r: &Reloc) -> bool
    ensures { (places : List ℕ) → HasPlaces debug.now places → result ≡ (entry_stands places r.now (slice_get symbols.now r.now.index) && (nat_le from r.now.offset && nat_le (r.now.offset + 4) len)) }
{
    let at = u64::from(r.offset);
    let within = from <= at && at + 4 <= len;
    entry_stands(debug, symbols, r) && within
}

/// Whether so many entries are spelled and stand, with nothing behind them: windows rise, don't
/// overlap and lie in the length.
fn all_stand(
    debug: &[bool],
    symbols: &Symbols,
    len: u64,
    count: u32,
    end: usize,
    entries: &[u8],
) -> bool
    ensures { (places : List ℕ) → HasPlaces debug.now places → result ≡ judged (λ r. entry_stands places r (slice_get symbols.now r.index)) len count end 0 entries.now }
{
    let mut from = 0u64;
    let mut left = entries;
    for _ in 0..count {
        let (r, after) = match reloc_at(end, left) {
            Ok(x) => x,
            Err(_) => return false,
        };
        if !entry_fits(debug, symbols, len, from, &r) {
            return false;
        }
        from = u64::from(r.offset) + 4;
        left = after;
    }
    left.is_empty()
}

/// Whether the payload is spelled and its entries stand in a section of this length.
pub fn payload_stands(debug: &[bool], symbols: &Symbols, len: u64, payload: &[u8]) -> bool
    ensures { (places : List ℕ) → HasPlaces debug.now places → given result (entries_of payload.now) ≡ if_stand places symbols.now len (relocs_at (length payload.now) payload.now) }
{
    judged_payload(debug, symbols, len, payload)
}

fn judged_payload(debug: &[bool], symbols: &Symbols, len: u64, payload: &[u8]) -> bool
    ensures { (places : List ℕ) → HasPlaces debug.now places → result ≡ judged_payload (λ r. entry_stands places r (slice_get symbols.now r.index)) len payload.now }
{
    let end = payload.len();
    let Ok((_, rest)) = u32_at(end, payload) else {
        return false;
    };
    let Ok((count, entries)) = u32_at(end, rest) else {
        return false;
    };
    all_stand(debug, symbols, len, count, end, entries)
}
