//! Looking things up in the tables of a program. Where a number names nothing, a value that stands for nothing is answered.
ghost use Rattle.std.specs.Prelude.{◌≡◌, slice_index_or};
ghost use Rattle.link_program.specs.Look.{part_at, row_at, chunk_number};
ghost use Rattle.link_program.specs.Seen.{no_symbol};

use crate::{Content, Lead, Named, Part, Symbol, Tables};
use mark_bits::{Chunk, ChunkTable};
use name_meanings::SymbolKind;
use wl_base::{FileSpan, Span};

/// The part of a number.
#[tactic(auto, using(crate::proofs::ReadAt::read))]
pub fn part_at(tables: &Tables, number: u32) -> Part
    ensures { result ≡ part_at tables.now number }
{
    match tables.parts.get(number as usize) {
        Some(part) => *part,
        None => Part {
            chunk: Chunk {
                input: 0,
                kind: 0,
                index: 0,
            },
            content: Content::Made,
            source: FileSpan {
                file: 0,
                span: Span { start: 0, len: 0 },
            },
        },
    }
}

/// What the part of a number names.
pub fn row_at(tables: &Tables, number: u32) -> &[Named]
    ensures { result.now ≡ row_at tables.now number }
{
    tables.named.row(number as usize)
}

/// The symbol at a place.
#[tactic(auto, using(crate::proofs::ReadAt::read))]
pub fn symbol_at(symbols: &[Symbol], at: u32) -> Symbol
    ensures { result ≡ slice_index_or symbols.now at no_symbol }
{
    match symbols.get(at as usize) {
        Some(symbol) => *symbol,
        None => Symbol {
            kind: SymbolKind::Function,
            name: None,
            lead: Lead::Nothing,
        },
    }
}

/// The number of a chunk.
#[tactic(auto, using(crate::proofs::Chunks::stands_at, crate::proofs::Chunks::stands_nowhere))]
pub fn chunk_number(chunks: &ChunkTable, chunk: Chunk) -> Option<u32>
    ensures { result ≡ chunk_number chunks.now chunk }
{
    let found = chunks.find(chunk);
    found
}
