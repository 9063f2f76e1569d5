//! The numbers of the chunks to which symbols lead.
ghost use Rattle.std.specs.Prelude.{◌≡◌, IfOk};
ghost use Rattle.link_marks.specs.Seen.{defined_chunk, number_in, led_number, led_numbers};

use link_program::{Definition, Lead, Symbol, chunk_number};
use linking_section::SymbolKind;
use mark_bits::{Chunk, ChunkTable, kinds as chunk_kinds};
use std::alloc::Global;
use std::thread::Threads;
use wl_base::OutOfMemory;
use wl_each::{Each, each_item};
use wl_fan::Workers;

/// The chunk of a definition. The linker's data and its table are no chunks.
fn chunk_of(definition: Definition) -> Option<Chunk>
    ensures { result ≡ defined_chunk definition }
{
    let kind = match definition.kind {
        SymbolKind::Function => chunk_kinds::FUNCTION,
        SymbolKind::Datum if definition.input == 0 => return None,
        SymbolKind::Datum => chunk_kinds::SEGMENT,
        SymbolKind::GlobalVar => chunk_kinds::GLOBAL,
        SymbolKind::Section | SymbolKind::Table => return None,
    };
    Some(Chunk {
        input: definition.input,
        kind,
        index: definition.index,
    })
}

/// The number of the chunk of a definition.
pub fn number_defined(chunks: &ChunkTable, definition: Definition) -> Option<u32>
    ensures { result ≡ number_in chunks.now (defined_chunk definition) }
{
    match chunk_of(definition) {
        Some(chunk) => chunk_number(chunks, chunk),
        None => None,
    }
}

/// The number of the chunk to which a symbol leads.
pub fn number_led(chunks: &ChunkTable, lead: Lead) -> Option<u32>
    ensures { result ≡ led_number chunks.now lead }
{
    match lead {
        Lead::Here(definition) => number_defined(chunks, definition),
        Lead::Import(_) | Lead::Null | Lead::Nothing => None,
    }
}

/// Symbols whose chunks are looked up.
#[derive(Drop)]
struct Leading<'a> {
    chunks: &'a ChunkTable,
    symbols: &'a [Symbol],
}

impl Each<Option<u32>> for Leading<'_> {
    ghost use Rattle.std.specs.Prelude.{slice_index_or};
    ghost use Rattle.link_program.specs.Seen.{no_symbol};
    ghost use Rattle.link_marks.specs.Seen.{led_number};

    ghost value = { λ s at. led_number s.chunks.now (slice_index_or s.symbols.now at no_symbol).lead };

    #[tactic(auto, using(link_program::proofs::ReadAt::read))]
    fn item(&self, at: usize) -> Option<u32> {
        match self.symbols.get(at) {
            Some(symbol) => number_led(self.chunks, symbol.lead),
            None => None,
        }
    }
}

/// The same for each symbol, by the workers: each look-up misses the cache.
pub(crate) fn numbers_led<R: Threads + Sync>(
    rt: &R,
    alloc: Global,
    chunks: &ChunkTable,
    symbols: &[Symbol],
    workers: Workers,
) -> Result<Vec<Option<u32>>, OutOfMemory>
    ensures { IfOk result (λ led. led.items ≡ led_numbers chunks.now symbols.now) }
{
    let leading = Leading { chunks, symbols };
    let led = each_item(rt, alloc, &leading, symbols.len(), None, workers)?;
    Ok(led)
}
