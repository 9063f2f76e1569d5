//! What usual references stand for, of all symbols.
ghost use Rattle.std.specs.Prelude.{◌≡◌, ◌^◌, nat_lt, map, slice_index_or, IfOk};
ghost use Rattle.std.specs.List.{list_all};
ghost use Rattle.link_program.specs.Seen.{no_symbol};
ghost use Rattle.link_layout.specs.Seen.{AreTargets, usual_target};
ghost use Rattle.link_layout.specs.Layout.{looked};

use crate::Layout;
use crate::values::usual;
use link_program::{Lead, Symbol};
use linking_section::SymbolKind;
use std::alloc::Global;
use std::thread::Threads;
use wl_base::OutOfMemory;
use wl_each::{Each, each_item};
use wl_fan::Workers;

/// The symbol at a place.
#[tactic(auto, using(link_program::proofs::ReadAt::read))]
fn symbol_by(symbols: &[Symbol], at: usize) -> Symbol
    ensures { result ≡ slice_index_or symbols.now at no_symbol }
{
    match symbols.get(at) {
        Some(symbol) => *symbol,
        None => Symbol {
            kind: SymbolKind::Function,
            name: None,
            lead: Lead::Nothing,
        },
    }
}

/// The symbols of a program.
#[derive(Drop)]
struct Symbols<'a> {
    layout: Layout<'a>,
}

impl Each<u64> for Symbols<'_> {
    ghost use Rattle.std.specs.Prelude.{slice_index_or};
    ghost use Rattle.link_program.specs.Seen.{no_symbol};
    ghost use Rattle.link_layout.specs.Seen.{usual_target};
    ghost use Rattle.link_layout.specs.Layout.{looked};

    ghost value = { λ s at. usual_target (looked s.layout) (slice_index_or s.layout.program.tables.now.symbols at no_symbol) };

    fn item(&self, at: usize) -> u64 {
        let symbol = symbol_by(self.layout.program.tables.symbols.as_slice(), at);
        self.layout.target_of(usual(symbol.kind), symbol)
    }
}

/// Whether all numbers are below 2^33, as each is that a reference stands for.
fn are_small(targets: &[u64]) -> bool
    ensures { result ≡ list_all (λ t. nat_lt t (2 ^ 33)) targets.now }
{
    targets.iter().all(|target| *target < 1 << 33)
}

/// What a usual reference stands for, of each symbol, by the workers.
fn looked_up<R: Threads + Sync>(
    rt: &R,
    alloc: Global,
    layout: Layout<'_>,
    workers: Workers,
) -> Result<Vec<u64>, OutOfMemory>
    ensures { IfOk result (λ targets. targets.items ≡ map (usual_target (looked layout.entry)) layout.entry.program.tables.now.symbols) }
{
    let symbols = Symbols { layout };
    let count = layout.program.tables.symbols.len();
    let targets = each_item(rt, alloc, &symbols, count, 0, workers)?;
    Ok(targets)
}

/// The number that a usual reference stands for, of each symbol. Were one 2^33 or more, it would be answered as want of memory.
pub(crate) fn usual_targets<R: Threads + Sync>(
    rt: &R,
    alloc: Global,
    layout: Layout<'_>,
    workers: Workers,
) -> Result<Vec<u64>, OutOfMemory>
    ensures { IfOk result (λ targets. AreTargets (looked layout.entry) targets.items) }
{
    let targets = looked_up(rt, alloc, layout, workers)?;
    if !are_small(&targets) {
        return Err(OutOfMemory);
    }
    Ok(targets)
}
