//! Which references ask for nothing, by what is known of their symbols.
ghost use Rattle.std.specs.Prelude.{◌≡◌, map, IfOk};
ghost use Rattle.link_keys.specs.Asked.{sort_of, sort_at, takes_slot, asks_nothing};

use link_program::{Lead, Symbol};
use linking_section::SymbolKind;
use reloc_section::kinds;
use std::alloc::Global;
use std::thread::Threads;
use wl_base::OutOfMemory;
use wl_each::{Each, each_item};
use wl_fan::Workers;

/// What a symbol means, as far as references to it may be passed over.
#[derive(Clone, Copy)]
pub(crate) enum Sort {
    /// A global that is defined here.
    OwnGlobal,
    /// Another definition.
    Own,
    /// An import, null or nothing.
    Other,
}

/// The sort of a symbol.
fn sort_of(symbol: Symbol) -> Sort
    ensures { result ≡ sort_of symbol }
{
    match symbol.lead {
        Lead::Here(_) => {
            if symbol.kind.code() == SymbolKind::GlobalVar.code() {
                Sort::OwnGlobal
            } else {
                Sort::Own
            }
        }
        Lead::Import(_) | Lead::Null | Lead::Nothing => Sort::Other,
    }
}

/// Symbols whose sorts are found.
#[derive(Drop)]
struct Sorting<'a> {
    symbols: &'a [Symbol],
}

impl Each<Sort> for Sorting<'_> {
    ghost use Rattle.std.specs.Prelude.{slice_index_or};
    ghost use Rattle.link_program.specs.Seen.{no_symbol};
    ghost use Rattle.link_keys.specs.Asked.{sort_of};

    ghost value = { λ s at. sort_of (slice_index_or s.symbols.now at no_symbol) };

    #[tactic(auto, using(link_program::proofs::ReadAt::read))]
    fn item(&self, at: usize) -> Sort {
        match self.symbols.get(at) {
            Some(symbol) => sort_of(*symbol),
            None => Sort::Other,
        }
    }
}

/// The sort of each symbol.
pub(crate) fn sorts_of<R: Threads + Sync>(
    rt: &R,
    alloc: Global,
    symbols: &[Symbol],
    workers: Workers,
) -> Result<Vec<Sort>, OutOfMemory>
    ensures { IfOk result (λ sorts. sorts.items ≡ map sort_of symbols.now) }
{
    let sorting = Sorting { symbols };
    let sorts = each_item(rt, alloc, &sorting, symbols.len(), Sort::Other, workers)?;
    Ok(sorts)
}

/// The sort at a place.
#[tactic(auto, using(link_program::proofs::ReadAt::read))]
pub(crate) fn sort_at(sorts: &[Sort], at: u32) -> Sort
    ensures { result ≡ sort_at sorts.now at }
{
    match sorts.get(at as usize) {
        Some(sort) => *sort,
        None => Sort::Other,
    }
}

/// Whether a relocation type takes the slot of a function.
fn takes_slot(kind: u8) -> bool
    ensures { result ≡ takes_slot kind }
{
    kind == kinds::TABLE_INDEX_SLEB
        || kind == kinds::TABLE_INDEX_I32
        || kind == kinds::TABLE_INDEX_REL_SLEB
}

/// Whether a reference of a type to a symbol of a sort is known to ask for nothing.
pub(crate) fn asks_nothing(kind: u8, sort: Sort) -> bool
    ensures { result ≡ asks_nothing kind sort }
{
    match sort {
        Sort::OwnGlobal => !takes_slot(kind),
        Sort::Own => !(takes_slot(kind) || kind == kinds::GLOBAL_INDEX_LEB),
        Sort::Other => false,
    }
}
