//! What all symbols mean.
ghost use Rattle.std.specs.Prelude.{◌≡◌, ◌<◌, [], Some, None, length, slice_get, slice_index_or, option_map, IsSome};
ghost use Rattle.name_meanings.specs.Kept.{type_kept};
ghost use Rattle.std.specs.List.{list_all};
ghost use Rattle.name_meanings.specs.Means.{row_of, answer_at, means_something};

use crate::imports::{ImportTable, ImportType};
use name_entries::Meaning;
use std::alloc::Global;
use std::marker::Model;
use wl_base::{InputId, Seq};
use wl_lists::Lists;

/// What the symbols of the loaded objects mean, with imports by number.
#[derive(Drop)]
pub struct Resolution {
    /// By input, the answers for its symbols. An input that isn't loaded has none.
    pub(crate) rows: Lists<Meaning>,
    /// The imports that symbols mean, and behind them what a shared output may import besides.
    pub(crate) imports: ImportTable,
    /// Of a shared output the numbers of cells' imports, for all symbols, one object behind another.
    pub(crate) cells: Seq<Option<u32>>,
    /// Of a shared output the numbers of the imports of the linker's globals, in the order of its table.
    pub(crate) made: Seq<u32>,
}

impl Model for Resolution {
    ghost use Rattle.name_meanings.specs.Means.{Answers};

    ghost Value = { Answers };

    ghost view = { λ r. record { rows = r.rows; imports = r.imports; cells = r.cells; made = r.made } };
}

/// The answers for the symbols of an input.
fn row_of(rows: &Lists<Meaning>, input: InputId) -> &[Meaning]
    ensures { result.now ≡ row_of rows.now input }
{
    rows.row(input as usize)
}

/// Whether each of these answers is something.
fn all_mean(row: &[Meaning]) -> bool
    ensures { result ≡ list_all means_something row.now }
{
    for meaning in row {
        if let Meaning::Nothing = meaning {
            return false;
        }
    }
    true
}

/// Whether each of these rows has no other answers.
fn all_rows_mean(rows: &Lists<Meaning>) -> bool
    ensures { result ≡ list_all (list_all means_something) rows.now }
{
    for at in 0..rows.len() {
        if let Some(row) = rows.get(at) {
            if !all_mean(row) {
                return false;
            }
        }
    }
    true
}

/// The number of a cell, if there is one.
fn cell_at(cells: &[Option<u32>], symbol: u32) -> Option<u32>
    ensures { result ≡ slice_index_or cells.now symbol None }
{
    match cells.get(symbol as usize) {
        Some(cell) => *cell,
        None => None,
    }
}

impl Resolution {
    /// Whether each symbol means something. No reference is unresolved then.
    pub fn all_mean(&self) -> bool
        ensures { result ≡ list_all (list_all means_something) self.now.rows }
    {
        all_rows_mean(&self.rows)
    }

    /// These answers by input, with no imports.
    pub fn of_rows(alloc: Global, rows: Lists<Meaning>) -> Resolution
        ensures rows { result.rows ≡ rows }
        ensures imports { result.imports ≡ [] }
    {
        Resolution {
            rows,
            imports: ImportTable::new(alloc),
            cells: Seq::new(alloc),
            made: Seq::new(alloc),
        }
    }

    /// What a symbol means, by its input and its place there.
    #[tactic(auto, using(crate::proofs::Rowed::answer_read))]
    pub fn meaning(&self, input: InputId, symbol: u32) -> Meaning
        requires { IsSome (answer_at self.now input symbol) }
        ensures { answer_at self.now input symbol ≡ Some result }
    {
        match row_of(&self.rows, input).get(symbol as usize) {
            Some(meaning) => *meaning,
            None => unreachable!(),
        }
    }

    /// How many imports there are. Those of equal module, field and type are one.
    pub fn imports(&self) -> u32
        ensures { result ≡ length self.now.imports }
    {
        self.imports.len()
    }

    /// The number of the import of the cell of a symbol's address, where a shared output has the symbol as a foreign function; by the
    /// symbol's place among those of all objects, one object behind another.
    pub fn cell(&self, symbol: u32) -> Option<u32>
        ensures { result ≡ slice_index_or self.now.cells symbol None }
    {
        cell_at(self.cells.as_slice(), symbol)
    }

    /// The numbers of the imports of the linker's globals, in the order of its table. A plain output has none.
    pub fn made(&self) -> &[u32]
        ensures { result.now ≡ self.now.made }
    {
        self.made.as_slice()
    }

    /// The module and the field of an import.
    pub fn import(&self, number: u32) -> (&[u8], &[u8])
        requires { number < length self.now.imports }
        ensures place { option_map (λ key. key.module_name) (slice_get self.now.imports number) ≡ Some result.0.now }
        ensures field { option_map (λ key. key.field) (slice_get self.now.imports number) ≡ Some result.1.now }
    {
        let import = self.imports.get(number);
        (import.module.as_slice(), import.field.as_slice())
    }

    /// The type of an import.
    pub fn import_type(&self, number: u32) -> &ImportType
        requires { number < length self.now.imports }
        ensures { option_map (λ key. key.type) (slice_get self.now.imports number) ≡ Some (type_kept result.now) }
    {
        &self.imports.get(number).kind
    }
}
