//! All that the later steps look at.

use crate::{Named, Part, Symbol, Winner};
use link_plan::Plan;
use mark_bits::ChunkTable;
use name_meanings::{Names, Object, Resolution};
use symbol_race::Winners;
use wasm_types::FuncType;
use wl_base::Seq;
use wl_rows::Rows;

/// What is looked up of a program.
#[derive(Drop)]
pub struct Tables {
    /// The symbols of all objects, one object behind another.
    pub symbols: Seq<Symbol>,
    /// The winners of all names, by input and place.
    pub winners: Seq<Winner>,
    /// The kept parts: the linker's own, then those of each object: its functions, its segments, its globals.
    pub parts: Seq<Part>,
    /// What each part names, by rising place.
    pub named: Rows<Named>,
    /// The function types that parts have and name.
    pub types: Seq<FuncType>,
    /// The chunk of each part; its number is the place of the part.
    pub chunks: ChunkTable,
    /// The types of the variants, by number. Their names are the last ones, in the same order.
    pub variants: Seq<u32>,
}

/// The loaded objects and what was found of them, by reference.
#[derive(Clone, Copy)]
pub struct Program<'a> {
    pub plan: &'a Plan,
    /// The loaded objects, by rising input.
    pub objects: &'a [Object],
    /// The numbers of names.
    pub names: &'a Names,
    /// The rank of the winner of each name, by the number of the name.
    pub ranks: &'a Winners,
    /// What each symbol means.
    pub resolution: &'a Resolution,
    pub tables: &'a Tables,
}
