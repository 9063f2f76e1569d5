//! The numbers of all things of the output.
ghost use Rattle.std.specs.Prelude.{◌≡◌, ◌+◌, ◌<◌, Some, length, map, filter, slice_get};
ghost use Rattle.link_keys.specs.link_program.index_layout.Numbers.{number_by};
ghost use Rattle.link_keys.specs.link_program.Keys.{same_function_key, same_global_key};
ghost use Rattle.link_numbers.specs.Numbered.{is_import, is_import_global};

use crate::functions::FunctionNumbers;
use crate::places::Places;
use link_keys::{FunctionKey, GlobalKey, global_code};
use std::marker::Model;
use type_merge::TypeTable;
use wasm_types::FuncType;
use wl_base::Seq;

/// The numbers of all things of the output (Core 2.5.1): of functions, slots of the table, globals and types. A number is a place in a
/// list; imports come first.
#[derive(Drop)]
pub struct Numbering {
    pub(crate) functions: FunctionNumbers,
    pub(crate) slots: FunctionNumbers,
    /// The numbers of the functions that have slots.
    pub(crate) takers: Seq<u32>,
    pub(crate) first_slot: u32,
    pub(crate) globals: Seq<GlobalKey>,
    pub(crate) global_places: Places,
    /// The first `type_count` are those of the output.
    pub(crate) types: TypeTable,
    pub(crate) type_count: usize,
    /// Of each function the number of its type.
    pub(crate) function_types: Seq<u32>,
    /// Of each type of the program its number.
    pub(crate) type_numbers: Seq<u32>,
}

impl Model for Numbering {
    ghost use Rattle.std.specs.Prelude.{◌≡◌, ◌+◌, ◌<◌, ◌≤◌, ◌^◌, map, take, length};
    ghost use Rattle.link_keys.specs.link_program.index_layout.Numbers.{number_by};
    ghost use Rattle.link_keys.specs.link_program.Keys.{same_function_key};
    ghost use Rattle.link_keys.specs.Codes.{global_code};
    ghost use Rattle.link_numbers.specs.Numbered.{Numbered};
    ghost use Rattle.link_numbers.specs.Places.{ArePlaces};

    ghost Value = { Numbered };

    ghost view = { λ n. record { functions = n.functions; slots = n.slots; first_slot = n.first_slot; globals = n.globals; types = take n.type_count n.types; function_types = n.function_types; type_numbers = n.type_numbers } };

    ghost invariant = { λ n. ArePlaces (map global_code n.globals) n.global_places
        × (n.takers ≡ map (number_by same_function_key n.functions) n.slots)
        × (n.first_slot + length n.slots < 2 ^ 32)
        × (n.type_count ≤ length n.types) };
}

/// Whether a function is an import.
fn is_import(key: FunctionKey) -> bool
    ensures { result ≡ is_import key }
{
    match key {
        FunctionKey::Import(_) => true,
        FunctionKey::Own { input: _, index: _ } | FunctionKey::Stub(_) => false,
    }
}

/// Whether a global is an import.
fn is_import_global(key: GlobalKey) -> bool
    ensures { result ≡ is_import_global key }
{
    match key {
        GlobalKey::Import(_) => true,
        GlobalKey::Own { input: _, index: _ } | GlobalKey::Got(_) | GlobalKey::Datum(_) => false,
    }
}

/// How many of these functions are imports.
fn count_imports(keys: &[FunctionKey]) -> usize
    ensures { result ≡ length (filter is_import keys.now) }
{
    keys.iter().filter(|key| is_import(**key)).count()
}

/// How many of these globals are imports.
fn count_global_imports(keys: &[GlobalKey]) -> usize
    ensures { result ≡ length (filter is_import_global keys.now) }
{
    keys.iter().filter(|key| is_import_global(**key)).count()
}

impl Numbering {
    /// The functions by number, imports first.
    pub fn functions(&self) -> &[FunctionKey]
        ensures { result.now ≡ self.now.functions }
    {
        self.functions.keys()
    }

    /// How many of the functions are imports.
    pub fn imported(&self) -> usize
        ensures { result ≡ length (filter is_import self.now.functions) }
    {
        count_imports(self.functions.keys())
    }

    /// The functions that have slots, in the order of the slots.
    pub fn slots(&self) -> &[FunctionKey]
        ensures { result.now ≡ self.now.slots }
    {
        self.slots.keys()
    }

    /// The first slot that a function has.
    pub fn first_slot(&self) -> u32
        ensures { result ≡ self.now.first_slot }
    {
        self.first_slot
    }

    /// The numbers of the functions that have slots, in the order of the slots.
    pub fn takers(&self) -> &[u32]
        ensures { result.now ≡ map (number_by same_function_key self.now.functions) self.now.slots }
    {
        self.takers.as_slice()
    }

    /// The globals by number, imports first.
    pub fn globals(&self) -> &[GlobalKey]
        ensures { result.now ≡ self.now.globals }
    {
        self.globals.as_slice()
    }

    /// How many of the globals are imports.
    pub fn imported_globals(&self) -> usize
        ensures { result ≡ length (filter is_import_global self.now.globals) }
    {
        count_global_imports(self.globals.as_slice())
    }

    /// The types by number.
    pub fn types(&self) -> &[FuncType]
        ensures { result.now ≡ self.now.types }
    {
        &self.types.types()[..self.type_count]
    }

    /// The number of the type of each function, in the order of the functions.
    pub fn function_types(&self) -> &[u32]
        ensures { result.now ≡ self.now.function_types }
    {
        self.function_types.as_slice()
    }

    /// The number of a function; 0 where it isn't there.
    pub fn function_number(&self, key: FunctionKey) -> u32
        ensures { result ≡ number_by same_function_key self.now.functions key }
    {
        self.functions.of_or_first(key)
    }

    /// The slot of a function; the first one where it has none.
    #[tactic(auto, using(crate::proofs::Coded::slot_below))]
    pub fn slot(&self, key: FunctionKey) -> u32
        ensures { result ≡ self.now.first_slot + number_by same_function_key self.now.slots key }
    {
        self.first_slot + self.slots.of_or_first(key)
    }

    /// The number of a global; 0 where it isn't there.
    #[tactic(auto, using(crate::proofs::Coded::global_coded))]
    pub fn global_number(&self, key: GlobalKey) -> u32
        ensures { result ≡ number_by same_global_key self.now.globals key }
    {
        self.global_places.of_or_first(global_code(key))
    }

    /// The number of a type that has this number among those of the program; 0 where the output doesn't have it.
    pub fn type_number(&self, number: u32) -> u32
        requires { number < length self.now.type_numbers }
        ensures { slice_get self.now.type_numbers number ≡ Some result }
    {
        self.type_numbers.as_slice()[number as usize]
    }
}
