//! The table of names with the numbers that were given.
ghost use Rattle.std.specs.Prelude.{◌≡◌, ◌<◌, ◌∷◌, [], Some, None, length, slice_get, slice_index_or, IfOk, OnOk};
ghost use Rattle.object_file.specs.wl_base.Names.{number_of};
ghost use Rattle.link_names.specs.Interning.{more};
ghost use Rattle.link_names.specs.Numbered.{Numbers, numbers_seen};

use crate::build::{add_words, group_lists, made_numbers, symbol_lists};
use made_symbols::Mode;
use object_file::Object;
use std::alloc::Global;
use std::marker::Model;
use wl_base::{Name, NameFault, NameTable, Seq};
use wl_lists::Lists;

/// In a list of numbers: the symbol is no entry of a name.
pub(crate) const NONE: u32 = u32::MAX;

/// The names of a link by number, and the number of each linker-made name, of each symbol that is an entry of its name, and of each
/// group.
#[derive(Drop)]
pub struct Names {
    pub(crate) table: NameTable,
    pub(crate) made: Seq<u32>,
    /// A list for each object: the number of each symbol's name, or `NONE`.
    pub(crate) symbols: Lists<u32>,
    /// A list for each object: the number of each group's name.
    pub(crate) groups: Lists<u32>,
}

impl Model for Names {
    ghost use Rattle.std.specs.Prelude.{◌<◌, ◌^◌, All, length, map};
    ghost use Rattle.link_names.specs.Numbered.{Numbered, numbers_seen};

    ghost Value = { Numbered };

    ghost view = { λ n. record { names = n.table.names; made = n.made; symbols = map numbers_seen n.symbols; groups = n.groups } };

    ghost invariant = { λ n. All (λ l. length l < 2 ^ 32) n.symbols × All (λ l. length l < 2 ^ 32) n.groups };
}

/// The list of an object; the empty one where there is no such object.
#[tactic(auto, using(crate::proofs::Lists::read))]
fn list_of(lists: &Lists<u32>, object: u32) -> &[u32]
    ensures { result.now ≡ slice_index_or lists.now object [] }
{
    match lists.get(object as usize) {
        Some(list) => list,
        None => &[],
    }
}

/// The number at a place of a list.
#[tactic(auto, using(crate::proofs::Lists::read, crate::proofs::Lists::seen_at))]
fn number_at(numbers: &[u32], place: u32) -> Option<u32>
    ensures { result ≡ slice_index_or (numbers_seen numbers.now) place None }
{
    match numbers.get(place as usize) {
        None | Some(&NONE) => None,
        Some(number) => Some(*number),
    }
}

impl Names {
    /// The numbers of a link's names: the linker-made ones of the mode, those of which the objects have entries, those of their groups,
    /// and those of the words, in this order. `TooMany` exactly where more than `limit` are different, else perhaps `OutOfMemory`.
    pub fn new(
        alloc: Global,
        mode: Mode,
        words: &[Name],
        objects: &[Object],
        limit: u32,
    ) -> Result<Names, NameFault>
        ensures { Numbers result limit mode words.now objects.now }
    {
        let mut table = NameTable::new(alloc, limit);
        let made = made_numbers(alloc, &mut table, mode)?;
        let symbols = symbol_lists(alloc, &mut table, objects)?;
        let groups = group_lists(alloc, &mut table, objects)?;
        add_words(&mut table, words)?;
        Ok(Names {
            table,
            made: Seq::from_vec(made),
            symbols: symbols.shrunk(),
            groups: groups.shrunk(),
        })
    }

    /// The number of a name, which is the next one where the name is new. All others keep theirs.
    pub fn add(&mut self, name: &[u8]) -> Result<u32, NameFault>
        ensures names { OnOk result (self.new.names ≡ more self.old.names (name.now ∷ [])) }
        ensures made { OnOk result (self.new.made ≡ self.old.made) }
        ensures symbols { OnOk result (self.new.symbols ≡ self.old.symbols) }
        ensures groups { OnOk result (self.new.groups ≡ self.old.groups) }
        ensures number { IfOk result (λ number. number_of self.new.names name.now ≡ Some number) }
    {
        let number = self.table.intern(name)?;
        Ok(number)
    }

    /// How many names there are.
    pub fn count(&self) -> u32
        ensures { result ≡ length self.now.names }
    {
        self.table.count()
    }

    /// The name of a number below the count.
    pub fn name(&self, number: u32) -> &[u8]
        requires { number < length self.now.names }
        ensures { slice_get self.now.names number ≡ Some result.now }
    {
        self.table.name(number)
    }

    /// The number of a name; `None` exactly where it isn't held.
    pub fn find(&self, name: &[u8]) -> Option<u32>
        ensures { result ≡ number_of self.now.names name.now }
    {
        self.table.find(name)
    }

    /// The number of a linker-made name; `None` exactly where there is no linker-made symbol of this number.
    pub fn made(&self, k: u32) -> Option<u32>
        ensures { result ≡ slice_get self.now.made k }
    {
        self.made.get(k as usize).copied()
    }

    /// How many symbols an object has, by its place among the objects.
    pub fn symbols(&self, object: u32) -> u32
        ensures { result ≡ length (slice_index_or self.now.symbols object []) }
    {
        list_of(&self.symbols, object).len() as u32
    }

    /// The number of the name of a symbol; `None` where it is no entry of a name, or isn't there.
    pub fn symbol(&self, object: u32, place: u32) -> Option<u32>
        ensures { result ≡ slice_index_or (slice_index_or self.now.symbols object []) place None }
    {
        number_at(list_of(&self.symbols, object), place)
    }

    /// How many groups an object has.
    pub fn groups(&self, object: u32) -> u32
        ensures { result ≡ length (slice_index_or self.now.groups object []) }
    {
        list_of(&self.groups, object).len() as u32
    }

    /// The number of the name of a group; `None` exactly where the object has no such group.
    pub fn group(&self, object: u32, place: u32) -> Option<u32>
        ensures { result ≡ slice_get (slice_index_or self.now.groups object []) place }
    {
        list_of(&self.groups, object).get(place as usize).copied()
    }
}
