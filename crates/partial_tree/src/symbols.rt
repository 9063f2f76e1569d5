//! The symbols of the object, by the symbols of the loaded objects that stand for them.
ghost use Rattle.std.specs.Prelude.{◌≡◌, ◌+◌, ◌∷◌, ◌++◌, [], not, map, option_map, fold, Some, None, bit_and, if◌then◌else◌, IfOk, OnOk};
ghost use Rattle.partial_symbols.specs.link_program.name_entries.Fits.{FitsObjects};
ghost use Rattle.partial_symbols.specs.Known.{symbol_there};
ghost use Rattle.partial_tree.specs.Rows.{known_of, bit_where, open_flags, one_if, is_function, is_global, open_index, with_open, index_of, with_defined, with_known, with_at, nothing_made, row_seen};
ghost use Rattle.partial_tree.specs.Looks.{look_seen};
ghost use Rattle.partial_tree.specs.Known.{IsLook};
ghost use Rattle.partial_symbols.specs.link_program.link_rules.Program.{Program as Rules};
ghost use Rattle.partial_symbols.specs.link_program.declared.program.Program.{Program as Data};
ghost use Rattle.partial_symbols.specs.link_program.made_symbols.declared.mode.Mode.TheVariants.{Plain};
ghost use Rattle.partial_symbols.specs.link_program.Program.{IsProgramOf};
ghost use Rattle.partial_symbols.specs.partial_rules.Partial as partial;
ghost use Rattle.partial_symbols.specs.link_program.link_rules.Program.{chunk_at};
ghost use Rattle.partial_parts.specs.Kept.{place_in};

use linking_section::SymbolKind;
use mark_bits::{Chunk, ChunkTable, kinds};
use partial_parts::{Kept, place_in};
use partial_symbols::{At, Column, Entries, Sight};
use std::alloc::Global;
use std::marker::Model;
use wl_base::{InputId, OutOfMemory, Seq};

/// A symbol of the object.
#[derive(Clone, Copy, Debug)]
pub struct Row {
    /// The symbol that stands for it.
    pub at: At,
    /// Whether no object defines it: then it has no offset and no size.
    pub is_open: bool,
    pub flags: u32,
    pub index: u32,
}

/// A symbol of the loaded objects.
#[derive(Clone, Copy)]
struct Known {
    at: At,
    input: InputId,
    index: u32,
    flags: u32,
    kind: SymbolKind,
    number: Option<u32>,
}

/// What is looked up.
#[derive(Clone, Copy)]
pub struct Look<'a> {
    /// What is known of names.
    pub sight: &'a Sight,
    /// The kept parts.
    pub kept: &'a Kept,
    /// The chunks of all parts.
    pub chunks: &'a ChunkTable,
    /// How many functions are imported.
    pub functions: u32,
    /// How many globals are imported.
    pub globals: u32,
}

/// The records so far.
#[derive(Drop)]
struct Made {
    rows: Seq<Row>,
    functions: u32,
    globals: u32,
}

impl Model for Made {
    ghost use Rattle.partial_tree.specs.Rows.{Made as Seen};

    ghost Value = { Seen };

    ghost view = { λ m. record { rows = m.rows; functions = m.functions; globals = m.globals } };
}

/// The symbol at a place.
fn known_at(entries: Entries<'_>, at: At) -> Option<Known>
    requires { FitsObjects entries }
    ensures { result ≡ option_map (known_of entries.entry.names.now.names at) (symbol_there entries.entry.objects.now at) }
{
    let Some(entry) = entries.entry(at.object, at.place) else {
        return None;
    };
    Some(Known {
        at,
        input: entry.input,
        index: entry.index,
        flags: entry.symbol.flags,
        kind: entry.symbol.kind,
        number: entry.number,
    })
}

/// A bit, where it is to be set.
fn bit_where(bit: u32, test: bool) -> u32
    ensures { result ≡ bit_where bit test }
{
    if test { bit } else { 0 }
}

/// The flags of an open symbol.
fn open_flags(column: Column, flags: u32) -> u32
    ensures { result ≡ open_flags column flags }
{
    (flags & 0xAE) + 0x10 + bit_where(0x01, !column.strong) + bit_where(0x40, column.explicit)
}

fn is_function(kind: SymbolKind) -> bool
    ensures { result ≡ is_function kind }
{
    matches!(kind, SymbolKind::Function)
}

fn is_global(kind: SymbolKind) -> bool
    ensures { result ≡ is_global kind }
{
    matches!(kind, SymbolKind::GlobalVar)
}

/// The sum. One of 2^32 and more is answered as want of memory.
fn sum(a: u32, b: u32) -> Result<u32, OutOfMemory>
    ensures { IfOk result (λ n. n ≡ a + b) }
{
    match a.checked_add(b) {
        Some(n) => Ok(n),
        None => Err(OutOfMemory),
    }
}

fn one_if(test: bool) -> u32
    ensures { result ≡ one_if test }
{
    if test { 1 } else { 0 }
}

/// The place of a part of this symbol's object among those of its kind.
fn place_for(look: Look<'_>, known: Known, kind: u8) -> u32
    ensures { result ≡ place_in (look_seen look.entry).kept (look_seen look.entry).chunks (chunk_at known.input kind known.index) }
{
    let chunk = Chunk {
        input: known.input,
        kind,
        index: known.index,
    };
    place_in(look.chunks, look.kept, chunk)
}

/// The index of what a symbol defines.
fn index_of(look: Look<'_>, known: Known) -> Result<u32, OutOfMemory>
    ensures { IfOk result (λ n. n ≡ index_of (look_seen look.entry) known known.kind) }
{
    match known.kind {
        SymbolKind::Function => sum(look.functions, place_for(look, known, kinds::FUNCTION)),
        SymbolKind::Datum => Ok(place_for(look, known, kinds::SEGMENT)),
        SymbolKind::GlobalVar => sum(look.globals, place_for(look, known, kinds::GLOBAL)),
        SymbolKind::Section | SymbolKind::Table => Ok(0),
    }
}

impl Made {
    /// Nothing.
    fn new(alloc: Global) -> Made
        ensures { result ≡ nothing_made }
    {
        Made {
            rows: Seq::new(alloc),
            functions: 0,
            globals: 0,
        }
    }

    /// The records.
    fn into_rows(self) -> Seq<Row>
        ensures { result ≡ self.rows }
    {
        self.rows
    }

    /// The index of an open symbol.
    fn open_index(&self, kind: SymbolKind) -> u32
        ensures { result ≡ open_index self.now kind }
    {
        if is_function(kind) {
            self.functions
        } else if is_global(kind) {
            self.globals
        } else {
            0
        }
    }

    /// One open symbol more.
    fn put_open(&mut self, at: At, flags: u32, kind: SymbolKind) -> Result<(), OutOfMemory>
        ensures { OnOk result (self.new ≡ with_open self.old at flags kind) }
    {
        let functions = sum(self.functions, one_if(is_function(kind)))?;
        let globals = sum(self.globals, one_if(is_global(kind)))?;
        let index = self.open_index(kind);
        self.rows.push(Row {
            at,
            is_open: true,
            flags,
            index,
        })?;
        self.functions = functions;
        self.globals = globals;
        Ok(())
    }

    /// One defined symbol more.
    fn put_defined(&mut self, look: Look<'_>, known: Known) -> Result<(), OutOfMemory>
        ensures { OnOk result (self.new ≡ with_defined (look_seen look.entry) self.old known) }
    {
        let index = index_of(look, known)?;
        self.rows.push(Row {
            at: known.at,
            is_open: false,
            flags: known.flags,
            index,
        })?;
        Ok(())
    }

    /// One symbol more.
    fn add(&mut self, look: Look<'_>, known: Known) -> Result<(), OutOfMemory>
        ensures { OnOk result (self.new ≡ with_known (look_seen look.entry) self.old known) }
    {
        let Some(number) = known.number else {
            return self.put_defined(look, known);
        };
        if look.sight.winner(number).is_some() {
            return self.put_defined(look, known);
        }
        let flags = open_flags(look.sight.column(number), known.flags);
        self.put_open(known.at, flags, known.kind)
    }

    /// The symbol at a place more.
    fn add_at(&mut self, look: Look<'_>, entries: Entries<'_>, at: At) -> Result<(), OutOfMemory>
        requires { FitsObjects entries }
        ensures { OnOk result (self.new ≡ with_at (look_seen look.entry) entries.entry.names.now.names entries.entry.objects.now self.old at) }
    {
        match known_at(entries, at) {
            Some(known) => self.add(look, known),
            None => Ok(()),
        }
    }
}

/// The records of these symbols.
fn made_of(
    alloc: Global,
    look: Look<'_>,
    entries: Entries<'_>,
    symbols: &[At],
) -> Result<Made, OutOfMemory>
    requires { FitsObjects entries }
    ensures { IfOk result (λ m. m ≡ fold (with_at (look_seen look.entry) entries.entry.names.now.names entries.entry.objects.now) nothing_made symbols.now) }
{
    let mut made = Made::new(alloc);
    for at in symbols {
        made.add_at(look, entries, *at)?;
    }
    Ok(made)
}

/// The symbols of the object that a partial link makes of a program, as records, by what stands there. `entries` is the view of its
/// objects; the functions and globals that are imported are those of open names.
pub fn rows_of(
    alloc: Global,
    look: Look<'_>,
    entries: Entries<'_>,
    symbols: &[At],
) -> Result<Seq<Row>, OutOfMemory>
    requires { FitsObjects entries }
    ensures { IfOk result (λ rows. (d : Data) (p : Rules) → IsProgramOf Plain d p → d.objects.now ≡ entries.entry.objects.now → d.names.now ≡ entries.entry.names.now
        → IsLook p d.names.now.names (look_seen look.entry) → map (symbol_there p.objects) symbols.now ≡ map Some (partial.standing p)
        → map (row_seen p.objects) rows ≡ map Some (map (partial.symbol_for p) (partial.standing p))) }
{
    let made = made_of(alloc, look, entries, symbols)?;
    let rows = made.into_rows();
    Ok(rows)
}
