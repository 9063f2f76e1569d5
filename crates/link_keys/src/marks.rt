//! What the references of live parts ask for, noted in one pass.
ghost use Rattle.std.specs.Prelude.{◌≡◌, nat_eq, IfOk, OnOk};
ghost use Rattle.indexmap.specs.IndexSet.{insert_all};
ghost use Rattle.link_keys.specs.Codes.{same_code};
ghost use Rattle.link_keys.specs.Noted.{import_named, stub_called, function_meant, asks_slot, function_taken, cell_read, flagged, with_taken, with_read, noted_ref, noted_number, nothing_noted};
ghost use Rattle.link_keys.specs.Joined.{flagged_if, either_flag, with_all_read, joined};

use crate::{Code, function_code, got_code};
use indexmap::IndexSet;
use link_program::{FunctionKey, GotKey, Lead, Symbol, cell_meant, function_of};
use linking_section::SymbolKind;
use reloc_section::kinds;
use std::alloc::Global;
use std::marker::Model;
use wl_base::OutOfMemory;

/// What was noted.
#[derive(Drop)]
pub struct Marks {
    /// By the number of an import whether a reference names it.
    pub(crate) imports: Vec<bool>,
    /// By the number of a name whether a reference calls its null function.
    pub(crate) stubs: Vec<bool>,
    /// The functions that have slots.
    pub(crate) taken: IndexSet<Code>,
    /// The cells of addresses that code reads.
    pub(crate) cells: Vec<GotKey>,
    cell_codes: IndexSet<Code>,
    /// The numbers of the types that windows name.
    pub(crate) windows: IndexSet<u32>,
}

impl Model for Marks {
    ghost use Rattle.link_keys.specs.Noted.{Noted};

    ghost Value = { Noted };

    ghost view = { λ m. record { imports = m.imports.items; stubs = m.stubs.items; taken = m.taken.keys; cells = m.cells.items; cell_codes = m.cell_codes.keys; windows = m.windows.keys } };
}

/// The import that a reference names.
pub fn import_named(lead: Lead) -> Option<u32>
    ensures { result ≡ import_named lead }
{
    match lead {
        Lead::Import(number) => Some(number),
        Lead::Here(_) | Lead::Null | Lead::Nothing => None,
    }
}

/// The name of the null function that a reference calls.
fn stub_called(kind: u8, symbol: Symbol) -> Option<u32>
    ensures { result ≡ stub_called kind symbol }
{
    let null = match symbol.lead {
        Lead::Null => true,
        Lead::Here(_) | Lead::Import(_) | Lead::Nothing => false,
    };
    if kind == kinds::FUNCTION_INDEX_LEB && null {
        symbol.name
    } else {
        None
    }
}

/// The function that a reference means; null has no slot.
fn function_meant(lead: Lead) -> Option<FunctionKey>
    ensures { result ≡ function_meant lead }
{
    match lead {
        Lead::Here(definition) => Some(function_of(definition)),
        Lead::Import(number) => Some(FunctionKey::Import(number)),
        Lead::Null | Lead::Nothing => None,
    }
}

/// Whether a relocation type asks for the slot of a function, or for the cell that holds it.
fn asks_slot(kind: u8, symbol: SymbolKind) -> bool
    ensures { result ≡ asks_slot kind symbol }
{
    kind == kinds::TABLE_INDEX_SLEB
        || kind == kinds::TABLE_INDEX_I32
        || kind == kinds::TABLE_INDEX_REL_SLEB
        || (kind == kinds::GLOBAL_INDEX_LEB && symbol == SymbolKind::Function)
}

/// The function whose slot a reference takes.
fn function_taken(kind: u8, symbol: Symbol) -> Option<FunctionKey>
    ensures { result ≡ function_taken kind symbol }
{
    if asks_slot(kind, symbol.kind) {
        function_meant(symbol.lead)
    } else {
        None
    }
}

/// The cell that a reference reads, where it stands in code.
fn cell_read(code: bool, kind: u8, symbol: Symbol) -> Option<GotKey>
    ensures { result ≡ cell_read code kind symbol }
{
    if code && kind == kinds::GLOBAL_INDEX_LEB && symbol.kind != SymbolKind::GlobalVar {
        Some(cell_meant(symbol.kind.code(), symbol.lead))
    } else {
        None
    }
}

/// Sets the flag at a place, where there is one.
pub fn flag(flags: &mut [bool], at: Option<u32>)
    ensures { flags.new ≡ flagged flags.old at }
{
    if let Some(at) = at {
        let at = at as usize;
        if at < flags.len() {
            flags[at] = true;
        }
    }
}

/// Sets the flag at a place, where it is to be set and there is one.
fn flag_if(flags: &mut [bool], at: usize, is_set: bool)
    ensures { flags.new ≡ flagged_if flags.old at is_set }
{
    if !is_set {
        return;
    }
    if at < flags.len() {
        flags[at] = true;
    }
}

/// Sets the flags that are set at their places in another list.
fn join_flags(flags: &mut [bool], more: &[bool])
    ensures { flags.new ≡ either_flag flags.old more.now }
{
    for at in 0..more.len() {
        flag_if(flags, at, more[at]);
    }
}

/// Puts codes behind others, each once.
fn put_codes(codes: &mut IndexSet<Code>, more: &[Code]) -> Result<(), OutOfMemory>
    ensures { OnOk result (codes.new.keys ≡ insert_all same_code codes.old.keys more.now) }
{
    for code in more {
        codes.insert(*code)?;
    }
    Ok(())
}

/// Puts numbers behind others, each once.
pub fn put_numbers(numbers: &mut IndexSet<u32>, more: &[u32]) -> Result<(), OutOfMemory>
    ensures { OnOk result (numbers.new.keys ≡ insert_all nat_eq numbers.old.keys more.now) }
{
    for number in more {
        numbers.insert(*number)?;
    }
    Ok(())
}

impl Marks {
    /// Nothing, of so many imports and names.
    pub(crate) fn new(alloc: Global, imports: usize, names: usize) -> Result<Marks, OutOfMemory>
        ensures { IfOk result (λ m. m ≡ nothing_noted imports names) }
    {
        Ok(Marks {
            imports: vec![in alloc; false; imports]?,
            stubs: vec![in alloc; false; names]?,
            taken: IndexSet::new(alloc),
            cells: Vec::new(alloc),
            cell_codes: IndexSet::new(alloc),
            windows: IndexSet::new(alloc),
        })
    }

    /// By the number of an import whether it is named.
    pub fn imports(&self) -> &[bool]
        ensures { result.now ≡ self.now.imports }
    {
        self.imports.as_slice()
    }

    /// Names these imports, and no others.
    pub fn set_imports(&mut self, imports: Vec<bool>)
        ensures { self.new ≡ record self.old { imports = imports.items } }
    {
        self.imports = imports;
    }

    /// The cells of addresses that code reads, in first-seen order.
    pub fn cells(&self) -> &[GotKey]
        ensures { result.now ≡ self.now.cells }
    {
        self.cells.as_slice()
    }

    /// Notes a function that has a slot.
    fn take(&mut self, key: FunctionKey) -> Result<(), OutOfMemory>
        ensures { OnOk result (self.new ≡ with_taken self.old key) }
    {
        self.taken.insert(function_code(key))?;
        Ok(())
    }

    /// Notes a cell that is read.
    fn read(&mut self, key: GotKey) -> Result<(), OutOfMemory>
        ensures { OnOk result (self.new ≡ with_read self.old key) }
    {
        if self.cell_codes.insert(got_code(key))? {
            self.cells.push(key)?;
        }
        Ok(())
    }

    /// Notes a reference by its relocation's type and its symbol.
    pub(crate) fn reference(
        &mut self,
        code: bool,
        kind: u8,
        symbol: Symbol,
    ) -> Result<(), OutOfMemory>
        ensures { OnOk result (self.new ≡ noted_ref code kind symbol self.old) }
    {
        flag(&mut self.imports, import_named(symbol.lead));
        flag(&mut self.stubs, stub_called(kind, symbol));
        if let Some(key) = function_taken(kind, symbol) {
            self.take(key)?;
        }
        if let Some(key) = cell_read(code, kind, symbol) {
            self.read(key)?;
        }
        Ok(())
    }

    /// Notes the number of a type that a window names.
    pub(crate) fn window(&mut self, number: u32) -> Result<(), OutOfMemory>
        ensures { OnOk result (self.new ≡ noted_number number self.old) }
    {
        self.windows.insert(number)?;
        Ok(())
    }

    /// Notes cells that are read.
    fn read_all(&mut self, keys: &[GotKey]) -> Result<(), OutOfMemory>
        ensures { OnOk result (self.new ≡ with_all_read self.old keys.now) }
    {
        for key in keys {
            self.read(*key)?;
        }
        Ok(())
    }

    /// Notes what others have noted, behind what is noted here.
    pub(crate) fn join(&mut self, more: &Marks) -> Result<(), OutOfMemory>
        ensures { OnOk result (self.new ≡ joined self.old more.now) }
    {
        join_flags(&mut self.imports, &more.imports);
        join_flags(&mut self.stubs, &more.stubs);
        put_codes(&mut self.taken, more.taken.as_slice())?;
        put_numbers(&mut self.windows, more.windows.as_slice())?;
        self.read_all(more.cells.as_slice())?;
        Ok(())
    }
}
