//! What is looked up of an object when its parts are made.
ghost use Rattle.std.specs.Prelude.{◌≡◌, ◌-◌, ◌+◌, ◌<◌, ◌^◌, [], length, slice_get, slice_index_or, option_map, Some, None, not, IfOk};
ghost use Rattle.link_program.specs.name_entries.Parts.{has_flag};
ghost use Rattle.program_tables.specs.Views.{view_seen, view_at, keeps_function, called_from, number_named, type_from, source_from};

use link_program::{Entries, Home, Object, ObjectParts};
use wl_base::{FileSpan, InputId, OutOfMemory, Seq, Span};
use wl_lists::Lists;

/// The objects, and the numbers of their symbols and types.
#[derive(Clone, Copy)]
pub(crate) struct Lookups<'a> {
    pub(crate) entries: Entries<'a>,
    /// By object, the number of its first symbol.
    pub(crate) firsts: &'a [u32],
    /// By object, the numbers of its types.
    pub(crate) types: &'a Lists<u32>,
    /// By candidate, where its bytes begin.
    pub(crate) homes: &'a [Home],
    /// By the number of a symbol, that of the one which a call of it names; where there is none, it is the symbol itself.
    pub(crate) called: &'a [u32],
}

/// An object, and the numbers of its symbols and types.
#[derive(Clone, Copy)]
pub(crate) struct ObjectView<'a> {
    pub(crate) from: &'a Object,
    pub(crate) parts: &'a ObjectParts,
    /// The number of its first symbol.
    pub(crate) first: u32,
    /// The numbers of its types.
    pub(crate) types: &'a [u32],
    /// Where its bytes begin.
    pub(crate) home: Option<Home>,
    /// By the number of a symbol, that of the one which a call of it names.
    pub(crate) called: &'a [u32],
}

/// Where the bytes of an input begin.
fn home_of(homes: &[Home], input: InputId) -> Option<Home>
    ensures { result ≡ slice_get homes.now (input - 1) }
{
    homes.get(input.saturating_sub(1) as usize).copied()
}

/// The numbers of an object's types.
fn types_of(types: &Lists<u32>, object: u32) -> &[u32]
    ensures { result.now ≡ slice_index_or types.now object [] }
{
    match types.get(object as usize) {
        Some(numbers) => numbers,
        None => &[],
    }
}

/// The number of an object's first symbol.
fn first_of(firsts: &[u32], object: u32) -> u32
    ensures { result ≡ slice_index_or firsts.now object 0 }
{
    match firsts.get(object as usize) {
        Some(first) => *first,
        None => 0,
    }
}

/// The type of a relocation that calls (R_WASM_FUNCTION_INDEX_LEB).
const CALLS: u8 = 0;

/// The number of the symbol that a call names in place of the one of this number.
fn called_by(called: &[u32], number: u32) -> u32
    ensures { result ≡ slice_index_or called.now number number }
{
    match called.get(number as usize) {
        Some(other) => *other,
        None => number,
    }
}

/// Whether a flag isn't set.
fn is_unset(flags: &Seq<bool>, at: usize) -> bool
    ensures { result ≡ not (has_flag flags.now at) }
{
    match flags.get(at) {
        Some(flag) => !*flag,
        None => true,
    }
}

impl<'a> Lookups<'a> {
    /// An object by its place, if its last symbol has a number below 2^32.
    pub(crate) fn view(self, object: u32) -> Result<ObjectView<'a>, OutOfMemory>
        requires long { length self.entries.parts.now ≡ length self.entries.objects.now }
        requires there { object < length self.entries.objects.now }
        ensures view { IfOk result (λ view. view_at self.entry object ≡ Some (view_seen view)) }
        ensures few { IfOk result (λ view. view.first + length view.from.now.symbols < 2 ^ 32) }
    {
        let from = &self.entries.objects[object as usize];
        let first = first_of(self.firsts, object);
        if from.symbols.len() > (u32::MAX - first) as usize {
            return Err(OutOfMemory);
        }
        Ok(ObjectView {
            from,
            parts: &self.entries.parts[object as usize],
            first,
            types: types_of(self.types, object),
            home: home_of(self.homes, from.input),
            called: self.called,
        })
    }
}

impl ObjectView<'_> {
    /// Whether a defined function is kept. Groups name it by its index, behind the imports.
    pub(crate) fn keeps_function(self, index: u32) -> bool
        ensures { result ≡ keeps_function (view_seen self.entry) index }
    {
        let imports = self.parts.imports.functions.as_slice();
        is_unset(
            &self.parts.dropped_functions,
            index as usize + imports.len(),
        )
    }

    /// Whether a segment is kept.
    pub(crate) fn keeps_segment(self, index: u32) -> bool
        ensures { result ≡ not (has_flag self.entry.parts.now.dropped_segments index) }
    {
        is_unset(&self.parts.dropped_segments, index as usize)
    }

    /// The number of the symbol that a call of a symbol of the object names.
    pub(crate) fn called(self, symbol: u32) -> u32
        requires few { self.first + length self.from.now.symbols < 2 ^ 32 }
        requires there { symbol < length self.from.now.symbols }
        ensures { result ≡ called_from (view_seen self.entry) symbol }
    {
        called_by(self.called, self.first + symbol)
    }

    /// The number of the symbol that a relocation of this type names, by a symbol of the object.
    pub(crate) fn named_by(self, kind: u8, symbol: u32) -> u32
        requires few { self.first + length self.from.now.symbols < 2 ^ 32 }
        requires there { symbol < length self.from.now.symbols }
        ensures { result ≡ number_named (view_seen self.entry) kind symbol }
    {
        if kind == CALLS {
            self.called(symbol)
        } else {
            self.first + symbol
        }
    }

    /// The number of a type of the object; 0, that of () to (), where there is none.
    pub(crate) fn type_number(self, index: u32) -> u32
        ensures { result ≡ type_from (view_seen self.entry) index }
    {
        match self.types.get(index as usize) {
            Some(number) => *number,
            None => 0,
        }
    }

    /// A span of the object as a span of its file; one past 2^64 is answered as want of memory.
    pub(crate) fn source(self, span: Span) -> Result<FileSpan, OutOfMemory>
        ensures { IfOk result (λ source. source ≡ source_from self.entry.home span) }
    {
        let Some(home) = self.home else {
            return Ok(NO_SOURCE);
        };
        match home.start.checked_add(span.start) {
            Some(start) => Ok(FileSpan {
                file: home.file,
                span: Span {
                    start,
                    len: span.len,
                },
            }),
            None => Err(OutOfMemory),
        }
    }
}

/// No bytes.
pub(crate) const NO_SOURCE: FileSpan = FileSpan {
    file: 0,
    span: Span { start: 0, len: 0 },
};
