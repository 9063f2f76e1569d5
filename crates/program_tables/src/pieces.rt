//! Some of the parts, and what they name, as one worker makes them.
ghost use Rattle.std.specs.Prelude.{◌≡◌, ◌-◌, ◌+◌, ◌≤◌, ◌∷◌, ◌<◌, ◌^◌, [], false, length, filter, OnOk, IfOk};
ghost use Rattle.link_program.specs.made_symbols.Made.{made, made_at};
ghost use Rattle.link_program.specs.object_columns.Seen.{function_seen, segment_seen};
ghost use Rattle.link_program.specs.link_rules.Program.{indexed, option_onto, made_kind};
ghost use Rattle.program_tables.specs.Views.{view_seen};
ghost use Rattle.program_tables.specs.Rows.{function_row, segment_row, global_row, keeps_row, rows_in, rows_from, made_row, made_rows};
ghost use Rattle.program_tables.specs.Gains.{Gains, AreGained};

use crate::view::{Lookups, NO_SOURCE, ObjectView};
use link_program::{Content, FunctionRef, GlobalDef, Named, Part, SegmentRef};
use linking_section::SymbolKind;
use made_symbols::{Mode, count, kind};
use mark_bits::{Chunk, kinds as chunk_kinds};
use std::alloc::Global;
use wl_base::{OutOfMemory, Seq};
use wl_lists::Lists;

/// The number of `__wasm_call_ctors` among the linker's symbols, in both modes.
const CALL_CTORS: u32 = 0;

/// Parts, and by part what it names.
#[derive(Drop)]
pub(crate) struct Piece {
    pub(crate) parts: Seq<Part>,
    pub(crate) named: Lists<Named>,
    /// Whether memory was refused to its worker, so that parts may be missing.
    pub(crate) is_short: bool,
}

/// How many there are; 2^32 or more are answered as want of memory.
fn few(count: usize) -> Result<u32, OutOfMemory>
    ensures { IfOk result (λ few. few ≡ count) }
{
    match u32::try_from(count) {
        Ok(few) => Ok(few),
        Err(_) => Err(OutOfMemory),
    }
}

/// The kind of chunk that a linker-made symbol is. The linker's data and its table are no chunks.
fn made_kind(kind: SymbolKind) -> Option<u8>
    ensures { result ≡ made_kind kind }
{
    match kind {
        SymbolKind::Function => Some(chunk_kinds::FUNCTION),
        SymbolKind::GlobalVar => Some(chunk_kinds::GLOBAL),
        SymbolKind::Datum | SymbolKind::Section | SymbolKind::Table => None,
    }
}

impl Piece {
    /// No part. It takes no memory.
    pub(crate) fn new(alloc: Global) -> Piece
        ensures parts { result.parts ≡ [] }
        ensures named { result.named ≡ [] }
        ensures whole { result.is_short ≡ false }
    {
        Piece {
            parts: Seq::new(alloc),
            named: Lists::new(alloc),
            is_short: false,
        }
    }

    /// One part more, which names this.
    fn add(&mut self, part: Part, named: &[Named]) -> Result<(), OutOfMemory>
        ensures { OnOk result (Gains (record { part = part; named = named.now } ∷ []) self.old self.new) }
    {
        self.parts.push(part)?;
        self.named.push(named)?;
        Ok(())
    }

    /// A function of an object, if it is kept. The row is room for what it names.
    fn add_function(
        &mut self,
        row: &mut Seq<Named>,
        view: ObjectView<'_>,
        index: u32,
        function: FunctionRef<'_>,
    ) -> Result<(), OutOfMemory>
        requires { view.first + length view.from.now.symbols < 2 ^ 32 }
        ensures { OnOk result (Gains (filter (keeps_row (view_seen view.entry))
            (function_row (view_seen view.entry) index (function_seen function.entry) ∷ [])) self.old self.new) }
    {
        if !view.keeps_function(index) {
            return Ok(());
        }
        view.name_operands(row, function.operands)?;
        let part = Part {
            chunk: Chunk {
                input: view.from.input,
                kind: chunk_kinds::FUNCTION,
                index,
            },
            content: Content::Function(view.type_number(function.type_index)),
            source: view.source(function.span)?,
        };
        self.add(part, row.as_slice())
    }

    /// The kept functions of an object.
    fn add_functions(
        &mut self,
        row: &mut Seq<Named>,
        view: ObjectView<'_>,
    ) -> Result<(), OutOfMemory>
        requires { view.first + length view.from.now.symbols < 2 ^ 32 }
        ensures { OnOk result (Gains (filter (keeps_row (view_seen view.entry))
            (indexed (function_row (view_seen view.entry)) 0 view.entry.from.now.functions)) self.old self.new) }
    {
        for index in 0..few(view.from.functions.len())? {
            let Some(function) = view.from.functions.get(index as usize) else {
                unreachable!()
            };
            self.add_function(row, view, index, function)?;
        }
        Ok(())
    }

    /// A segment of an object, if it is kept. The row is room for what it names.
    fn add_segment(
        &mut self,
        row: &mut Seq<Named>,
        view: ObjectView<'_>,
        index: u32,
        segment: SegmentRef<'_>,
    ) -> Result<(), OutOfMemory>
        requires { view.first + length view.from.now.symbols < 2 ^ 32 }
        ensures { OnOk result (Gains (filter (keeps_row (view_seen view.entry))
            (segment_row (view_seen view.entry) index (segment_seen segment.entry) ∷ [])) self.old self.new) }
    {
        if !view.keeps_segment(index) {
            return Ok(());
        }
        view.name_windows(row, segment.windows)?;
        let part = Part {
            chunk: Chunk {
                input: view.from.input,
                kind: chunk_kinds::SEGMENT,
                index,
            },
            content: Content::Segment {
                align: segment.align,
                flags: segment.flags,
            },
            source: view.source(segment.span)?,
        };
        self.add(part, row.as_slice())
    }

    /// The kept segments of an object.
    fn add_segments(
        &mut self,
        row: &mut Seq<Named>,
        view: ObjectView<'_>,
    ) -> Result<(), OutOfMemory>
        requires { view.first + length view.from.now.symbols < 2 ^ 32 }
        ensures { OnOk result (Gains (filter (keeps_row (view_seen view.entry))
            (indexed (segment_row (view_seen view.entry)) 0 view.entry.from.now.segments)) self.old self.new) }
    {
        for index in 0..few(view.from.segments.len())? {
            let Some(segment) = view.from.segments.get(index as usize) else {
                unreachable!()
            };
            self.add_segment(row, view, index, segment)?;
        }
        Ok(())
    }

    /// A global of an object.
    fn add_global(
        &mut self,
        view: ObjectView<'_>,
        index: u32,
        global: &GlobalDef,
    ) -> Result<(), OutOfMemory>
        ensures { OnOk result (Gains (filter (keeps_row (view_seen view.entry))
            (global_row (view_seen view.entry) index global.now ∷ [])) self.old self.new) }
    {
        let part = Part {
            chunk: Chunk {
                input: view.from.input,
                kind: chunk_kinds::GLOBAL,
                index,
            },
            content: Content::Global {
                kind: global.kind,
                value: global.value,
            },
            source: NO_SOURCE,
        };
        self.add(part, &[])
    }

    /// The globals of an object.
    fn add_globals(&mut self, view: ObjectView<'_>) -> Result<(), OutOfMemory>
        ensures { OnOk result (Gains (filter (keeps_row (view_seen view.entry))
            (indexed (global_row (view_seen view.entry)) 0 view.entry.from.now.globals)) self.old self.new) }
    {
        for index in 0..few(view.from.globals.len())? {
            let Some(global) = view.from.globals.get(index as usize) else {
                unreachable!()
            };
            self.add_global(view, index, global)?;
        }
        Ok(())
    }

    /// The kept parts of an object: its functions, its segments and its globals, each by index.
    fn add_object(&mut self, row: &mut Seq<Named>, view: ObjectView<'_>) -> Result<(), OutOfMemory>
        requires { view.first + length view.from.now.symbols < 2 ^ 32 }
        ensures { OnOk result (Gains (rows_in (view_seen view.entry)) self.old self.new) }
    {
        self.add_functions(row, view)?;
        self.add_segments(row, view)?;
        self.add_globals(view)?;
        Ok(())
    }

    /// The kept parts of objects, by their places, from one up to another.
    fn add_objects(
        &mut self,
        alloc: Global,
        lookups: Lookups<'_>,
        from: u32,
        to: u32,
    ) -> Result<(), OutOfMemory>
        requires long { length lookups.entries.parts.now ≡ length lookups.entries.objects.now }
        requires up { from ≤ to }
        requires there { to ≤ length lookups.entries.objects.now }
        ensures { OnOk result (Gains (rows_from lookups.entry from (to - from)) self.old self.new) }
    {
        let mut row = Seq::new(alloc);
        for object in from..to {
            let view = lookups.view(object)?;
            self.add_object(&mut row, view)?;
        }
        Ok(())
    }

    /// The same, but where memory is refused the piece is short.
    pub(crate) fn gain(&mut self, alloc: Global, lookups: Lookups<'_>, from: u32, to: u32)
        requires long { length lookups.entries.parts.now ≡ length lookups.entries.objects.now }
        requires up { from ≤ to }
        requires there { to ≤ length lookups.entries.objects.now }
        ensures { self.new.is_short ≡ false → Gains (rows_from lookups.entry from (to - from)) self.old self.new }
    {
        let Ok(()) = self.add_objects(alloc, lookups, from, to) else {
            self.is_short = true;
            return;
        };
    }

    /// A linker-made part, by its number, if it is a chunk. `calls` is what `__wasm_call_ctors` calls.
    fn add_made(&mut self, mode: Mode, calls: &[Named], number: u32) -> Result<(), OutOfMemory>
        requires { number < length (made mode) }
        ensures { OnOk result (Gains (option_onto (made_row calls.now number (made_at mode number).kind) []) self.old self.new) }
    {
        let Some(kind) = made_kind(kind(mode, number)) else {
            return Ok(());
        };
        let part = Part {
            chunk: Chunk {
                input: 0,
                kind,
                index: number,
            },
            content: Content::Made,
            source: NO_SOURCE,
        };
        let named = if kind == chunk_kinds::FUNCTION && number == CALL_CTORS {
            calls
        } else {
            &[]
        };
        self.add(part, named)
    }

    /// The linker-made parts by number.
    pub(crate) fn of_made(alloc: Global, mode: Mode, calls: &[Named]) -> Result<Piece, OutOfMemory>
        ensures { IfOk result (AreGained (made_rows calls.now 0 (made mode))) }
    {
        let mut made = Piece::new(alloc);
        for number in 0..count(mode) {
            made.add_made(mode, calls, number)?;
        }
        Ok(made)
    }
}
