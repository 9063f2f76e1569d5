//! Data segments.
ghost use Rattle.std.specs.Prelude.{◌≡◌, ◌++◌, ◌∷◌, [], length, slice_get, option_map, IfOk, OnOk, OnErr};
ghost use Rattle.object_columns.specs.Seen.{segment_seen};

use crate::short_span::ShortSpan;
use body_windows::Reloc;
use linking_section::SegmentInfo;
use std::alloc::Global;
use std::marker::Model;
use wl_base::{OutOfMemory, Seq, Span};
use wl_lists::{Lists, shrunk, with_room};

/// An active data segment, as contracts see it.
#[derive(Debug, Drop)]
pub struct SegmentDef {
    /// Where its bytes stand.
    pub span: Span,
    /// Its name, alignment and flags.
    pub info: SegmentInfo,
    /// Its relocations. Offsets count from the segment's first byte.
    pub windows: Seq<Reloc>,
}

/// An active data segment, lent.
#[derive(Clone, Copy, Debug)]
pub struct SegmentRef<'a> {
    /// Where its bytes stand.
    pub span: Span,
    /// Its name, as UTF-8.
    pub name: &'a [u8],
    /// Its alignment, as the exponent of a power of 2.
    pub align: u32,
    /// Its flags, as they stand.
    pub flags: u32,
    /// Its relocations. Offsets count from the segment's first byte.
    pub windows: &'a [Reloc],
}

/// A segment without its name and relocations.
#[derive(Clone, Copy, Debug)]
pub struct SegmentRow {
    span: ShortSpan,
    align: u32,
    flags: u32,
}

// A link keeps one for each segment of its objects.
const _: () = prove!(size_of::<SegmentRow>() == 16);

/// A list of data segments, which contracts see as that list.
#[derive(Debug, Drop)]
pub struct Segments {
    rows: Seq<SegmentRow>,
    names: Lists<u8>,
    windows: Lists<Reloc>,
}

impl Model for Segments {
    ghost use Rattle.std.specs.Prelude.{◌≡◌, List, length};
    ghost use Rattle.object_columns.specs.declared.segments.SegmentDef.{SegmentDef};
    ghost use Rattle.object_columns.specs.Columns.{joined_three, segment_of};

    ghost Value = { List SegmentDef };

    ghost view = { λ s. joined_three segment_of s.rows s.names s.windows };

    ghost invariant = { λ s. (length s.rows ≡ length s.names) × (length s.rows ≡ length s.windows) };
}

impl Segments {
    /// The empty list. It takes no memory.
    pub fn new(alloc: Global) -> Self
        ensures { result ≡ [] }
    {
        Segments {
            rows: Seq::new(alloc),
            names: Lists::new(alloc),
            windows: Lists::new(alloc),
        }
    }

    /// The empty list, with room for so many segments, and for so many bytes of names and windows of
    /// all of them.
    pub fn with_room(
        alloc: Global,
        segments: usize,
        names: usize,
        windows: usize,
    ) -> Result<Self, OutOfMemory>
        ensures { IfOk result (λ list. list ≡ []) }
    {
        Ok(Segments {
            rows: with_room(alloc, segments)?,
            names: Lists::with_room(alloc, segments, names)?,
            windows: Lists::with_room(alloc, segments, windows)?,
        })
    }

    /// How many segments there are.
    pub fn len(&self) -> usize
        ensures { result ≡ length self.now }
    {
        self.rows.len()
    }

    /// The segment at a place, counted from 0; `None` exactly where there is none.
    pub fn get(&self, at: usize) -> Option<SegmentRef<'_>>
        ensures { option_map segment_seen result ≡ slice_get self.now at }
    {
        let Some(row) = self.rows.get(at) else {
            return None;
        };
        let Some(name) = self.names.get(at) else {
            return None;
        };
        let Some(windows) = self.windows.get(at) else {
            return None;
        };
        Some(SegmentRef {
            span: row.span.span(),
            name,
            align: row.align,
            flags: row.flags,
            windows,
        })
    }

    /// Puts a segment at the end. Where memory is refused the list is as before. A
    /// span past 2^32 - 1 is answered as want of memory.
    pub fn push(&mut self, segment: SegmentRef<'_>) -> Result<(), OutOfMemory>
        ensures ok { OnOk result (self.new ≡ self.old ++ segment_seen segment.entry ∷ []) }
        ensures err { OnErr result (self.new ≡ self.old) }
    {
        let span = ShortSpan::of(segment.span)?;
        let len = self.rows.len();
        self.rows.push(SegmentRow {
            span,
            align: segment.align,
            flags: segment.flags,
        })?;
        if let Err(e) = self.names.push(segment.name) {
            self.rows.truncate(len);
            return Err(e);
        }
        match self.windows.push(segment.windows) {
            Ok(()) => Ok(()),
            Err(e) => {
                self.rows.truncate(len);
                self.names.truncate(len);
                Err(e)
            }
        }
    }

    /// The same list in no more memory than it needs.
    pub fn shrunk(self) -> Self
        ensures { result ≡ self }
    {
        Segments {
            rows: shrunk(self.rows),
            names: self.names.shrunk(),
            windows: self.windows.shrunk(),
        }
    }
}
