//! The kept parts of objects by their kinds, and the place of each among those of its kind.
ghost use Rattle.std.specs.Prelude.{◌≡◌, ◌<◌, ◌∷◌, ◌++◌, [], map, fold, length, slice_index_or, IfOk, OnOk};
ghost use Rattle.link_program.specs.link_rules.Program.{Program as Rules};
ghost use Rattle.link_program.specs.made_symbols.declared.mode.Mode.TheVariants.{Plain};
ghost use Rattle.link_program.specs.Program.{IsProgramOf};
ghost use Rattle.partial_rules.specs.Partial as partial;
ghost use Rattle.partial_parts.specs.Kept.{none_kept, passed, a_function, a_segment, a_global, by_kind, kept_chunk, kept_parts, place_in, AreKept};

use link_program::{Part, Program, chunk_number};
use mark_bits::{Chunk, ChunkTable, kinds};
use std::alloc::Global;
use std::marker::Model;
use wl_base::{OutOfMemory, Seq};

/// The kept parts of objects, by input and index.
#[derive(Drop)]
pub struct Kept {
    functions: Seq<u32>,
    segments: Seq<u32>,
    globals: Seq<u32>,
    /// Of each part its place among those of its kind; 0 of the linker's.
    places: Seq<u32>,
}

impl Model for Kept {
    ghost use Rattle.partial_parts.specs.Kept.{Kept as Seen};

    ghost Value = { Seen };

    ghost view = { λ k. record { functions = k.functions; segments = k.segments; globals = k.globals; places = k.places } };
}

/// Puts a number behind others, and gives its place among them. One of 2^32 and more is answered as want of memory.
fn put(numbers: &mut Seq<u32>, number: usize) -> Result<u32, OutOfMemory>
    ensures list { OnOk result (numbers.new ≡ numbers.old ++ number ∷ []) }
    ensures place { IfOk result (λ place. place ≡ length numbers.old) }
{
    let Ok(place) = u32::try_from(numbers.len()) else {
        return Err(OutOfMemory);
    };
    let Ok(number) = u32::try_from(number) else {
        return Err(OutOfMemory);
    };
    numbers.push(number)?;
    Ok(place)
}

impl Kept {
    /// No parts.
    fn new(alloc: Global) -> Kept
        ensures { result ≡ none_kept }
    {
        Kept {
            functions: Seq::new(alloc),
            segments: Seq::new(alloc),
            globals: Seq::new(alloc),
            places: Seq::new(alloc),
        }
    }

    /// One part more, which isn't kept.
    fn pass(&mut self) -> Result<(), OutOfMemory>
        ensures { OnOk result (self.new ≡ passed self.old) }
    {
        self.places.push(0)?;
        Ok(())
    }

    fn put_function(&mut self) -> Result<(), OutOfMemory>
        ensures { OnOk result (self.new ≡ a_function self.old) }
    {
        let place = put(&mut self.functions, self.places.len())?;
        self.places.push(place)?;
        Ok(())
    }

    fn put_segment(&mut self) -> Result<(), OutOfMemory>
        ensures { OnOk result (self.new ≡ a_segment self.old) }
    {
        let place = put(&mut self.segments, self.places.len())?;
        self.places.push(place)?;
        Ok(())
    }

    fn put_global(&mut self) -> Result<(), OutOfMemory>
        ensures { OnOk result (self.new ≡ a_global self.old) }
    {
        let place = put(&mut self.globals, self.places.len())?;
        self.places.push(place)?;
        Ok(())
    }

    /// One part of an object more, by its kind.
    fn put_kind(&mut self, kind: u8) -> Result<(), OutOfMemory>
        ensures { OnOk result (self.new ≡ by_kind self.old kind) }
    {
        if kind == kinds::FUNCTION {
            self.put_function()
        } else if kind == kinds::SEGMENT {
            self.put_segment()
        } else if kind == kinds::GLOBAL {
            self.put_global()
        } else {
            self.pass()
        }
    }

    /// One part more.
    fn add(&mut self, chunk: Chunk) -> Result<(), OutOfMemory>
        ensures { OnOk result (self.new ≡ kept_chunk self.old chunk) }
    {
        if chunk.input == 0 {
            self.pass()
        } else {
            self.put_kind(chunk.kind)
        }
    }

    /// The numbers of the functions, by input and index.
    pub fn functions(&self) -> &[u32]
        ensures { result.now ≡ self.now.functions }
    {
        self.functions.as_slice()
    }

    /// The numbers of the segments, by input and index.
    pub fn segments(&self) -> &[u32]
        ensures { result.now ≡ self.now.segments }
    {
        self.segments.as_slice()
    }

    /// The numbers of the globals, by input and index.
    pub fn globals(&self) -> &[u32]
        ensures { result.now ≡ self.now.globals }
    {
        self.globals.as_slice()
    }

    /// The place of the part of a number among those of its kind, or 0.
    #[tactic(auto, using(link_program::proofs::ReadAt::read))]
    pub fn place(&self, part: u32) -> u32
        ensures { result ≡ slice_index_or self.now.places part 0 }
    {
        match self.places.as_slice().get(part as usize) {
            Some(place) => *place,
            None => 0,
        }
    }
}

/// The kept parts of objects among these.
fn kept_in(alloc: Global, parts: &[Part]) -> Result<Kept, OutOfMemory>
    ensures { IfOk result (λ k. k ≡ kept_parts parts.now) }
{
    let mut kept = Kept::new(alloc);
    for part in parts {
        kept.add(part.chunk)?;
    }
    Ok(kept)
}

/// The kept parts of the objects of a program.
pub fn kept_of(alloc: Global, program: Program<'_>) -> Result<Kept, OutOfMemory>
    ensures { IfOk result (λ k. (p : Rules) → IsProgramOf Plain program.entry p → AreKept p k) }
{
    let kept = kept_in(alloc, program.tables.parts.as_slice())?;
    Ok(kept)
}

/// The place of a part of an object among those of its kind, by the chunks of all parts.
pub fn place_in(chunks: &ChunkTable, kept: &Kept, chunk: Chunk) -> u32
    ensures { result ≡ place_in kept.now chunks.now chunk }
{
    if chunk.input == 0 {
        return 0;
    }
    match chunk_number(chunks, chunk) {
        Some(part) => kept.place(part),
        None => 0,
    }
}

/// The place of a function, a segment or a global of an object among those of its kind, or 0. `chunks` has the chunks of all parts.
pub fn place_of(chunks: &ChunkTable, kept: &Kept, chunk: Chunk) -> u32
    requires { chunk.kind < 3 }
    ensures { (p : Rules) → chunks.now ≡ map (λ part. part.chunk) p.parts → AreKept p kept.now → result ≡ partial.place_of p chunk.kind chunk }
{
    let place = place_in(chunks, kept, chunk);
    place
}
