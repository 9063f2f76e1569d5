//! The objects of the words are read by several threads.
ghost use Rattle.std.specs.Prelude.{◌≡◌, ◌≤◌, ◌<◌, ◌^◌, ◌-◌, ℕ, List, IfOk, Some, length, slice_get, min};
ghost use Rattle.link_inputs.specs.declared.numbering.ObjectFile.{ObjectFile as WordObject};
ghost use Rattle.link_program.specs.object_file.ObjectOf.{object_of};
ghost use Rattle.link_inputs.specs.Parts.{first_of};
ghost use Rattle.link_inputs.specs.Reading.{Reads, given_by, given_of, given_from, AreRead, FitIn};

use crate::limits::total_len;
use crate::numbering::ObjectFile;
use crate::parts::{first_of, parts_of};
use lib_rounds::GivenObject;
use object_file::{ObjectError, read_object};
use std::alloc::Global;
use std::thread::Threads;
use wl_base::{Fault, InputId, OutOfMemory, Seq};
use wl_fan::{Slices, each_slice};
use wl_outside::{Gate, Phase};

/// Why an object of the words isn't read.
#[derive(Debug, PartialEq, Eq, Drop)]
pub enum ReadError {
    /// The input's bytes are no object: their first fault.
    Refused { input: InputId, fault: Fault },
    /// Memory was refused.
    OutOfMemory,
}

impl From<OutOfMemory> for ReadError {
    ghost use Rattle.std.specs.Prelude.{◌≡◌};
    ghost use Rattle.link_inputs.specs.declared.reading.ReadError.TheVariants.{OutOfMemory as WantOfMemory};

    ghost from_gives = { λ _ e. e ≡ WantOfMemory };

    fn from(_: OutOfMemory) -> Self {
        ReadError::OutOfMemory
    }
}

/// What a worker leaves for an object.
pub type Slot = Result<GivenObject, ReadError>;

/// Reads an object of these bytes, as an input of this number.
fn read_one(alloc: Global, bytes: &[u8], input: InputId, lazy: bool) -> Slot
    ensures { Reads result (given_by input lazy (object_of input bytes.now)) }
{
    match read_object(alloc, input, bytes) {
        Ok(object) => Ok(GivenObject::of(alloc, object, lazy)?),
        Err(ObjectError::Refused(fault)) => Err(ReadError::Refused { input, fault }),
        Err(ObjectError::OutOfMemory) => Err(ReadError::OutOfMemory),
    }
}

/// The objects that are read, in so many parts.
#[derive(Clone, Copy)]
pub struct Reading<'a> {
    pub alloc: Global,
    pub files: &'a [Seq<u8>],
    pub objects: &'a [ObjectFile],
    pub parts: u32,
    ghost fit: { FitIn files.now objects.now },
    ghost some: { 1 ≤ parts },
    ghost small: { length objects.now < 2 ^ 64 },
}

impl Reading<'_> {
    /// The first object of a part.
    fn first(&self, part: u32) -> usize
        ensures is { result ≡ first_of (length self.now.objects.now) self.now.parts part }
        ensures within { result ≤ length self.now.objects.now }
    {
        first_of(self.objects.len(), self.parts, part)
    }

    /// Reads an object.
    fn read(&self, object: &ObjectFile) -> Slot
        requires { object.now.file < length self.now.files.now }
        ensures { Reads result (given_of self.now.files.now object.now) }
    {
        let bytes = self.files[object.file as usize].as_slice();
        read_one(self.alloc, bytes, object.input, object.lazy)
    }
}

/// The same with a gate, which each worker passes before each object.
#[derive(Drop)]
pub struct Reader<'a, 'b, G: Gate> {
    pub reading: Reading<'a>,
    pub gate: &'b G,
}

impl<G: Gate> Slices<Slot> for Reader<'_, '_, G> {
    ghost use Rattle.std.specs.Prelude.{◌+◌, length, slice_range};
    ghost use Rattle.link_inputs.specs.Parts.{first_of};
    ghost use Rattle.link_inputs.specs.PartLaws.{first_rises};
    ghost use Rattle.link_inputs.specs.Reading.{AreRead};

    ghost begins = { λ s part. first_of (length s.reading.objects.now) s.reading.parts part };

    ghost worked = { λ s part old new. AreRead s.reading.files.now (slice_range s.reading.objects.now (first_of (length s.reading.objects.now) s.reading.parts part) (first_of (length s.reading.objects.now) s.reading.parts (part + 1))) new };

    ghost rises = { λ s p q le below. first_rises (length s.reading.objects.now) s.reading.parts p q le };

    fn cut(&self, part: u32) -> usize {
        self.reading.first(part)
    }

    fn work(&self, part: u32, items: &mut [Slot]) {
        let from = self.reading.first(part);
        for at in 0..items.len() {
            self.gate.turn(Phase::Read, part, job_of(from + at));
            items[at] = self.reading.read(&self.reading.objects[from + at]);
        }
    }
}

// The place of an object as the number of a job, which has 32 bits.
fn job_of(place: usize) -> u32
    ensures { result ≡ min place (2 ^ 32 - 1) }
{
    place.min(u32::MAX as usize) as u32
}

/// So many slots of objects that aren't read.
fn empty_slots(alloc: Global, count: usize) -> Result<Vec<Slot>, OutOfMemory>
    ensures { IfOk result (λ slots. length slots.items ≡ count) }
{
    let mut slots = Vec::with_capacity(alloc, count)?;
    for _at in 0..count {
        slots.push(Err(ReadError::OutOfMemory))?;
    }
    Ok(slots)
}

/// Reads the objects into slots, in their order.
fn read_into<R: Threads + Sync, G: Gate>(rt: &R, reading: Reading<'_>, slots: &mut [Slot], gate: &G)
    requires { length slots.old ≡ length reading.objects.now }
    ensures { AreRead reading.entry.files.now reading.entry.objects.now slots.new }
{
    let parts = reading.parts;
    let reader = Reader { reading, gate };
    each_slice(rt, &reader, slots, 0, parts);
}

/// Reads the objects into new slots.
fn read_slots<R: Threads + Sync, G: Gate>(
    rt: &R,
    alloc: Global,
    files: &[Seq<u8>],
    objects: &[ObjectFile],
    workers: u32,
    gate: &G,
) -> Result<Vec<Slot>, OutOfMemory>
    requires fit { FitIn files.now objects.now }
    requires workers { (1 ≤ workers) × (workers ≤ 64) }
    ensures { IfOk result (λ slots. AreRead files.now objects.now slots.items) }
{
    let mut slots = empty_slots(alloc, objects.len())?;
    let parts = parts_of(total_len(files), objects.len(), workers);
    let reading = Reading {
        alloc,
        files,
        objects,
        parts,
    };
    read_into(rt, reading, slots.as_mut_slice(), gate);
    Ok(slots)
}

/// The objects in the slots, or the first that is none.
fn take_given(alloc: Global, slots: Vec<Slot>) -> Result<Seq<GivenObject>, ReadError>
    ensures { (files : List (List ℕ)) (objects : List WordObject) → AreRead files objects slots.items → Reads result (given_from files objects) }
{
    let mut given = Seq::new(alloc);
    let mut left = slots.into_iter();
    while let Some(slot) = left.next() {
        given.push(slot?)?;
    }
    Ok(given)
}

/// Reads the objects of the words, lazy ones too, and answers them in their order; or why the first
/// is none that isn't one. The objects are divided among the workers, who pass the gate before each;
/// the job is its place among these objects.
pub fn read_given<R: Threads + Sync, G: Gate>(
    rt: &R,
    alloc: Global,
    files: &[Seq<u8>],
    objects: &[ObjectFile],
    workers: u32,
    gate: &G,
) -> Result<Seq<GivenObject>, ReadError>
    requires fit { FitIn files.now objects.now }
    requires workers { (1 ≤ workers) × (workers ≤ 64) }
    ensures { Reads result (given_from files.now objects.now) }
{
    let slots = read_slots(rt, alloc, files, objects, workers, gate)?;
    take_given(alloc, slots)
}
