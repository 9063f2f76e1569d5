//! Links of objects whose debug sections are joined, by one thread and by workers.

use debug_out::{DebugError, DebugPlaces, join_debug, join_debug_by};
use object_file::{Object, ObjectError, read_object};
use std::alloc::Global;
use std::thread::Threads;
use wl_base::{Fault, FileSpan, OutOfMemory, Seq, Span};
use wl_fan::Workers;

/// What is linked: the objects, where the symbols of each are, and how long the output is. The two
/// lists of places are those of every object, the second one for all but functions' bodies.
#[derive(Clone, Copy)]
pub struct Link<'a> {
    /// Each object by the parts of its bytes.
    pub objects: &'a [&'a [&'a [u8]]],
    /// How many bytes of other things stand before an object in its file.
    pub before: usize,
    /// How many of an object's last bytes aren't looked at when it is read.
    pub unread: usize,
    pub bodies: &'a [Option<u32>],
    pub others: &'a [Option<u32>],
    pub length: u64,
}

/// A link of these objects behind an output of 65 bytes, whose first function stands at 2 and the
/// second at 11.
pub fn link_of<'a>(objects: &'a [&'a [&'a [u8]]], bodies: &'a [Option<u32>]) -> Link<'a> {
    Link {
        objects,
        before: 0,
        unread: 0,
        bodies,
        others: &[],
        length: 65,
    }
}

/// Bytes of the program, which give a list of parts its lifetime.
pub fn fixed(bytes: &'static [u8]) -> &'static [u8] {
    bytes
}

/// What every object here begins with: a type, two functions and their bodies, which are three
/// sections.
pub fn front<'a>() -> &'a [u8] {
    b"\0asm\x01\0\0\0\x01\x04\x01\x60\0\0\x03\x03\x02\0\0\x0a\x07\x02\x02\0\x0b\x02\0\x0b".as_slice()
}

/// A section `.debug_x` of eight zeros.
pub fn debug_x<'a>() -> &'a [u8] {
    b"\0\x11\x08.debug_x\0\0\0\0\0\0\0\0".as_slice()
}

/// The symbols: both functions, and section 3.
pub fn symbols<'a>() -> &'a [u8] {
    b"\0\x19\x07linking\x02\x08\x0e\x03\0\0\0\x01f\0\0\x01\x01g\x03\x02\x03".as_slice()
}

/// The parts one behind the other, behind so many other bytes.
fn file_of(alloc: Global, before: usize, parts: &[&[u8]]) -> Result<Seq<u8>, OutOfMemory> {
    let mut file = Seq::from_vec(vec![in alloc; 0x21; before]?);
    for part in parts {
        file.extend_from_slice(part)?;
    }
    Ok(file)
}

/// The parts one behind the other.
pub fn parts_of(alloc: Global, parts: &[&[u8]]) -> Result<Seq<u8>, OutOfMemory> {
    file_of(alloc, 0, parts)
}

fn files_of(alloc: Global, before: usize, all: &[&[&[u8]]]) -> Result<Seq<Seq<u8>>, OutOfMemory> {
    let mut files = Seq::new(alloc);
    for parts in all {
        files.push(file_of(alloc, before, parts)?)?;
    }
    Ok(files)
}

fn object_of(alloc: Global, input: u32, bytes: &[u8]) -> Result<Object, OutOfMemory> {
    match read_object(alloc, input, bytes) {
        Ok(object) => Ok(object),
        Err(ObjectError::Refused(_) | ObjectError::OutOfMemory) => Err(OutOfMemory),
    }
}

/// The bytes of a file behind so many.
fn behind(file: &Seq<u8>, before: usize) -> &[u8] {
    let bytes = file.as_slice();
    &bytes[before.min(bytes.len())..]
}

/// The bytes that are looked at when an object is read.
fn read_of<'a>(l: Link<'_>, file: &'a Seq<u8>) -> &'a [u8] {
    let bytes = behind(file, l.before);
    &bytes[..bytes.len().saturating_sub(l.unread)]
}

fn objects_of(alloc: Global, l: Link<'_>, files: &[Seq<u8>]) -> Result<Seq<Object>, OutOfMemory> {
    let mut objects = Seq::new(alloc);
    for file in files {
        let input = (objects.len() % 1000) as u32 + 1;
        objects.push(object_of(alloc, input, read_of(l, file))?)?;
    }
    Ok(objects)
}

fn spans_of(alloc: Global, before: usize, files: &[Seq<u8>]) -> Result<Seq<FileSpan>, OutOfMemory> {
    let mut spans = Seq::new(alloc);
    for file in files {
        let span = Span {
            start: before as u64,
            len: behind(file, before).len() as u64,
        };
        let file = (spans.len() % 1000) as u32;
        spans.push(FileSpan { file, span })?;
    }
    Ok(spans)
}

fn each(
    alloc: Global,
    objects: usize,
    places: &[Option<u32>],
) -> Result<Seq<Seq<Option<u32>>>, OutOfMemory> {
    let mut lists = Seq::new(alloc);
    for _ in 0..objects {
        lists.push(Seq::from_slice(alloc, places)?)?;
    }
    Ok(lists)
}

fn places_of(alloc: Global, l: Link<'_>, files: &[Seq<u8>]) -> Result<DebugPlaces, OutOfMemory> {
    let count = files.len();
    let inputs = spans_of(alloc, l.before, files)?;
    let bodies = each(alloc, count, l.bodies)?;
    let addresses = each(alloc, count, l.others)?;
    let slots = each(alloc, count, l.others)?;
    let globals = each(alloc, count, l.others)?;
    Ok(DebugPlaces {
        inputs,
        bodies,
        addresses,
        slots,
        globals,
        length: l.length,
    })
}

/// What a link is to answer.
#[derive(Clone, Copy)]
pub enum Wanted<'a> {
    /// These bytes come behind the output.
    Bytes(&'a [u8]),
    /// It is refused by this fault.
    Refused(&'a Fault),
}

fn are_bytes(bytes: &[u8], wanted: Wanted<'_>) -> bool {
    match wanted {
        Wanted::Bytes(others) => bytes == others,
        Wanted::Refused(_) => false,
    }
}

fn is_fault(fault: &Fault, wanted: Wanted<'_>) -> bool {
    match wanted {
        Wanted::Bytes(_) => false,
        Wanted::Refused(other) => *fault == *other,
    }
}

fn is_refused_so(error: DebugError, wanted: Wanted<'_>) -> bool {
    match error {
        DebugError::Refused(fault) => is_fault(&fault, wanted),
        DebugError::OutOfMemory => false,
    }
}

fn is_wanted(answer: Result<Seq<u8>, DebugError>, wanted: Wanted<'_>) -> bool {
    match answer {
        Ok(bytes) => are_bytes(bytes.as_slice(), wanted),
        Err(error) => is_refused_so(error, wanted),
    }
}

/// Whether so many workers answer this.
fn is_answered_by<R: Threads + Sync>(
    rt: &R,
    alloc: Global,
    objects: &[Object],
    files: &[Seq<u8>],
    places: &DebugPlaces,
    count: u32,
    wanted: Wanted<'_>,
) -> bool {
    let Some(workers) = Workers::new(count) else {
        return false;
    };
    let answer = join_debug_by(rt, alloc, objects, files, places, workers);
    is_wanted(answer, wanted)
}

/// Whether both calls answer this, whatever the number of workers.
fn is_answered<R: Threads + Sync>(
    rt: &R,
    alloc: Global,
    objects: &[Object],
    files: &[Seq<u8>],
    places: &DebugPlaces,
    wanted: Wanted<'_>,
) -> bool {
    is_wanted(join_debug(alloc, objects, files, places), wanted)
        && is_answered_by(rt, alloc, objects, files, places, 1, wanted)
        && is_answered_by(rt, alloc, objects, files, places, 4, wanted)
        && is_answered_by(rt, alloc, objects, files, places, 64, wanted)
}

fn answers_over<R: Threads + Sync>(
    rt: &R,
    alloc: Global,
    l: Link<'_>,
    files: &[Seq<u8>],
    wanted: Wanted<'_>,
) -> Result<bool, OutOfMemory> {
    let objects = objects_of(alloc, l, files)?;
    let places = places_of(alloc, l, files)?;
    let holds = is_answered(rt, alloc, objects.as_slice(), files, &places, wanted);
    Ok(holds)
}

fn answers<R: Threads + Sync>(
    rt: &R,
    alloc: Global,
    l: Link<'_>,
    wanted: Wanted<'_>,
) -> Result<bool, OutOfMemory> {
    let files = files_of(alloc, l.before, l.objects)?;
    let holds = answers_over(rt, alloc, l, files.as_slice(), wanted)?;
    Ok(holds)
}

/// Whether these bytes are what comes behind the output.
pub fn gives<R: Threads + Sync>(rt: &R, alloc: Global, l: Link<'_>, wanted: &[u8]) -> bool {
    match answers(rt, alloc, l, Wanted::Bytes(wanted)) {
        Ok(holds) => holds,
        Err(_) => false,
    }
}

/// Whether the link is refused by this fault.
pub fn is_refused<R: Threads + Sync>(rt: &R, alloc: Global, l: Link<'_>, wanted: &Fault) -> bool {
    match answers(rt, alloc, l, Wanted::Refused(wanted)) {
        Ok(holds) => holds,
        Err(_) => false,
    }
}
