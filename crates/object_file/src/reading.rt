//! Reading an object.
ghost use Rattle.std.specs.Prelude.{◌≡◌, ◌≤◌, ◌+◌, ◌^◌, length, All, Ok, IfOk};
ghost use Rattle.object_rules.specs.wasm_sections.Reading.{frame_at};
ghost use Rattle.object_rules.specs.object_parts.Reading.{parts_of};
ghost use Rattle.object_rules.specs.Rules.{broken_rule};
ghost use Rattle.object_file.specs.ObjectOf.{IsObject, section_fault, agreed, spelled_object, framed_object, object_of, Answers};
ghost use Rattle.object_file.specs.declared.object.Object.{Object as Read};

use crate::building::object_from;
use crate::object::Object;
use object_rules::{
    FrameFault, Parts, PartsFault, SectionSpan, SectionStop, Stop, broken_rule, frame, parts_of,
};
use std::alloc::Global;
use wl_base::{Fault, InputId, OutOfMemory, Part};

/// How many bytes an object has at most.
const MAX_LEN: usize = 1 << 30;

/// Why an object isn't answered.
#[derive(Debug, PartialEq, Eq, Drop)]
pub enum ObjectError {
    /// The bytes are no object: their first fault.
    Refused(Fault),
    /// Memory was refused. It says nothing of the bytes.
    OutOfMemory,
}

impl From<OutOfMemory> for ObjectError {
    ghost use Rattle.object_file.specs.declared.reading.ObjectError.TheVariants as errors;

    ghost from_gives = { λ _ e. e ≡ errors.OutOfMemory };

    fn from(_e: OutOfMemory) -> ObjectError {
        ObjectError::OutOfMemory
    }
}

/// The fault of a section that isn't spelled whole.
fn section_fault(input: InputId, stopped: SectionStop) -> Fault
    ensures { result ≡ section_fault input stopped.section stopped.stop }
{
    match stopped.stop {
        Stop::Broken(_) => Fault::Malformed {
            input,
            part: Part::Section(stopped.section),
        },
        Stop::Foreign(item) => Fault::Unsupported { input, item },
    }
}

/// The object of sections that are spelled, where they agree.
fn agreed(
    alloc: Global,
    input: InputId,
    bytes: &[u8],
    all: &[SectionSpan],
    parts: Parts,
) -> Result<Object, ObjectError>
    ensures { Answers result (agreed input all.now parts (broken_rule all.now bytes.now parts)) }
{
    match broken_rule(alloc, all, bytes, &parts)? {
        Some(rule) => Err(ObjectError::Refused(Fault::Malformed {
            input,
            part: Part::Cross(rule),
        })),
        None => {
            let object = object_from(alloc, input, all, parts)?;
            Ok(object)
        }
    }
}

/// The object of bytes that are cut into sections.
fn spelled_object(
    alloc: Global,
    input: InputId,
    bytes: &[u8],
    all: &[SectionSpan],
) -> Result<Object, ObjectError>
    requires lie { All (λ s. s.payload.start + s.payload.len ≤ length bytes.now) all.now }
    requires short { length bytes.now ≤ 2 ^ 30 }
    requires few { length all.now ≤ length bytes.now }
    ensures { Answers result (spelled_object input bytes.now all.now (parts_of all.now bytes.now)) }
{
    match parts_of(alloc, all, bytes) {
        Ok(parts) => agreed(alloc, input, bytes, all, parts),
        Err(PartsFault::Stopped(stopped)) => {
            Err(ObjectError::Refused(section_fault(input, stopped)))
        }
        Err(PartsFault::OutOfMemory) => Err(ObjectError::OutOfMemory),
    }
}

/// The object of bytes that aren't too many.
fn framed_object(alloc: Global, input: InputId, bytes: &[u8]) -> Result<Object, ObjectError>
    requires { length bytes.now ≤ 2 ^ 30 }
    ensures { Answers result (framed_object input bytes.now (frame_at bytes.now)) }
{
    match frame(alloc, bytes) {
        Ok(all) => spelled_object(alloc, input, bytes, all.as_slice()),
        Err(FrameFault::OutOfMemory) => Err(ObjectError::OutOfMemory),
        Err(_) => Err(ObjectError::Refused(Fault::Malformed {
            input,
            part: Part::Frame,
        })),
    }
}

/// The object that the bytes are.
#[tactic(auto, unfolding(crate::specs::ObjectOf::object_of))]
fn object_of(alloc: Global, input: InputId, bytes: &[u8]) -> Result<Object, ObjectError>
    ensures { Answers result (object_of input bytes.now) }
{
    if bytes.len() > MAX_LEN {
        return Err(ObjectError::Refused(Fault::TooLong {
            input,
            len: bytes.len() as u64,
        }));
    }
    framed_object(alloc, input, bytes)
}

/// The object that the bytes are, as an input of this number.
///
/// Where they are none the fault is the first of these: it is too long (over 2^30 bytes); it isn't
/// cut into sections; the first section in file order that isn't spelled whole, by the item that
/// isn't linked where that stands before any broken byte, and else by its place; the first rule that
/// the sections break.
pub fn read_object(alloc: Global, input: InputId, bytes: &[u8]) -> Result<Object, ObjectError>
    // What is read is an object.
    ensures found { IfOk result (λ object. IsObject input bytes.now object) }
    // An object is read, unless memory runs out.
    ensures only { (object : Read) → IsObject input bytes.now object → Answers result (Ok object) }
    // Which fault it is: the first.
    ensures exact { Answers result (object_of input bytes.now) }
{
    object_of(alloc, input, bytes)
}
