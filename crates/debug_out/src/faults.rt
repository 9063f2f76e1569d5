//! The debug sections of the objects, or the first that is at fault.
ghost use Rattle.std.specs.Prelude.{◌≡◌, ℕ, List, [], length, map, option_map, filter, IfOk};
ghost use Rattle.image_emit.specs.Bytes.{file_part};
ghost use Rattle.debug_rules.specs.Sections.{is_debug};
ghost use Rattle.debug_rules.specs.Faults.{relocs_in, debug_places, debugs_from, debugs_of, debugs};
ghost use Rattle.debug_out.specs.Answers.{Tells, Puts, onto};
ghost use Rattle.debug_out.specs.Refs.{custom_seen, debug_seen, entries_of};
ghost use Rattle.debug_out.specs.Targets.{payloads_seen, HasPlaces, HasPayloads};
ghost use Rattle.debug_out.specs.Inputs.{input_of, inputs_of};

use crate::entries::payload_stands;
use crate::error::DebugError;
use crate::refs::{CustomRef, DebugRef, Payloads};
use crate::sections::{customs, is_debug, payload_of};
use crate::targets::{debug_table, payloads_at, relocs_table};
use object_file::{Object, Symbols};
use std::alloc::Global;
use wl_base::{Fault, FileSpan, Seq};

/// A payload that holds none.
#[tactic(auto, using(crate::proofs::Spelled::none_in_nothing))]
fn no_relocs<'a>() -> &'a [u8]
    ensures { entries_of result.now ≡ [] }
{
    &[]
}

/// What holds the relocations of a section of this length, where they stand; no bytes where there
/// are none. `debug` tells of each place whether a debug section stands there.
fn relocs_in<'a>(
    debug: &[bool],
    symbols: &Symbols,
    len: u64,
    found: Payloads<'a>,
) -> Option<&'a [u8]>
    ensures { (places : List ℕ) → HasPlaces debug.now places → option_map (λ p. entries_of p.now) result ≡ relocs_in places symbols.now len (payloads_seen found.entry) }
{
    match found {
        Payloads::Nothing => Some(no_relocs()),
        Payloads::One(payload) => {
            if payload_stands(debug, symbols, len, payload) {
                Some(payload)
            } else {
                None
            }
        }
        Payloads::More => None,
    }
}

/// Puts the debug sections of an object, the one at this place among the loaded ones, behind
/// others; or finds the first that is at fault. The tables tell of the sections by their places.
fn debugs_from<'a>(
    object: u32,
    o: &'a Object,
    debug: &[bool],
    relocs: &[Payloads<'a>],
    all: &[CustomRef<'a>],
    out: &mut Seq<DebugRef<'a>>,
) -> Result<(), DebugError>
    requires debug { HasPlaces debug.now (debug_places (map custom_seen all.now)) }
    requires relocs { HasPayloads relocs.now (map custom_seen all.now) }
    ensures { Puts result (map debug_seen out.new) (onto (map debug_seen out.old) (debugs_from object o.now.input o.now.symbols (debug_places (map custom_seen all.now)) (map custom_seen all.now) (filter is_debug (map custom_seen all.now)))) }
{
    for c in all {
        if is_debug(c) {
            let found = payloads_at(relocs, c.at)?;
            let len = c.content.len() as u64;
            let Some(relocs) = relocs_in(debug, &o.symbols, len, found) else {
                return Err(DebugError::Refused(Fault::BadDebug {
                    input: o.input,
                    section: c.at,
                }));
            };
            out.push(DebugRef {
                object,
                symbols: &o.symbols,
                at: c.at,
                name: c.name,
                content: c.content,
                relocs,
            })?;
        }
    }
    Ok(())
}

/// Puts the debug sections of an object behind others, or finds the first that is at fault.
#[tactic(auto, unfolding(debug_rules::specs::Faults::debugs_of))]
fn debugs_of<'a>(
    alloc: Global,
    object: u32,
    o: &'a Object,
    bytes: &'a [u8],
    out: &mut Seq<DebugRef<'a>>,
) -> Result<(), DebugError>
    ensures { Puts result (map debug_seen out.new) (onto (map debug_seen out.old) (debugs_of object (input_of bytes.now o.now))) }
{
    let all = customs(alloc, bytes)?;
    let debug = debug_table(alloc, all.as_slice())?;
    let relocs = relocs_table(alloc, all.as_slice())?;
    debugs_from(
        object,
        o,
        debug.as_slice(),
        relocs.as_slice(),
        all.as_slice(),
        out,
    )
}

/// The bytes of a part of a file, fewer where the file ends before.
pub fn bytes_in(files: &[Seq<u8>], s: FileSpan) -> &[u8]
    ensures { result.now ≡ file_part files.now s }
{
    match files.get(s.file as usize) {
        Some(file) => payload_of(file.as_slice(), s.span),
        None => &[],
    }
}

/// The debug sections of all objects, or the first that is at fault.
pub fn debugs<'a>(
    alloc: Global,
    objects: &'a [Object],
    files: &'a [Seq<u8>],
    spans: &[FileSpan],
) -> Result<Seq<DebugRef<'a>>, DebugError>
    ensures { Tells debug_seen result (debugs 0 (inputs_of files.now objects.now spans.now)) }
{
    let mut all = Seq::new(alloc);
    let mut os = objects;
    let mut ss = spans;
    let mut object = 0u32;
    while let [o, others @ ..] = os {
        let [s, more @ ..] = ss else {
            return Ok(all);
        };
        debugs_of(alloc, object, o, bytes_in(files, *s), &mut all)?;
        let Some(next) = object.checked_add(1) else {
            return Err(DebugError::OutOfMemory);
        };
        object = next;
        os = others;
        ss = more;
    }
    Ok(all)
}
