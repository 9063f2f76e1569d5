//! The subsections, and the whole of the section.
ghost use Rattle.std.specs.Prelude.{◌≡◌, length, Ok, IfOk};
ghost use Rattle.wasm_grammar.specs.Fault.{Reads, Gives};
ghost use Rattle.linking_section.specs.Fault.{Tells};
ghost use Rattle.linking_section.specs.Linking.{SpellsLinking};
ghost use Rattle.linking_section.specs.Reading.{none_found, came, with_part, first_time, subsection_at, subsections_at, list_of, linking_of, versioned, linking_at};
ghost use Rattle.linking_section.specs.declared.linking.Linking.{Linking};

use crate::fault::LinkingFault;
use crate::linking::{Found, Linking};
use std::alloc::Global;
use wasm_grammar::{ReadFault, Stop, byte_at, part_at, place, u32_at, whole};
use wl_base::{Item, Seq};

/// The version of the section that is linked.
const VERSION: u32 = 2;

/// The type of the subsection on data segments.
const SEGMENT_INFO: u8 = 5;

/// The type of the subsection on functions that run at the start.
const INIT_FUNCS: u8 = 6;

/// The type of the subsection on groups.
const COMDAT_INFO: u8 = 7;

/// The type of the subsection on symbols.
const SYMBOL_TABLE: u8 = 8;

impl Found {
    /// Before the first subsection.
    fn new() -> Found
        ensures { result ≡ none_found }
    {
        Found {
            segments: None,
            inits: None,
            groups: None,
            symbols: None,
        }
    }

    /// Whether a subsection of this type came before.
    fn came(&self, kind: u8) -> bool
        ensures { result ≡ came kind self.now }
    {
        match kind {
            SEGMENT_INFO => self.segments.is_some(),
            INIT_FUNCS => self.inits.is_some(),
            COMDAT_INFO => self.groups.is_some(),
            SYMBOL_TABLE => self.symbols.is_some(),
            _ => false,
        }
    }

    /// Nothing, where no subsection of this type came before. Else its type, at this place, is
    /// broken.
    fn first_time(&self, place: usize, kind: u8) -> Result<(), Stop>
        ensures { result ≡ first_time place kind self.now }
    {
        if self.came(kind) {
            Err(Stop::Broken(place))
        } else {
            Ok(())
        }
    }

    /// What was found, and what the payload of a subsection of this type says.
    fn with_part(
        self,
        alloc: Global,
        kind: u8,
        end: usize,
        payload: &[u8],
    ) -> Result<Found, ReadFault>
        ensures { Gives (λ x. x) result (with_part kind self end payload.now) }
    {
        match kind {
            SEGMENT_INFO => {
                let segments = Some(whole(alloc, end, payload)?);
                Ok(Found { segments, ..self })
            }
            INIT_FUNCS => {
                let inits = Some(whole(alloc, end, payload)?);
                Ok(Found { inits, ..self })
            }
            COMDAT_INFO => {
                let groups = Some(whole(alloc, end, payload)?);
                Ok(Found { groups, ..self })
            }
            SYMBOL_TABLE => {
                let symbols = Some(whole(alloc, end, payload)?);
                Ok(Found { symbols, ..self })
            }
            _ => Ok(self),
        }
    }

    /// The lists that were found. Others are empty.
    fn into_linking(self, alloc: Global) -> Linking
        ensures { result ≡ linking_of self }
    {
        Linking {
            segments: list_of(alloc, self.segments),
            inits: list_of(alloc, self.inits),
            groups: list_of(alloc, self.groups),
            symbols: list_of(alloc, self.symbols),
        }
    }
}

/// The list, or the empty one.
fn list_of<T: Drop>(alloc: Global, list: Option<Seq<T>>) -> Seq<T>
    ensures { result ≡ list_of list }
{
    match list {
        Some(list) => list,
        None => Seq::new(alloc),
    }
}

/// What was found with the subsection at the front, and the bytes after it.
#[tactic(auto, unfolding(crate::specs::Reading::subsection_at))]
fn subsection_at(
    alloc: Global,
    found: Found,
    end: usize,
    bytes: &[u8],
) -> Result<(Found, &[u8]), ReadFault>
    ensures { Gives (λ x. (x.0, x.1.now)) result (subsection_at found end bytes.now) }
{
    let (kind, rest) = byte_at(end, bytes)?;
    found.first_time(place(end, bytes), kind)?;
    let (part, rest) = part_at(end, rest)?;
    let next = found.with_part(alloc, kind, place(end, rest), part)?;
    Ok((next, rest))
}

/// What is found in the subsections of all the bytes.
fn subsections_at(alloc: Global, end: usize, bytes: &[u8]) -> Result<Found, ReadFault>
    ensures { Gives (λ x. x) result (subsections_at (length bytes.now) none_found end bytes.now) }
{
    let mut found = Found::new();
    let mut rest = bytes;
    while rest.len() > 0 {
        let (next, after) = subsection_at(alloc, found, end, rest)?;
        found = next;
        rest = after;
    }
    Ok(found)
}

/// The bytes behind the version. One that isn't linked is foreign.
fn versioned(version: u32, rest: &[u8]) -> Result<&[u8], Stop>
    ensures { Reads (λ x. x.now) result (versioned version rest.now) }
{
    if version == VERSION {
        Ok(rest)
    } else {
        Err(Stop::Foreign(Item::LinkingVersion(version)))
    }
}

/// A payload, what follows the section's name, of bytes that reach to this end. It is all of the
/// bytes.
#[tactic(auto, unfolding(crate::specs::Reading::linking_at))]
pub fn linking_at(alloc: Global, end: usize, bytes: &[u8]) -> Result<Linking, ReadFault>
    ensures { Gives (λ x. x) result (linking_at end bytes.now) }
{
    let (version, rest) = u32_at(end, bytes)?;
    let rest = versioned(version, rest)?;
    let found = subsections_at(alloc, end, rest)?;
    Ok(found.into_linking(alloc))
}

/// Reads a payload, what follows the section's name (Linking.md, 'Linking Metadata Section').
///
/// An item that isn't linked is answered by `Foreign`, as soon as the bytes tell it. What is outside
/// the grammar is answered by `NotLinking`: also a second subsection of a type that comes once, and
/// bytes that are left over in a subsection.
pub fn read(alloc: Global, payload: &[u8]) -> Result<Linking, LinkingFault>
    // What is read is spelled so.
    ensures found { IfOk result (λ l. SpellsLinking l payload.now) }
    // What is spelled so is read, unless memory runs out.
    ensures only { (l : Linking) → SpellsLinking l payload.now → Tells result (Ok l) }
    // Which fault it is: the first from the left.
    ensures exact { Tells result (linking_at (length payload.now) payload.now) }
{
    Ok(linking_at(alloc, payload.len(), payload)?)
}
