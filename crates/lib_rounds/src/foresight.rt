//! Members that the rounds will probably ask for are read before, by several threads: a round knows
//! only what the one before it needs, and a chain of members has a round for each. What is foreseen begins
//! with the members of whole libraries, before all, and with what the first round adds, once that is known.
//!
//! What is foreseen is a guess by names. It changes no answer: a member that is read in vain is given
//! back, and its faults aren't told.

use crate::adds::Adds;
use crate::early::Early;
use crate::frontier::{Offered, offer_for, offers_by};
use crate::needs::Needs;
use crate::offer::{Inputs, Offer};
use crate::reading::read_all;
use round_rules::LibraryFile;
use std::thread::Threads;
use wl_base::{InputId, OutOfMemory};
use wl_fan::Workers;

/// What fewer members seem to need is looked for by the caller's thread alone.
const LEAST_SHARED: usize = 512;

/// The members that are foreseen.
#[derive(Drop)]
struct Foreseen<'a> {
    members: Vec<Early<'a>>,
    /// Whether an input is among them, from input 0 on.
    has: Vec<bool>,
}

/// Whether all members of a library are loaded.
fn is_any_whole(libraries: &[LibraryFile]) -> bool {
    libraries.iter().any(|library| library.whole)
}

/// One more than the last input that is a member.
fn end_of(libraries: &[LibraryFile]) -> usize {
    let mut end = 0;
    for at in 0..libraries.len() {
        let library = &libraries[at];
        end = end.max(u64::from(library.first) + u64::from(library.library.count()));
    }
    end as usize
}

/// The bytes of a member.
fn bytes_of<'a>(inputs: Inputs<'a>, library: &LibraryFile, member: u32) -> Option<&'a [u8]> {
    if member >= library.library.count() {
        return None;
    }
    let span = library.library.member(member);
    let file = inputs.files.get(library.file as usize)?;
    let from = file.as_slice().get(span.start as usize..)?;
    from.get(..span.len as usize)
}

impl<'a> Foreseen<'a> {
    /// No member, with room for so many.
    fn with_room(inputs: Inputs<'a>, members: usize) -> Result<Self, OutOfMemory> {
        Ok(Foreseen {
            members: Vec::with_capacity(inputs.alloc, members)?,
            has: vec![in inputs.alloc; false; end_of(inputs.libraries)]?,
        })
    }

    /// Adds a member that isn't among them.
    fn add(
        &mut self,
        inputs: Inputs<'a>,
        library: &LibraryFile,
        member: u32,
    ) -> Result<(), OutOfMemory> {
        let input = library.first.saturating_add(member);
        let at = input as usize;
        if at >= self.has.len() || self.has[at] {
            return Ok(());
        }
        if let Some(bytes) = bytes_of(inputs, library, member) {
            self.has[at] = true;
            self.members.push(Early::unread(input, bytes))?;
        }
        Ok(())
    }

    /// Adds a member that is offered. Those of whole libraries are loaded already.
    fn add_offered(&mut self, inputs: Inputs<'a>, offered: Offered) -> Result<(), OutOfMemory> {
        match inputs.libraries.get(offered.library) {
            Some(library) if !library.whole => self.add(inputs, library, offered.member),
            _ => Ok(()),
        }
    }

    /// Adds members that are offered.
    fn add_all_offered(
        &mut self,
        inputs: Inputs<'a>,
        offers: &[Offered],
    ) -> Result<(), OutOfMemory> {
        for at in 0..offers.len() {
            self.add_offered(inputs, offers[at])?;
        }
        Ok(())
    }

    /// Adds the member of the first library that offers the name.
    fn look(&mut self, inputs: Inputs<'a>, name: &[u8]) -> Result<(), OutOfMemory> {
        match offer_for(inputs, name) {
            Some(offered) => self.add_offered(inputs, offered),
            None => Ok(()),
        }
    }

    /// Adds the member that a round adds, if it is one.
    fn add_wanted(&mut self, inputs: Inputs<'a>, offer: Offer) -> Result<(), OutOfMemory> {
        match inputs.libraries.get(offer.library) {
            Some(library) if library.first.saturating_add(offer.member) == offer.input => self.add(
                inputs,
                library,
                offer.member,
            ),
            _ => Ok(()),
        }
    }

    /// Adds the members that a round adds.
    fn add_all_wanted(&mut self, inputs: Inputs<'a>, adds: &Adds) -> Result<(), OutOfMemory> {
        for (_, wanted) in adds {
            self.add_wanted(inputs, wanted.offer)?;
        }
        Ok(())
    }

    /// Adds the members of a library.
    fn add_members(
        &mut self,
        inputs: Inputs<'a>,
        library: &LibraryFile,
    ) -> Result<(), OutOfMemory> {
        for member in 0..library.library.count() {
            self.add(inputs, library, member)?;
        }
        Ok(())
    }

    /// Adds the members of whole libraries.
    fn add_whole(&mut self, inputs: Inputs<'a>) -> Result<(), OutOfMemory> {
        for at in 0..inputs.libraries.len() {
            if inputs.libraries[at].whole {
                self.add_members(inputs, &inputs.libraries[at])?;
            }
        }
        Ok(())
    }

    /// Looks at the names that a member seems to need.
    fn look_member(&mut self, inputs: Inputs<'a>, bytes: &'a [u8]) -> Result<(), OutOfMemory> {
        let mut needs = Needs::of(bytes);
        for _ in 0..bytes.len() {
            let Some(name) = needs.next() else {
                return Ok(());
            };
            if !name.is_empty() {
                self.look(inputs, name)?;
            }
        }
        Ok(())
    }

    /// Looks at what the members of some places seem to need.
    fn look_in_turn(
        &mut self,
        inputs: Inputs<'a>,
        from: usize,
        to: usize,
    ) -> Result<(), OutOfMemory> {
        for at in from..to {
            if at >= self.members.len() {
                return Ok(());
            }
            let bytes = self.members[at].bytes();
            self.look_member(inputs, bytes)?;
        }
        Ok(())
    }

    /// Looks at what the members from a place on seem to need, by the workers.
    fn look_shared<R: Threads + Sync>(
        &mut self,
        rt: &R,
        inputs: Inputs<'a>,
        from: usize,
        workers: Workers,
    ) -> Result<(), OutOfMemory> {
        let Some(members) = self.members.as_slice().get(from..) else {
            return Ok(());
        };
        let found = offers_by(rt, inputs, members, workers)?;
        for at in 0..found.len() {
            self.add_all_offered(inputs, found[at].as_slice())?;
        }
        Ok(())
    }

    /// Looks at what the members seem to need, and those that are added so, up to the last.
    fn look_members<R: Threads + Sync>(
        &mut self,
        rt: &R,
        inputs: Inputs<'a>,
        workers: Workers,
    ) -> Result<(), OutOfMemory> {
        let mut from = 0;
        for _ in 0..self.has.len() {
            let to = self.members.len();
            if to <= from {
                return Ok(());
            }
            if to - from < LEAST_SHARED {
                self.look_in_turn(inputs, from, to)?;
            } else {
                self.look_shared(rt, inputs, from, workers)?;
            }
            from = to;
        }
        Ok(())
    }
}

/// How many names the members define that are read.
pub fn count_defined(members: &[Early<'_>]) -> usize {
    let mut count: usize = 0;
    for at in 0..members.len() {
        count = count.saturating_add(members[at].defined() as usize);
    }
    count
}

/// Reads the members of whole libraries, where there are several workers.
pub fn read_whole<'a, R: Threads + Sync>(
    rt: &R,
    inputs: Inputs<'a>,
    workers: Workers,
) -> Result<Vec<Early<'a>>, OutOfMemory> {
    if workers.count() < 2 || !is_any_whole(inputs.libraries) {
        return Ok(Vec::new(inputs.alloc));
    }
    let mut foreseen = Foreseen::with_room(inputs, 0)?;
    foreseen.add_whole(inputs)?;
    let mut members = foreseen.members;
    read_all(rt, inputs.alloc, members.as_mut_slice(), workers);
    Ok(members)
}

/// Reads the members that the rounds will probably ask for, where there are several workers and the first round adds any.
pub fn read_wanted<'a, R: Threads + Sync>(
    rt: &R,
    inputs: Inputs<'a>,
    adds: &Adds,
    workers: Workers,
) -> Result<Vec<Early<'a>>, OutOfMemory> {
    if workers.count() < 2 || adds.len() == 0 {
        return Ok(Vec::new(inputs.alloc));
    }
    let mut foreseen = Foreseen::with_room(inputs, adds.len())?;
    foreseen.add_all_wanted(inputs, adds)?;
    foreseen.look_members(rt, inputs, workers)?;
    let mut members = foreseen.members;
    read_all(rt, inputs.alloc, members.as_mut_slice(), workers);
    Ok(members)
}
