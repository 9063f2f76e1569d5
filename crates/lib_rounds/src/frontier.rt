//! Which members of libraries are offered for the names that other members seem to need: of many by several threads.

use crate::early::Early;
use crate::needs::Needs;
use crate::offer::Inputs;
use std::thread;
use std::thread::Threads;
use wl_base::OutOfMemory;
use wl_fan::Workers;

/// A member of one of the libraries, by their numbers.
#[derive(Clone, Copy)]
pub struct Offered {
    pub library: usize,
    pub member: u32,
}

/// The member of the first library that offers the name.
pub fn offer_for(inputs: Inputs<'_>, name: &[u8]) -> Option<Offered> {
    for library in 0..inputs.libraries.len() {
        if let Some(member) = inputs.libraries[library].library.offers(name) {
            return Some(Offered { library, member });
        }
    }
    None
}

/// Notes what is offered for the names that an object of these bytes seems to need.
fn note_offers(
    inputs: Inputs<'_>,
    bytes: &[u8],
    offers: &mut Vec<Offered>,
) -> Result<(), OutOfMemory> {
    let mut needs = Needs::of(bytes);
    for _ in 0..bytes.len() {
        let Some(name) = needs.next() else {
            return Ok(());
        };
        if !name.is_empty() {
            if let Some(offered) = offer_for(inputs, name) {
                offers.push(offered)?;
            }
        }
    }
    Ok(())
}

/// What is offered for the names that members seem to need, as far as there is memory for it.
fn offers_for(inputs: Inputs<'_>, members: &[Early<'_>]) -> Vec<Offered> {
    let mut offers = Vec::new(inputs.alloc);
    for at in 0..members.len() {
        if note_offers(inputs, members[at].bytes(), &mut offers).is_err() {
            return offers;
        }
    }
    offers
}

/// The same by several threads: a list for each part of the members.
pub fn offers_by<R: Threads + Sync>(
    rt: &R,
    inputs: Inputs<'_>,
    members: &[Early<'_>],
    workers: Workers,
) -> Result<Vec<Vec<Offered>>, OutOfMemory> {
    let size = members.len() / workers.count() as usize + 1;
    let lists = thread::map_chunks(
        rt,
        inputs.alloc,
        members,
        size,
        &|_, part: &[Early<'_>]| -> Vec<Offered> { offers_for(inputs, part) },
    )?;
    Ok(lists)
}
