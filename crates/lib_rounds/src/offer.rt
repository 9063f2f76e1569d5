//! Who offers a name.
ghost use Rattle.std.specs.Prelude.{◌≡◌, ◌<◌, ◌+◌, ◌-◌, ◌^◌, ◌⊎◌, ℕ, List, length, option_map, IfSome, All, slice_get, Some};
ghost use Rattle.std.specs.Map.{lookup};
ghost use Rattle.std.specs.Str.{bytes_eq};
ghost use Rattle.lib_index.specs.Table.{shown};
ghost use Rattle.round_rules.specs.Rounds.{Candidate, offering};
ghost use Rattle.lib_rounds.specs.Offers.{library_offer, lesser};
ghost use Rattle.lib_rounds.specs.State.{IsOffer, Knows};

use crate::table::{Table, input_of};
use round_rules::LibraryFile;
use std::alloc::Global;
use wl_base::{InputId, Seq};

/// What is lent to every part of the rounds.
#[derive(Clone, Copy)]
pub struct Inputs<'a> {
    pub alloc: Global,
    pub libraries: &'a [LibraryFile],
    pub files: &'a [Seq<u8>],
}

/// An input that offers a name: a lazy object, or the member of a library.
#[derive(Clone, Copy)]
pub struct Offer {
    pub input: InputId,
    /// The place of the library among the libraries; 0 for an object.
    pub library: usize,
    /// The number of the member; 0 for an object.
    pub member: u32,
}

/// The member of the first library that offers the name.
fn library_offer(libraries: &[LibraryFile], name: &[u8]) -> Option<Offer>
    requires { All (λ l. (k : ℕ) → k < length l.library.members → l.first + k < 2 ^ 20) libraries.now }
    ensures input { option_map (λ o. o.input) result ≡ library_offer libraries.now name.now }
    ensures from { IfSome result (λ o. (l : _) × (slice_get libraries.now o.library ≡ Some l) × (o.member < length l.library.members) × (o.input ≡ l.first + o.member)) }
{
    for at in 0..libraries.len() {
        let library = &libraries[at];
        if let Some(member) = library.library.offers(name) {
            return Some(Offer {
                input: library.first + member,
                library: at,
                member,
            });
        }
    }
    None
}

/// The lesser of a lazy object and a member.
fn lesser(lazy: Option<InputId>, member: Option<Offer>) -> Option<Offer>
    ensures input { option_map (λ o. o.input) result ≡ lesser lazy (option_map (λ o. o.input) member) }
    ensures from { IfSome result (λ o. (member ≡ Some o) ⊎ (lazy ≡ Some o.input)) }
{
    match (lazy, member) {
        (None, member) => member,
        (Some(input), Some(offer)) if offer.input < input => Some(offer),
        (Some(input), _) => Some(Offer {
            input,
            library: 0,
            member: 0,
        }),
    }
}

/// The least input that offers the name.
pub fn offer_of(inputs: Inputs<'_>, lazies: &Table, name: &[u8]) -> Option<Offer>
    ghost all: { List Candidate }
    requires { Knows all inputs.libraries.now inputs.files.now (shown lazies.now) }
    ensures input { option_map (λ o. o.input) result ≡ offering all name.now }
    ensures from { IfSome result (λ o. (c : Candidate) × (slice_get all (o.input - 1) ≡ Some c) × IsOffer inputs.entry.libraries.now inputs.entry.files.now o c) }
{
    lesser(
        input_of(lazies, name),
        library_offer(inputs.libraries, name),
    )
}
