//! What is wrong with the items.
ghost use Rattle.std.specs.Prelude.{◌≡◌, None};
ghost use Rattle.link_words.specs.Faults.{first_fault as first_fault_of, group_fault as group_fault_of};

use crate::fields::{case, has, open_group, text};
use crate::item::Item;
use crate::kind::Kind;
use wl_base::Usage;

/// The first fault of the items, and of what ended them.
#[tactic(auto, unfolding(crate::specs::Faults::first_fault))]
pub fn first_fault(items: &[Item<'_>], stop: Option<Usage>) -> Option<Usage>
    ensures { result ≡ first_fault_of (items.now, stop) }
{
    if let Some(fault) = group_fault(items) {
        return Some(fault);
    }
    if let Some(fault) = stop {
        return Some(fault);
    }
    if let Some(at) = open_group(items) {
        return Some(Usage::OpenGroup { at });
    }
    let generated = case(items).is_some();
    let input = has(items, Kind::Input);
    if generated && input {
        return Some(Usage::CaseAndInput);
    }
    if !generated && !input {
        return Some(Usage::NoInput);
    }
    if !generated && text(items, Kind::Output).is_none() {
        return Some(Usage::NoOutput);
    }
    if (generated || has(items, Kind::Shared)) && has(items, Kind::Partial) {
        return Some(Usage::PartialClash);
    }
    None
}

// The first group that begins in a group, or ends outside one.
fn group_fault(items: &[Item<'_>]) -> Option<Usage>
    ensures { result ≡ group_fault_of None items.now }
{
    let mut within = None;
    for item in items {
        if item.kind().is(Kind::StartLib) {
            if within.is_some() {
                return Some(Usage::OpenGroup { at: item.at() });
            }
            within = Some(item.at());
        } else if item.kind().is(Kind::EndLib) {
            if within.is_none() {
                return Some(Usage::OpenGroup { at: item.at() });
            }
            within = None;
        }
    }
    None
}
