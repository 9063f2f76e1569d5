//! Names that an index gives and an object doesn't define.
ghost use Rattle.std.specs.Prelude.{◌≡◌, not, filter, option_copied};
ghost use Rattle.lib_index.specs.Table.{shown};
ghost use Rattle.round_rules.specs.Rounds.{comes_before, lesser_name, least_name};
ghost use Rattle.lib_rounds.specs.State.{is_other};

use crate::adds::WantedNames;
use crate::table::{Table, input_of};
use wl_base::InputId;
use wl_lists::Lists;

/// Whether a name comes before another, by their bytes.
fn comes_before(a: &[u8], b: &[u8]) -> bool
    ensures { result ≡ comes_before a.now b.now }
{
    a.cmp(b).is_lt()
}

/// The lesser of two names, where there are two.
fn lesser_name<'a>(name: &'a [u8], least: Option<&'a [u8]>) -> Option<&'a [u8]>
    ensures { option_copied result ≡ lesser_name name.now (option_copied least.entry) }
{
    match least {
        Some(other) if comes_before(other, name) => Some(other),
        _ => Some(name),
    }
}

/// Whether the input of the name isn't this one.
fn is_other(definers: &Table, input: InputId, name: &[u8]) -> bool
    ensures { result ≡ is_other (shown definers.now) input name.now }
{
    match input_of(definers, name) {
        Some(k) => k != input,
        None => true,
    }
}

/// The least of the names whose input isn't this one.
fn least_in<'a>(definers: &Table, input: InputId, names: &'a Lists<u8>) -> Option<&'a [u8]>
    ensures { option_copied result ≡ least_name (filter (is_other (shown definers.now) input) names.now) }
{
    let mut least: Option<&[u8]> = None;
    for at in (0..names.len()).rev() {
        if let Some(name) = names.get(at) {
            if is_other(definers, input, name) {
                least = lesser_name(name, least);
            }
        }
    }
    least
}

/// The same, of the names for which an input is added.
pub fn least_lie<'a>(definers: &Table, input: InputId, names: &'a WantedNames) -> Option<&'a [u8]>
    ensures { option_copied result ≡ least_name (filter (is_other (shown definers.now) input) names.now) }
{
    let least = match names.more() {
        Some(more) => least_in(definers, input, more),
        None => None,
    };
    if is_other(definers, input, names.first()) {
        lesser_name(names.first(), least)
    } else {
        least
    }
}
