//! Which names the words ask for, by number.
ghost use Rattle.std.specs.Prelude.{◌≡◌, ◌++◌, ◌∷◌, [], List, ℕ, length, option_to_list, IfOk};
ghost use Rattle.link_program.specs.link_rules.Marks.{demanded};
ghost use Rattle.link_marks.specs.Asked.{IsAsked};

use link_plan::Plan;
use link_program::Names;
use std::alloc::Global;
use wl_base::{Name, OutOfMemory};

/// Notes that a name is asked for.
#[tactic(auto, using(crate::proofs::Columns::one_more, crate::proofs::Columns::no_more, crate::proofs::Columns::number_within))]
fn ask(asked: &mut [bool], names: &Names, word: &[u8])
    requires { length asked.old ≡ length names.now.names }
    ensures { (words : List (List ℕ)) → IsAsked names.now.names words asked.old → IsAsked names.now.names (words ++ word.now ∷ []) asked.new }
{
    if let Some(number) = names.find(word) {
        asked[number as usize] = true;
    }
}

/// Notes these names.
fn ask_all(asked: &mut [bool], names: &Names, more: &[Name])
    requires { length asked.old ≡ length names.now.names }
    ensures { (words : List (List ℕ)) → IsAsked names.now.names words asked.old → IsAsked names.now.names (words ++ more.now) asked.new }
{
    for word in more {
        ask(asked, names, word.as_slice());
    }
}

/// Notes the entry, if there is one.
fn ask_entry(asked: &mut [bool], names: &Names, entry: &Option<Name>)
    requires { length asked.old ≡ length names.now.names }
    ensures { (words : List (List ℕ)) → IsAsked names.now.names words asked.old → IsAsked names.now.names (words ++ option_to_list entry.now) asked.new }
{
    if let Some(word) = entry {
        ask(asked, names, word.as_slice());
    }
}

/// Notes all names that the words ask for.
fn ask_words(asked: &mut [bool], names: &Names, plan: &Plan)
    requires { length asked.old ≡ length names.now.names }
    ensures { IsAsked names.now.names [] asked.old → IsAsked names.now.names (demanded plan.now ++ plan.now.exports_if) asked.new }
{
    ask_entry(asked, names, &plan.entry);
    ask_all(asked, names, plan.exports.as_slice());
    ask_all(asked, names, plan.exports_if.as_slice());
}

/// Of each name, by number, whether the words ask that it is exported.
pub(crate) fn asked_names(
    alloc: Global,
    names: &Names,
    plan: &Plan,
) -> Result<Vec<bool>, OutOfMemory>
    ensures { IfOk result (λ asked. IsAsked names.now.names (demanded plan.now ++ plan.now.exports_if) asked.items) }
{
    let mut asked = vec![in alloc; false; names.count() as usize]?;
    ask_words(&mut asked, names, plan);
    Ok(asked)
}
