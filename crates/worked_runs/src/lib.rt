//! A worked link of an object that clang wrote: the bytes that `link_of` gives, and that the theorem on runs speaks of them. Nothing
//! stands on this crate.
#![tactic(auto)]

ghost use Rattle.std.specs.Prelude.{◌≡◌, [], ◌∷◌, Ok};
ghost use Rattle.link_rules.specs.LinkOf.{link_of};
ghost use Rattle.link_runs.specs.Links.{Runs};
ghost use Rattle.worked_runs.specs.Clang.{clang_object, exporting_f, linked};

/// The object links to these bytes, which run as the object does with nothing linked.
pub fn linked_object_runs()
    ensures bytes { link_of exporting_f (clang_object ∷ []) ≡ Ok linked }
    ensures runs { Runs exporting_f (clang_object ∷ []) linked }
{
    link_runs::links_run();
}
