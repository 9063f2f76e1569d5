//! What holds of the words that drivers' words stand for: the linker has a plan of them, its inputs are the files that drivers' words
//! name, it keeps debug sections unless a word strips them, and it is partial, or shared, where a word says so.
#![tactic(auto)]

ghost use Rattle.driver_laws.specs.Laws.{OwnWordsHavePlans, PlansNameTheFiles, PlansKeepDebug, PlansArePartial, PlansAreShared};

/// The linker's own words that a translation gives have a plan, so that no line speaks of words that nobody wrote. Its inputs are the files
/// that were named and found, in their order and with their modes. It keeps debug sections, unless one of the words `-s`, `-S`,
/// `--strip-all` and `--strip-debug` was there. It asks for one object in place of a module exactly where `-r` or `--relocatable` was there,
/// and for a shared output exactly where `-shared` was.
pub fn own_words_have_plans()
    ensures plans { OwnWordsHavePlans }
    ensures files { PlansNameTheFiles }
    ensures debug { PlansKeepDebug }
    ensures partial { PlansArePartial }
    ensures shared { PlansAreShared }
{
    link_words::laws::words_are_cut();
}
