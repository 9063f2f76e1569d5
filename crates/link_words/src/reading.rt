//! The plan of the words.
ghost use Rattle.std.specs.Prelude.{◌≡◌, ◌<◌, ◌^◌, ℕ, length, All, IfOk, IsSome, IsNone, IsTrue};
ghost use Rattle.std.specs.Option.{option_map};
ghost use Rattle.link_plan.specs.Plan.{IsPlan};
ghost use Rattle.link_words.specs.Fields.{entry as entry_of, usual_entry, all_exports};
ghost use Rattle.link_words.specs.Words.{plan_from, plan_of, Reads};

use crate::WordError;
use crate::cut::cut_words;
use crate::faults::first_fault;
use crate::fields::{
    add_exports, case, entry, has, initial_memory, inputs, is_on, names, numeral, small_numeral,
    stack_size, text, threads,
};
use crate::item::Item;
use crate::kind::Kind;
use crate::range::Range;
use link_plan::Plan;
use std::alloc::Global;
use wl_base::{Name, OutOfMemory, Seq, Text};

/// The plan of the words, which leave out the program's name. Words are read from left to right, and the first
/// that is at fault decides; what all words together lack is judged after them.
#[tactic(auto, unfolding(crate::specs::Words::plan_of))]
pub fn read_words(alloc: Global, words: &[Text]) -> Result<Plan, WordError>
    requires { length words.now < 2 ^ 32 }
    // The answer is the definition's, or want of memory.
    ensures plan { Reads result (plan_of words.now) }
    // Its numbers have their forms and ranges, and its inputs are words.
    ensures numbers { IfOk result IsPlan }
    ensures places { IfOk result (λ plan. All (λ input. input.place < length words.now) plan.inputs) }

    // A generated case has no input and isn't partial, and each other link has an input and an output.
    ensures case { IfOk result (λ plan. IsSome plan.make_case → length plan.inputs ≡ 0) }
    ensures input { IfOk result (λ plan. IsNone plan.make_case → 0 < length plan.inputs) }
    ensures output { IfOk result (λ plan. IsNone plan.make_case → IsSome plan.output) }
    ensures partial { IfOk result (λ plan. IsTrue plan.partial → IsNone plan.make_case) }
{
    let (items, stop) = cut_words(alloc, words)?;
    let items = items.as_slice();
    match first_fault(items, stop) {
        Some(fault) => Err(WordError::Usage(fault)),
        None => Ok(plan(alloc, items)?),
    }
}

// What the items say together.
#[tactic(auto, unfolding(crate::specs::Words::plan_from))]
fn plan(alloc: Global, items: &[Item<'_>]) -> Result<Plan, OutOfMemory>
    requires { length items.now < 2 ^ 32 }
    ensures plan { IfOk result (λ plan. plan ≡ plan_from items.now) }
    ensures numbers { IfOk result IsPlan }
    ensures places { (bound : ℕ) → All (λ item. item.at < bound) items.now
        → IfOk result (λ plan. All (λ input. input.place < bound) plan.inputs) }
{
    Ok(Plan {
        inputs: inputs(alloc, items)?,
        output: own_text(alloc, text(items, Kind::Output))?,
        entry: entry_name(alloc, items)?,
        exports: exports(alloc, items)?,
        exports_if: names(alloc, items, Kind::ExportIfDefined)?,
        wanted: names(alloc, items, Kind::Wanted)?,
        export_dynamic: has(items, Kind::ExportDynamic),
        allow_undefined: has(items, Kind::AllowUndefined),
        import_memory: has(items, Kind::ImportMemory),
        gc: is_on(items, Kind::GcSections, Kind::NoGcSections, true),
        stack_first: has(items, Kind::StackFirst),
        global_base: small_numeral(items, Kind::GlobalBase, Range::Address),
        stack_size: stack_size(items),
        initial_memory: initial_memory(items),
        max_memory: numeral(items, Kind::MaxMemory, Range::Memory),
        threads: threads(items),
        make_case: case(items),
        shared: has(items, Kind::Shared),
        partial: has(items, Kind::Partial),
        validate: has(items, Kind::Validate),
        keep_debug: has(items, Kind::KeepDebug),
        like_lld: false,
        loose_calls: false,
        names: false,
        features: None,
    })
}

fn own_text(alloc: Global, text: Option<&str>) -> Result<Option<Text>, OutOfMemory>
    ensures { IfOk result (λ own. own ≡ option_map (λ t. t.now) text.entry) }
{
    match text {
        Some(text) => Ok(Some(Text::new(alloc, text)?)),
        None => Ok(None),
    }
}

// The entry function; a generated case and a shared output have none where no word tells.
fn entry_name(alloc: Global, items: &[Item<'_>]) -> Result<Option<Name>, OutOfMemory>
    ensures { IfOk result (λ name. name ≡ entry_of (usual_entry items.now) items.now) }
{
    let usual = if case(items).is_some() || has(items, Kind::Shared) {
        None
    } else {
        Some("_start")
    };
    match entry(items, usual) {
        Some(name) => Ok(Some(Seq::from_slice(alloc, name.as_bytes())?)),
        None => Ok(None),
    }
}

// The names that are exported; a generated case exports its first function.
fn exports(alloc: Global, items: &[Item<'_>]) -> Result<Seq<Name>, OutOfMemory>
    ensures { IfOk result (λ names. names ≡ all_exports items.now) }
{
    let mut names = Seq::new(alloc);
    if case(items).is_some() {
        names.push(Seq::from_slice(alloc, b"f0")?)?;
    }
    add_exports(alloc, items, &mut names)?;
    Ok(names)
}
