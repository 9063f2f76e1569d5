//! The words of the files.
ghost use Rattle.std.specs.Prelude.{◌≡◌, IfOk, replicate};
ghost use Rattle.link_program.specs.link_rules.Candidates.{plain_word};
ghost use Rattle.link_inputs.specs.Words.{words_of};

use link_plan::{InputWord, Plan};
use std::alloc::Global;
use wl_base::{OutOfMemory, Seq};

/// A word that is neither lazy nor whole, for each of so many files.
fn plain_words(alloc: Global, count: usize) -> Result<Seq<InputWord>, OutOfMemory>
    ensures { IfOk result (λ words. words ≡ replicate count plain_word) }
{
    let mut words = Seq::new(alloc);
    for _at in 0..count {
        words.push(InputWord {
            place: 0,
            lazy: false,
            whole: false,
        })?;
    }
    Ok(words)
}

/// A word for each of so many files: those of the plan, or plain ones for generated objects.
pub fn words_of(alloc: Global, plan: &Plan, count: usize) -> Result<Seq<InputWord>, OutOfMemory>
    ensures { IfOk result (λ words. words ≡ words_of plan.now count) }
{
    match plan.make_case {
        Some(_) => plain_words(alloc, count),
        None => Seq::from_slice(alloc, plan.inputs.as_slice()),
    }
}
