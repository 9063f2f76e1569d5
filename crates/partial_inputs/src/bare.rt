//! The plan by which a partial link loads its inputs: that of the words, but no option has an effect save the output's name and the number of
//! workers.
ghost use Rattle.std.specs.Prelude.{◌≡◌, IfOk};
ghost use Rattle.link_plan.specs.Plan.{IsPlan};
ghost use Rattle.partial_rules.specs.PartialLink.{bare};

use link_plan::Plan;
use std::alloc::Global;
use wl_base::{OutOfMemory, Seq, Text};

/// How many bytes the stack has where no word says it.
const STACK_SIZE: u32 = 65536;

/// A name once more, where there is one.
fn name_again(alloc: Global, name: &Option<Text>) -> Result<Option<Text>, OutOfMemory>
    ensures { IfOk result (λ again. again ≡ name.now) }
{
    match name {
        None => Ok(None),
        Some(name) => {
            let again = Text::new(alloc, name.as_str())?;
            Ok(Some(again))
        }
    }
}

/// The plan with its options left out.
#[tactic(auto, using(crate::proofs::Ranges::bare_is_plan))]
pub fn bare_plan(alloc: Global, plan: &Plan) -> Result<Plan, OutOfMemory>
    requires { IsPlan plan.now }
    ensures is { IfOk result (λ p. p ≡ bare plan.now) }
    ensures numbers { IfOk result IsPlan }
{
    Ok(Plan {
        inputs: Seq::from_slice(alloc, plan.inputs.as_slice())?,
        output: name_again(alloc, &plan.output)?,
        entry: None,
        exports: Seq::new(alloc),
        exports_if: Seq::new(alloc),
        wanted: Seq::new(alloc),
        export_dynamic: false,
        allow_undefined: false,
        import_memory: false,
        gc: true,
        stack_first: false,
        global_base: None,
        stack_size: STACK_SIZE,
        initial_memory: 0,
        max_memory: None,
        threads: plan.threads,
        make_case: None,
        shared: false,
        partial: false,
        validate: false,
        keep_debug: false,
        like_lld: false,
        loose_calls: false,
        names: false,
        features: None,
    })
}
