//! What a driver asks of a link beside the linker's own words, and the plan with it.
ghost use Rattle.std.specs.Prelude.{◌≡◌, None, false, IfOk};
ghost use Rattle.link_command.specs.Command.{plan_for as the_plan_for};

use link_plan::FeatureWords;
use link_words::Plan;
use std::alloc::Global;
use wl_base::{Name, OutOfMemory, Seq};

/// What a driver asks of the sections behind the module that no own word asks for.
#[derive(Drop)]
pub struct Asked {
    /// There is a section `name`, with the functions' names.
    pub names: bool,
    /// What is done with the features that objects use, where anything is.
    pub features: Option<FeatureWords>,
}

impl Asked {
    /// Nothing is asked.
    pub fn nothing() -> Asked
        ensures { result ≡ record { names = false; features = None } }
    {
        Asked {
            names: false,
            features: None,
        }
    }
}

// The names again.
fn copied_names(alloc: Global, names: &[Name]) -> Result<Seq<Name>, OutOfMemory>
    ensures { IfOk result (λ all. all ≡ names.now) }
{
    let mut all = Seq::new(alloc);
    for name in names {
        all.push(Seq::from_slice(alloc, name.as_slice())?)?;
    }
    Ok(all)
}

// The names again, where there is a list of them.
fn copied_list(alloc: Global, names: &Option<Seq<Name>>) -> Result<Option<Seq<Name>>, OutOfMemory>
    ensures { IfOk result (λ list. list ≡ names.now) }
{
    match names {
        Some(names) => Ok(Some(copied_names(alloc, names.as_slice())?)),
        None => Ok(None),
    }
}

// The same said of features again, for a plan of its own.
fn copied_features(
    alloc: Global,
    features: &Option<FeatureWords>,
) -> Result<Option<FeatureWords>, OutOfMemory>
    ensures { IfOk result (λ words. words ≡ features.now) }
{
    let Some(words) = features else {
        return Ok(None);
    };
    let allowed = copied_list(alloc, &words.allowed)?;
    let extra = copied_names(alloc, words.extra.as_slice())?;
    Ok(Some(FeatureWords {
        allowed,
        extra,
        checked: words.checked,
        kept: words.kept,
    }))
}

/// The same plan, for a link that is like lld's, with what its driver asks, or for one that isn't.
///
/// # Errors
/// Want of memory.
pub fn plan_for(
    alloc: Global,
    mut plan: Plan,
    like_lld: bool,
    loose_calls: bool,
    asked: &Asked,
) -> Result<Plan, OutOfMemory>
    ensures { IfOk result (λ new. new ≡ the_plan_for like_lld loose_calls asked.now plan) }
{
    if like_lld {
        plan.like_lld = true;
        plan.loose_calls = loose_calls;
        plan.names = asked.names;
        plan.features = copied_features(alloc, &asked.features)?;
    }
    Ok(plan)
}
