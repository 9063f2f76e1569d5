//! Both machines over the same link: `run_sym` over the loaded objects with nothing linked, and `run_mod` over
//! the bytes that the link gives.
#![tactic(auto)]

ghost use Rattle.run_laws.specs.Agree.{TracesAgree};

/// Where the plan isn't shared and `link_of` gives bytes, `run_mod` on them and `run_sym` on the objects that it loads come to the trace of
/// the plan and the files, and to no segment outside, for each session that gives an imported memory enough pages, and each number of steps.
pub fn traces_agree()
    ensures { TracesAgree }
{
    link_runs::links_run();
    run_modules::laws::fitting_sessions();
}
