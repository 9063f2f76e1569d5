//! The words of `wasmrun` as a command of clap: a required MODULE, a required `--script FILE` and a required
//! `--steps N`.
ghost use Rattle.std.specs.Prelude.{◌≡◌, IfOk, false};
ghost use Rattle.clap.specs.Words.{app_of, rule_of};
ghost use Rattle.run_words.specs.Words.{run_app, module_rule, script_rule, steps_rule};

use clap::builder::ValueParser;
use clap::{Arg, Command};
use std::alloc::{AllocError, Global};

// The most steps that may be asked for, so that a run ends in minutes.
const MOST_STEPS: u64 = 1_000_000_000;

fn module<'a>(alloc: Global) -> Arg<'a>
    ensures rule { rule_of result ≡ module_rule }
    ensures local { result.global ≡ false }
{
    Arg::new(alloc, "MODULE").required(true)
}

fn script<'a>(alloc: Global) -> Arg<'a>
    ensures rule { rule_of result ≡ script_rule }
    ensures local { result.global ≡ false }
{
    Arg::new(alloc, "script")
        .long("script")
        .value_name("FILE")
        .required(true)
}

fn steps<'a>(alloc: Global) -> Arg<'a>
    ensures rule { rule_of result ≡ steps_rule }
    ensures local { result.global ≡ false }
{
    Arg::new(alloc, "steps")
        .long("steps")
        .value_name("N")
        .value_parser(ValueParser::Unsigned(0, MOST_STEPS))
        .required(true)
}

/// The command of these three arguments. The words that it reads leave out the program's name.
///
/// # Errors
/// Want of memory.
pub fn command<'a>(alloc: Global) -> Result<Command<'a>, AllocError>
    ensures { IfOk result (λ c. app_of c ≡ run_app) }
{
    let start = Command::new(alloc, "wasmrun").no_binary_name(true);
    let with_module = start.arg(module(alloc))?;
    let with_script = with_module.arg(script(alloc))?;
    with_script.arg(steps(alloc))
}
