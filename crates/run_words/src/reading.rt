//! Reading the words: clap parses them, and what it found is copied, since its matches live only as long as
//! the words.
ghost use Rattle.std.specs.Prelude.{◌≡◌, ◌≢◌, [], Some, map, option_map, IfOk, IfSome};
ghost use Rattle.std.specs.Prelude.{codes};
ghost use Rattle.clap.specs.Words.{app_of, first_value, found_of, kind_of};
ghost use Rattle.run_words.specs.Words.{run_app, refusals};
ghost use Rattle.run_words.specs.Matched.{AreMatched, Matches};
ghost use Rattle.run_words.specs.Reads.{Reads, steps_in};

use crate::RunWordsError;
use crate::command::command;
use clap::error::ErrorKind;
use clap::{ArgMatches, Command, Error};
use std::alloc::Global;
use wl_base::{OutOfMemory, Text};

/// What a run is asked for.
#[derive(Debug, Drop)]
pub struct RunWords {
    /// The file of the module.
    pub module: Text,
    /// The file of the script.
    pub script: Text,
    /// How many steps the run may take, at most 1,000,000,000.
    pub steps: u64,
}

// The words, lent as texts.
fn lent<'a>(alloc: Global, words: &'a [Text]) -> Result<Vec<&'a str>, OutOfMemory>
    ensures { IfOk result (λ v. map (λ s. s.now) v.items ≡ words.entry.now) }
{
    let mut texts = Vec::new(alloc);
    for word in words {
        texts.push(word.as_str())?;
    }
    Ok(texts)
}

// What clap finds in the words.
fn matched<'a>(command: Command<'a>, words: &'a [&'a str]) -> Result<ArgMatches<'a>, RunWordsError>
    requires { app_of command ≡ run_app }
    ensures { Matches result (map (λ s. s.now) words.entry.now) }
{
    match command.try_get_matches_from(words) {
        Ok(matches) => Ok(matches),
        Err(error) => Err(refusal(&error)),
    }
}

// Want of memory is no refusal of the words.
fn refusal(error: &Error) -> RunWordsError
    ensures usage { result ≡ RunWordsError.Usage → kind_of error.now ≢ ErrorKind.OutOfMemory }
{
    match error.kind() {
        ErrorKind::OutOfMemory => RunWordsError::OutOfMemory,
        _ => RunWordsError::Usage,
    }
}

// A copy of the text of an argument.
fn text(alloc: Global, matches: &ArgMatches<'_>, id: &str) -> Result<Text, OutOfMemory>
    ensures { IfOk result (λ t. first_value (found_of matches.now) id.now ≡ Some t) }
{
    // Each argument is required, so it is there where clap takes the words.
    let Some(text) = matches.get_str(id) else {
        return Err(OutOfMemory);
    };
    Text::new(alloc, text)
}

// The number that a text spells.
fn number(text: &str) -> Result<u64, OutOfMemory>
    ensures { IfOk result (λ n. n ≡ steps_in text.now) }
{
    // clap has parsed it as a number.
    match text.parse::<u64>() {
        Ok(number) => Ok(number),
        Err(_) => Err(OutOfMemory),
    }
}

/// What the words ask for, which leave out the program's name.
///
/// # Errors
/// `Usage` exactly where clap refuses them for the command of a required MODULE, a required `--script FILE` and a
/// required `--steps N`; want of memory.
pub fn read_words(alloc: Global, words: &[Text]) -> Result<RunWords, RunWordsError>
    ensures { Reads result words.now }
{
    let texts = lent(alloc, words)?;
    let command = command(alloc)?;
    let matches = matched(command, texts.as_slice())?;
    let module = text(alloc, &matches, "MODULE")?;
    let script = text(alloc, &matches, "script")?;
    let steps = text(alloc, &matches, "steps")?;
    Ok(RunWords {
        module,
        script,
        steps: number(steps.as_str())?,
    })
}
