//! What is told of functions that are called by another type than their definition has.

ghost use Rattle.std.specs.Prelude.{◌≡◌, ◌<◌, ◌^◌, ℕ, List, length};
ghost use Rattle.std.specs.List.{flat_map};
ghost use Rattle.std.specs.Option.{option_map};
ghost use Rattle.driver_lines.specs.Mismatch.{first_and_rest};
ghost use Rattle.wl_outside.specs.Shelf.{Same, Grows};
ghost use Rattle.wl_outside.specs.Sink.{Wrote};
ghost use Rattle.driver_command.specs.Mismatched.{severity as severity_of, line_of, next_lines, told_lines, gap_before as gap_before_of, gap as gap_of, AreTold};

use crate::names::names_again;
use driver_lines::say_mismatch;
use driver_words::Finder;
use link_command::{Mismatch, Status};
use link_lines::{Piece, print};
use link_words::read_words;
use std::alloc::Global;
use wl_base::{Seq, Text};
use wl_outside::{Failed, Sink};

// Tells of one.
fn say_one<E: Sink>(
    program: &str,
    word: &str,
    inputs: &[Text],
    told: &Mismatch,
    say: &mut E,
) -> Result<(), Failed>
    ensures { Wrote result (line_of program.now word.now inputs.now told.now) (E.told say.old) (E.told say.new) }
{
    say_mismatch(
        program,
        word,
        inputs,
        &told.name,
        (&told.called, told.input),
        (&told.defined, told.definer),
        say,
    )
}

// Tells of one behind others.
fn say_next<E: Sink>(
    program: &str,
    word: &str,
    inputs: &[Text],
    told: &Mismatch,
    say: &mut E,
) -> Result<(), Failed>
    ensures { Wrote result (next_lines program.now word.now inputs.now told.now) (E.told say.old) (E.told say.new) }
{
    print(&[Piece::Text("\n")], say)?;
    say_one(program, word, inputs, told, say)
}

// Tells of those behind others.
fn say_more<E: Sink>(
    program: &str,
    word: &str,
    inputs: &[Text],
    told: &[Mismatch],
    say: &mut E,
) -> Result<(), Failed>
    ensures { Wrote result (flat_map (next_lines program.now word.now inputs.now) told.now) (E.told say.old) (E.told say.new) }
{
    for mismatch in told {
        say_next(program, word, inputs, mismatch, say)?;
    }
    Ok(())
}

// The first, and the others.
fn split_first(told: &[Mismatch]) -> Option<(&Mismatch, &[Mismatch])>
    ensures { option_map (λ p. (p.0.now, p.1.now)) result ≡ first_and_rest told.now }
{
    match told {
        [] => None,
        [first, rest @ ..] => Some((first, rest)),
    }
}

/// What is told of calls: warnings, or errors.
pub fn severity(fatal: bool) -> &'static str
    ensures { result.now ≡ severity_of fatal }
{
    if fatal { "error" } else { "warning" }
}

// What stands between warnings and the line of a status.
fn gap_before(status: &Status) -> &'static str
    ensures { result.now ≡ gap_before_of status.now }
{
    match status {
        Status::Linked => "",
        Status::Refused(_)
        | Status::Usage(_)
        | Status::ReadFault(_)
        | Status::WriteFault
        | Status::NoMemory => "\n",
    }
}

/// What stands behind what is told of calls.
pub fn gap(fatal: bool, status: &Status) -> &'static str
    ensures { result.now ≡ gap_of fatal status.now }
{
    if fatal { "" } else { gap_before(status) }
}

// Tells of all, by these names of inputs, and of what stands behind them.
fn say_named<E: Sink>(
    program: &str,
    word: &str,
    inputs: &[Text],
    told: &[Mismatch],
    end: &str,
    say: &mut E,
) -> Result<(), Failed>
    ensures { Wrote result (told_lines program.now word.now inputs.now told.now end.now) (E.told say.old) (E.told say.new) }
{
    let Some((first, rest)) = split_first(told) else {
        return Ok(());
    };
    say_one(program, word, inputs, first, say)?;
    say_more(program, word, inputs, rest, say)?;
    print(&[Piece::Text(end)], say)
}

/// Tells of all, as what this word says, and then this end. The names of inputs are found only where there is something to be told.
pub fn say_mismatches<F: Finder, E: Sink>(
    alloc: Global,
    program: &str,
    own: &[Text],
    word: &str,
    told: &[Mismatch],
    end: &str,
    shelf: &mut F,
    say: &mut E,
) -> Result<(), Failed>
    requires { length own.now < 2 ^ 32 }
    ensures told { (lines : List ℕ) × AreTold told.now program.now word.now end.now (F.shown shelf.new) own.now lines × Wrote result lines (E.told say.old) (E.told say.new) }
    ensures same { Same (F.shown shelf.old) (F.shown shelf.new) }
    ensures counts { Grows (F.shown shelf.old) (F.shown shelf.new) }
{
    if told.is_empty() {
        return say_named(program, word, &[], told, end, say);
    }
    let Ok(plan) = read_words(alloc, own) else {
        return say_named(program, word, &[], told, end, say);
    };
    let names = names_again(alloc, &plan, own, shelf);
    say_named(program, word, names.inputs.as_slice(), told, end, say)
}
