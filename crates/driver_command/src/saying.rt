//! The lines of drivers' calls, in the words of wasm-ld.

ghost use Rattle.std.specs.Prelude.{◌≡◌, ◌<◌, ◌^◌, ℕ, List, IsTrue, IfSome, length};
ghost use Rattle.std.specs.Option.{option_map};
ghost use Rattle.wl_outside.specs.Shelf.{Same, Grows};
ghost use Rattle.wl_outside.specs.Sink.{Wrote};
ghost use Rattle.driver_lines.specs.Lines.{refusal_line};
ghost use Rattle.driver_words.specs.Search.{holds};
ghost use Rattle.driver_command.specs.Told.{warning_lines, file_line, stop_line, unread_end as unread_end_of, unread_line, unwritten_line, IsRefusal, IsUnread, IsUnwritten, IsStatusLine, says_why as says_why_of, IsEnd};

use crate::mismatches::{gap, say_mismatches, severity};
use crate::names::{entry_of, names_again};
use driver_lines::{Naming, say_error, say_refusal, say_warning};
use driver_words::{Finder, Stop};
use link_command::{Mismatch, Status};
use link_lines::{Piece, print};
use link_words::read_words;
use std::alloc::Global;
use wl_base::{Fault, Seq, Text};
use wl_outside::{Failed, Sink};

/// Warns of each of the texts.
pub fn say_warnings<E: Sink>(program: &str, warnings: &[Text], say: &mut E) -> Result<(), Failed>
    ensures { Wrote result (warning_lines program.now warnings.now) (E.told say.old) (E.told say.new) }
{
    for warning in warnings {
        say_warning(program, warning.as_str(), say)?;
    }
    Ok(())
}

// An error of a file. It takes no memory.
#[tactic(auto, unfolding(crate::specs::Told::file_line))]
fn say_file<'a, E: Sink>(
    program: &'a str,
    head: &'a str,
    name: &'a str,
    tail: &'a str,
    say: &mut E,
) -> Result<(), Failed>
    ensures { Wrote result (file_line program.now head.now name.now tail.now) (E.told say.old) (E.told say.new) }
{
    print(
        &[
            Piece::Text(program),
            Piece::Text(": error: "),
            Piece::Text(head),
            Piece::Text(name),
            Piece::Text(tail),
            Piece::Text("\n"),
        ],
        say,
    )
}

/// Says why there is no answer to the words.
pub fn say_stop<E: Sink>(program: &str, stop: &Stop, say: &mut E) -> Result<(), Failed>
    ensures { Wrote result (stop_line program.now stop.now) (E.told say.old) (E.told say.new) }
{
    match stop {
        Stop::Unreadable(name) => say_file(program, "cannot open ", name.as_str(), "", say),
        Stop::NotText(name) => say_file(program, "", name.as_str(), ": not UTF-8", say),
        Stop::OutOfMemory => say_error(program, "out of memory", say),
    }
}

// A refused link, by these names.
fn say_named<'a, E: Sink>(
    program: &'a str,
    entry: Option<&'a str>,
    inputs: &'a [Text],
    files: &'a [Text],
    fault: &Fault,
    say: &mut E,
) -> Result<(), Failed>
    ensures { Wrote result (refusal_line program.now (option_map (λ n. n.now) entry.entry) inputs.now files.now fault.now) (E.told say.old) (E.told say.new) }
{
    let naming = Naming {
        program,
        entry,
        inputs,
        files,
    };
    say_refusal(fault, &naming, say)
}

// A refused link, by the names of its inputs.
fn say_fault<F: Finder, E: Sink>(
    alloc: Global,
    program: &str,
    own: &[Text],
    fault: &Fault,
    shelf: &mut F,
    say: &mut E,
) -> Result<(), Failed>
    requires { length own.now < 2 ^ 32 }
    ensures told { (line : List ℕ) × IsRefusal fault.now program.now (F.shown shelf.new) own.now line × Wrote result line (E.told say.old) (E.told say.new) }
    ensures same { Same (F.shown shelf.old) (F.shown shelf.new) }
    ensures counts { Grows (F.shown shelf.old) (F.shown shelf.new) }
{
    let Ok(plan) = read_words(alloc, own) else {
        let nothing = Seq::new(alloc);
        let nothing = nothing.as_slice();
        return say_named(program, None, nothing, nothing, fault, say);
    };
    let names = names_again(alloc, &plan, own, shelf);
    let (inputs, files) = (names.inputs.as_slice(), names.files.as_slice());
    say_named(program, entry_of(&plan), inputs, files, fault, say)
}

// Whether there is something under a name.
fn is_there<F: Finder>(name: Option<&Text>, shelf: &F) -> bool
    ensures { IsTrue (F.shown shelf.now).tells → IfSome (option_map (λ t. t.now) name.entry) (λ n. result ≡ holds (F.shown shelf.now) n) }
{
    match name {
        Some(name) => shelf.holds(name.as_str()),
        None => true,
    }
}

// What is told behind the name of an input that can't be read.
fn unread_end(there: bool) -> &'static str
    ensures { result.now ≡ unread_end_of there }
{
    if there {
        ""
    } else {
        ": No such file or directory"
    }
}

// An input that can't be read, where something is there or not.
fn say_unread_there<E: Sink>(
    program: &str,
    name: Option<&Text>,
    there: bool,
    say: &mut E,
) -> Result<(), Failed>
    ensures { Wrote result (unread_line program.now (option_map (λ t. t.now) name.entry) there) (E.told say.old) (E.told say.new) }
{
    match name {
        Some(name) => {
            let end = unread_end(there);
            say_file(program, "cannot open ", name.as_str(), end, say)
        }
        None => say_error(program, "cannot open an input", say),
    }
}

// An input that can't be read.
fn say_unread<F: Finder, E: Sink>(
    program: &str,
    name: Option<&Text>,
    shelf: &F,
    say: &mut E,
) -> Result<(), Failed>
    ensures { (line : List ℕ) × IsUnread (option_map (λ t. t.now) name.entry) program.now (F.shown shelf.now) line × Wrote result line (E.told say.old) (E.told say.new) }
{
    say_unread_there(program, name, is_there(name, shelf), say)
}

// An output of this name that can't be written.
fn say_unwritten_name<E: Sink>(
    program: &str,
    name: Option<&Text>,
    say: &mut E,
) -> Result<(), Failed>
    ensures { Wrote result (unwritten_line program.now (option_map (λ t. t.now) name.entry)) (E.told say.old) (E.told say.new) }
{
    match name {
        Some(name) => say_file(program, "cannot open output file ", name.as_str(), "", say),
        None => say_error(program, "cannot open the output file", say),
    }
}

// An output that can't be written.
fn say_unwritten<E: Sink>(
    alloc: Global,
    program: &str,
    own: &[Text],
    say: &mut E,
) -> Result<(), Failed>
    requires { length own.now < 2 ^ 32 }
    ensures { (line : List ℕ) × IsUnwritten program.now own.now line × Wrote result line (E.told say.old) (E.told say.new) }
{
    match read_words(alloc, own) {
        Ok(plan) => say_unwritten_name(program, plan.output.as_ref(), say),
        Err(_) => say_unwritten_name(program, None, say),
    }
}

/// Says how a link by the linker's own words ended.
fn say_status<F: Finder, E: Sink>(
    alloc: Global,
    program: &str,
    own: &[Text],
    status: &Status,
    shelf: &mut F,
    say: &mut E,
) -> Result<(), Failed>
    requires { length own.now < 2 ^ 32 }
    ensures told { (line : List ℕ) × IsStatusLine status.now program.now (F.shown shelf.new) own.now line × Wrote result line (E.told say.old) (E.told say.new) }
    ensures same { Same (F.shown shelf.old) (F.shown shelf.new) }
    ensures counts { Grows (F.shown shelf.old) (F.shown shelf.new) }
{
    match status {
        Status::Linked => Ok(()),
        Status::Refused(fault) => say_fault(alloc, program, own, fault, shelf, say),
        Status::Usage(_) => say_error(program, "the words are no link", say),
        Status::ReadFault(place) => say_unread(program, own.get(*place as usize), shelf, say),
        Status::WriteFault => say_unwritten(alloc, program, own, say),
        Status::NoMemory => say_error(program, "out of memory", say),
    }
}

// Whether what is told of calls says why the link is refused.
fn says_why(fatal: bool, told: &[Mismatch]) -> bool
    ensures { result ≡ says_why_of fatal told.now }
{
    fatal && !told.is_empty()
}

/// Says what is to be told of calls, and then how the link ended. Where warnings are errors, calls that are told of refuse it.
pub fn say_ending<F: Finder, E: Sink>(
    alloc: Global,
    program: &str,
    own: &[Text],
    fatal: bool,
    told: &[Mismatch],
    status: &Status,
    shelf: &mut F,
    say: &mut E,
) -> Result<(), Failed>
    requires { length own.now < 2 ^ 32 }
    ensures told { (line : List ℕ) × IsEnd fatal status.now told.now program.now (F.shown shelf.new) own.now line × Wrote result line (E.told say.old) (E.told say.new) }
    ensures same { Same (F.shown shelf.old) (F.shown shelf.new) }
    ensures counts { Grows (F.shown shelf.old) (F.shown shelf.new) }
{
    let word = severity(fatal);
    let end = gap(fatal, status);
    say_mismatches(alloc, program, own, word, told, end, shelf, say)?;
    if says_why(fatal, told) {
        return Ok(());
    }
    say_status(alloc, program, own, status, shelf, say)
}
