//! The call by drivers' words.

ghost use Rattle.std.specs.Prelude.{◌≡◌, ◌<◌, ◌^◌, ◌++◌, ℕ, List, IsTrue, length};
ghost use Rattle.wl_outside.specs.Shelf.{Grows};
ghost use Rattle.link_command.specs.Said.{Said as Written};
ghost use Rattle.link_command.specs.mismatch_rules.declared.mismatch.Mismatch.{Mismatch};
ghost use Rattle.driver_command.specs.declared.outcome.Outcome.TheVariants.{Stopped};
ghost use Rattle.driver_words.specs.Translated.{translated};
ghost use Rattle.driver_command.specs.Causes.{TellsOf};
ghost use Rattle.driver_command.specs.Ends.{Ends, IsDue};
ghost use Rattle.driver_command.specs.Linked.{LinksAs};
ghost use Rattle.driver_command.specs.Told.{IsTold, IsEnd, Printed, SaidOf, stop_line, warning_lines};

use crate::linking::{Quiet, link_quietly};
use crate::manual::text_of;
use crate::outcome::Outcome;
use crate::saying::{say_ending, say_stop, say_warnings};
use driver_lines::say_error;
use driver_words::{Answer, Finder, Stop, What, translate};
use link_command::{Asked, Status};
use std::alloc::Global;
use std::thread::Threads;
use wl_base::Text;
use wl_outside::{Gate, Sink};

// More words than places have.
const MOST_WORDS: usize = u32::MAX as usize;

/// All that the program does under the name `wasm-ld`, whose last part the lines have in front: it translates the words, which leave
/// out the program's name, and links by the linker's own words; or it puts the text that is asked for on the output of texts. What is wrong
/// is told on the sink of lines in the words of LLVM's linker. A line that can't be written changes no outcome.
#[tactic(auto, using(crate::proofs::Due::due))]
pub fn drive<R: Threads + Sync, F: Finder, O: Sink, E: Sink, G: Gate>(
    rt: &R,
    alloc: Global,
    program: &str,
    words: &[Text],
    shelf: &mut F,
    out: &mut O,
    say: &mut E,
    gate: &G,
) -> Outcome
    // Each outcome has its cause, and says what the shelf holds then.
    ensures ends { Ends result (F.shown shelf.old) (F.shown shelf.new) words.now }
    // Where the shelf tells what it holds, this is what is due by the words.
    ensures due { IsTrue (F.shown shelf.old).tells → IsDue result (F.shown shelf.old) (F.shown shelf.new) (translated (F.shown shelf.old).held words.now) }
    // The lines, and the text that is asked for; or where a sink's count of faults rose a prefix of them.
    ensures told { IsTold result program.now (F.shown shelf.old) (F.shown shelf.new) words.now (E.told say.old) (E.told say.new) }
    ensures printed { Printed result (O.told out.old) (O.told out.new) }
    // No count falls, and a shelf that tells what it holds goes on telling it.
    ensures counts { Grows (F.shown shelf.old) (F.shown shelf.new) }
{
    let outcome = answer(rt, alloc, program, words, shelf, out, say, gate);
    outcome
}

// The same, by the words' answer.
fn answer<R: Threads + Sync, F: Finder, O: Sink, E: Sink, G: Gate>(
    rt: &R,
    alloc: Global,
    program: &str,
    words: &[Text],
    shelf: &mut F,
    out: &mut O,
    say: &mut E,
    gate: &G,
) -> Outcome
    ensures ends { Ends result (F.shown shelf.old) (F.shown shelf.new) words.now }
    ensures told { IsTold result program.now (F.shown shelf.old) (F.shown shelf.new) words.now (E.told say.old) (E.told say.new) }
    ensures printed { Printed result (O.told out.old) (O.told out.new) }
    ensures counts { Grows (F.shown shelf.old) (F.shown shelf.new) }
{
    match translate(alloc, shelf, words) {
        Ok(
            Answer::Links {
                own,
                warnings,
                fatal,
                names,
                features,
            },
        ) => {
            let asked = Asked { names, features };
            let (own, warnings) = (own.as_slice(), warnings.as_slice());
            if own.len() > MOST_WORDS {
                return stopped(program, Stop::OutOfMemory, say);
            }
            let status = link_told(
                rt, alloc, program, own, warnings, fatal, &asked, shelf, say, gate,
            );
            Outcome::Linked(status)
        }
        Ok(Answer::Says(what)) => say_text(what, out),
        Ok(Answer::Refuses(line)) => {
            // A line that can't be written changes no answer.
            let _ = say_error(program, line.as_str(), say);
            Outcome::Refused(line)
        }
        Err(stop) => stopped(program, stop, say),
    }
}

// The text that is asked for, on the output of texts.
fn say_text<O: Sink>(what: What, out: &mut O) -> Outcome
    ensures { SaidOf result what (O.told out.old) (O.told out.new) }
{
    match out.write(text_of(what).as_bytes()) {
        Ok(()) => Outcome::Said(what),
        Err(_) => Outcome::Unsaid(what),
    }
}

// No answer, and its line.
fn stopped<E: Sink>(program: &str, stop: Stop, say: &mut E) -> Outcome
    ensures outcome { result ≡ Stopped stop }
    ensures line { Written (stop_line program.now stop) (E.told say.old) (E.told say.new) }
{
    let _ = say_stop(program, &stop, say);
    Outcome::Stopped(stop)
}

// The link by the linker's own words, the warnings before it, and the lines behind it; with whether warnings are errors, and what is asked
// beside the words.
fn link_told<R: Threads + Sync, F: Finder, E: Sink, G: Gate>(
    rt: &R,
    alloc: Global,
    program: &str,
    own: &[Text],
    warnings: &[Text],
    fatal: bool,
    asked: &Asked,
    shelf: &mut F,
    say: &mut E,
    gate: &G,
) -> Status
    requires { length own.now < 2 ^ 32 }
    ensures shows { LinksAs fatal asked.now result (F.shown shelf.old) (F.shown shelf.new) own.now }
    ensures told { (told : List Mismatch) × (line : List ℕ) × TellsOf fatal asked.now result (F.shown shelf.old) (F.shown shelf.new) own.now told
        × IsEnd fatal result told program.now (F.shown shelf.new) own.now line
        × Written (warning_lines program.now warnings.now ++ line) (E.told say.old) (E.told say.new) }
    ensures counts { Grows (F.shown shelf.old) (F.shown shelf.new) }
{
    let heard = say_warnings(program, warnings, say);
    let Quiet { status, told } = link_quietly(rt, alloc, own, fatal, asked, shelf, gate);
    if heard.is_err() {
        return status;
    }
    let told = told.as_slice();
    let _ = say_ending(alloc, program, own, fatal, told, &status, shelf, say);
    status
}
