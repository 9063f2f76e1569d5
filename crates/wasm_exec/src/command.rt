//! The top call: all that the program does.
ghost use Rattle.std.specs.Prelude.{◌≡◌, ◌≢◌, [], IsTrue, Ok, Err, List, ℕ};
ghost use Rattle.wl_outside.specs.Shelf.{Same, Grows};
ghost use Rattle.wl_outside.specs.Sink.{Rose, Added};
ghost use Rattle.run_words.specs.Words.{refusals};
ghost use Rattle.run_words.specs.Reads.{AreRunWords};
ghost use Rattle.run_words.specs.declared.reading.RunWords.{RunWords as TheWords};
ghost use Rattle.wasm_exec.specs.declared.status.RunFault.{RunFault as TheFault};
ghost use Rattle.wasm_exec.specs.Command.{AsksUnless, Shows, RunIs, LoadsWork, IsUnlessMemory, SaidBy};

use crate::loading::{ReadError, load_both};
use crate::running::run_text;
use crate::status::{RunError, RunStatus};
use run_words::{RunWords, RunWordsError, read_words};
use std::alloc::Global;
use std::thread::Threads;
use wl_base::{Seq, Text};
use wl_outside::{Failed, Shelf, Sink};

// Writes the text, at once.
fn say_text<E: Sink>(text: &Seq<u8>, say: &mut E) -> RunStatus
    ensures { SaidBy result text.now (E.told say.old) (E.told say.new) }
{
    match say.write(text.as_slice()) {
        Ok(()) => RunStatus::Ran,
        Err(Failed) => RunStatus::WriteFault,
    }
}

// Runs what the words ask for.
fn run_asked<F: Shelf, E: Sink>(
    alloc: Global,
    w: &RunWords,
    shelf: &mut F,
    say: &mut E,
) -> RunStatus
    ensures held { Same (F.shown shelf.old) (F.shown shelf.new) }
    ensures counts { Grows (F.shown shelf.old) (F.shown shelf.new) }
    ensures cause { Shows result (F.shown shelf.old) (F.shown shelf.new) (E.told say.old) (E.told say.new) w.now }
    ensures is_refused { (fault : TheFault) → IsTrue (F.shown shelf.old).tells → RunIs (F.shown shelf.old) w.now (Err fault)
        → LoadsWork (F.shown shelf.old) (F.shown shelf.new) w.now → IsUnlessMemory result (RunStatus.Refused fault) }
    ensures is_ran { (text : List ℕ) → IsTrue (F.shown shelf.old).tells → RunIs (F.shown shelf.old) w.now (Ok text)
        → LoadsWork (F.shown shelf.old) (F.shown shelf.new) w.now → (Rose (E.told say.old).faults (E.told say.new).faults → ⊥)
        → IsUnlessMemory result RunStatus.Ran }
{
    let loaded = match load_both(alloc, w, shelf) {
        Ok(loaded) => loaded,
        Err(ReadError::Failed(k)) => return RunStatus::ReadFault(k),
        Err(ReadError::OutOfMemory) => return RunStatus::NoMemory,
    };
    match run_text(
        alloc,
        loaded.bytes.as_slice(),
        loaded.lines.as_slice(),
        w.steps,
    ) {
        Ok(text) => say_text(&text, say),
        Err(RunError::Refused(fault)) => RunStatus::Refused(fault),
        Err(RunError::OutOfMemory) => RunStatus::NoMemory,
    }
}

/// All that the program does: reads the words, which leave out its name; loads the module and then the script; and writes the text of the
/// trace at once. It starts no thread.
#[tactic(auto, using(crate::proofs::Loads::grows_not))]
pub fn run_command<R: Threads + Sync, F: Shelf, E: Sink>(
    _rt: &R,
    alloc: Global,
    words: &[Text],
    shelf: &mut F,
    say: &mut E,
) -> RunStatus
    // Every name holds what it held, and no count falls.
    ensures held { Same (F.shown shelf.old) (F.shown shelf.new) }
    ensures counts { Grows (F.shown shelf.old) (F.shown shelf.new) }
    // The answer is so exactly where clap refuses the words, want of memory aside.
    ensures usage { result ≡ RunStatus.Usage → refusals words.now ≢ [] }
    ensures is_usage { refusals words.now ≢ [] → IsUnlessMemory result RunStatus.Usage }
    // Each other answer has its cause, and says what came to the sink.
    ensures asked { AsksUnless result words.now }
    ensures cause { (w : TheWords) → AreRunWords words.now w
        → Shows result (F.shown shelf.old) (F.shown shelf.new) (E.told say.old) (E.told say.new) w }
    ensures silent { result ≡ RunStatus.Usage → Added [] (E.told say.old) (E.told say.new) }
    ensures memory { result ≡ RunStatus.NoMemory → Added [] (E.told say.old) (E.told say.new) }
    // A run that is refused is always answered so, where the loads work.
    ensures is_refused { (w : TheWords) (fault : TheFault) → AreRunWords words.now w → IsTrue (F.shown shelf.old).tells
        → RunIs (F.shown shelf.old) w (Err fault) → LoadsWork (F.shown shelf.old) (F.shown shelf.new) w
        → IsUnlessMemory result (RunStatus.Refused fault) }
    // A run with a trace is always answered so, where the loads and the write work.
    ensures is_ran { (w : TheWords) (text : List ℕ) → AreRunWords words.now w → IsTrue (F.shown shelf.old).tells
        → RunIs (F.shown shelf.old) w (Ok text) → LoadsWork (F.shown shelf.old) (F.shown shelf.new) w
        → (Rose (E.told say.old).faults (E.told say.new).faults → ⊥) → IsUnlessMemory result RunStatus.Ran }
{
    match read_words(alloc, words) {
        Ok(w) => run_asked(alloc, &w, shelf, say),
        Err(RunWordsError::Usage) => RunStatus::Usage,
        Err(RunWordsError::OutOfMemory) => RunStatus::NoMemory,
    }
}
