//! A script as a session: its lines one after another, up to the first that isn't one.
ghost use Rattle.std.specs.Prelude.{◌≡◌, IfOk, OnOk, map};
ghost use Rattle.run_script.specs.Givens.{pair_of};
ghost use Rattle.run_script.specs.Scripts.{Went, no_script, with_item, is_skipped, with_said, line_onto, script_of, Reads};

use crate::givens::{Pair, give};
use crate::item::{Item, line_item};
use crate::pieces::cut;
use indexmap::IndexSet;
use run_rules::Session;
use std::alloc::Global;
use wl_base::{OutOfMemory, Seq};

/// What a script says.
#[derive(Drop)]
pub struct Script {
    /// The calls, the answers, the pages of an imported memory and the first values of imported globals.
    pub session: Session,
    /// The entries of an imported table.
    pub entries: Option<u32>,
}

/// Why a text isn't read as a script.
#[derive(Clone, Copy, Debug, PartialEq, Eq)]
pub enum ScriptError {
    /// The first line that isn't of a script, counted from 1.
    BadScript(u64),
    /// Want of memory.
    OutOfMemory,
}

impl From<OutOfMemory> for ScriptError {
    ghost use Rattle.std.specs.Prelude.{◌≡◌};
    ghost use Rattle.run_script.specs.declared.script.ScriptError.TheVariants.{OutOfMemory as WantOfMemory};

    ghost from_gives = { λ _ e. e ≡ WantOfMemory };

    fn from(_: OutOfMemory) -> Self {
        ScriptError::OutOfMemory
    }
}

// The script without lines.
fn empty(alloc: Global) -> Script
    ensures { result ≡ no_script }
{
    Script {
        session: Session {
            calls: Seq::new(alloc),
            answers: Seq::new(alloc),
            pages: None,
            globals: Seq::new(alloc),
        },
        entries: None,
    }
}

// Adds what a line says; `false` where it may not be said again. The pairs are the imports of the globals so far.
#[tactic(auto, using(crate::proofs::Again::given_on))]
fn add(
    alloc: Global,
    script: &mut Script,
    pairs: &mut IndexSet<Pair>,
    item: Item,
) -> Result<bool, OutOfMemory>
    requires { pairs.old.keys ≡ map pair_of script.old.session.globals }
    ensures went { IfOk result (λ went. Went (with_item script.old item) went script.new) }
    ensures pairs { OnOk result (pairs.new.keys ≡ map pair_of script.new.session.globals) }
{
    match item {
        Item::Pages(n) => {
            if script.session.pages.is_some() {
                return Ok(false);
            }
            script.session.pages = Some(n);
        }
        Item::Entries(n) => {
            if script.entries.is_some() {
                return Ok(false);
            }
            script.entries = Some(n);
        }
        Item::First(global) => {
            let went = give(alloc, &mut script.session.globals, pairs, global)?;
            return Ok(went);
        }
        Item::Calls(call) => script.session.calls.push(call)?,
        Item::Answers(answer) => script.session.answers.push(answer)?,
    }
    Ok(true)
}

// Whether a line says nothing: it is empty or begins with `#`.
fn is_skipped(line: &[u8]) -> bool
    ensures { result ≡ is_skipped line.now }
{
    match line {
        [] => true,
        [byte, ..] => *byte == b'#',
    }
}

// Adds what a line says, where it says something.
fn add_said(
    alloc: Global,
    script: &mut Script,
    pairs: &mut IndexSet<Pair>,
    item: Option<Item>,
) -> Result<bool, OutOfMemory>
    requires { pairs.old.keys ≡ map pair_of script.old.session.globals }
    ensures went { IfOk result (λ went. Went (with_said script.old item) went script.new) }
    ensures pairs { OnOk result (pairs.new.keys ≡ map pair_of script.new.session.globals) }
{
    match item {
        None => Ok(false),
        Some(item) => add(alloc, script, pairs, item),
    }
}

// Adds a line; `false` where it isn't of a script.
fn add_line(
    alloc: Global,
    script: &mut Script,
    pairs: &mut IndexSet<Pair>,
    line: &[u8],
) -> Result<bool, OutOfMemory>
    requires { pairs.old.keys ≡ map pair_of script.old.session.globals }
    ensures went { IfOk result (λ went. Went (line_onto script.old line.now) went script.new) }
    ensures pairs { OnOk result (pairs.new.keys ≡ map pair_of script.new.session.globals) }
{
    if is_skipped(line) {
        return Ok(true);
    }
    let words = cut(alloc, b' ', line)?;
    let item = line_item(alloc, words.as_slice())?;
    add_said(alloc, script, pairs, item)
}

/// What a script says.
///
/// # Errors
/// `BadScript(n)` exactly where line n, from 1, is the first that isn't of a script; want of memory.
#[tactic(auto, unfolding(crate::specs::Scripts::script_of))]
pub fn read_script(alloc: Global, text: &[u8]) -> Result<Script, ScriptError>
    ensures { Reads result (script_of text.now) }
{
    let mut script = empty(alloc);
    let mut pairs = IndexSet::new(alloc);
    let lines = cut(alloc, b'\n', text)?;
    for (k, line) in lines.as_slice().iter().enumerate() {
        if !add_line(alloc, &mut script, &mut pairs, line)? {
            return Err(ScriptError::BadScript(k as u64 + 1));
        }
    }
    Ok(script)
}
