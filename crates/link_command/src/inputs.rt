//! What is linked: the input files, or the generated case.
ghost use Rattle.std.specs.Prelude.{◌≡◌, ◌<◌, ◌≤◌, IsTrue, IfOk, IfErr, IfSome, All, Some, length, unwrap_or};
ghost use Rattle.wl_outside.specs.Shelf.{Same, Grows};
ghost use Rattle.link_command.specs.Command.{IsTold, contents, files_of, input_names, taken as taken_of};

use case_objects::make_case;
use library_indexer::with_indexes;
use link_words::Plan;
use std::alloc::Global;
use wl_base::{OutOfMemory, Seq, Text};
use wl_outside::{LoadFault, Shelf};

/// Why there are no files to be linked.
#[derive(Drop)]
pub enum ReadError {
    /// The input of the word at this place can't be read.
    Failed(u32),
    /// Memory was refused.
    OutOfMemory,
}

impl From<OutOfMemory> for ReadError {
    ghost use Rattle.std.specs.Prelude.{◌≡◌};
    ghost use Rattle.link_command.specs.declared.inputs.ReadError.TheVariants.{OutOfMemory as WantOfMemory};

    ghost from_gives = { λ _ e. e ≡ WantOfMemory };

    fn from(_: OutOfMemory) -> Self {
        ReadError::OutOfMemory
    }
}

ghost use Rattle.link_command.specs.ReadCause.{ReadCause};

/// The files that are linked: those of the input words, or with a generated case its objects, where nothing is loaded.
#[tactic(auto, using(crate::proofs::Loads::taken_is))]
pub fn files<F: Shelf>(
    alloc: Global,
    plan: &Plan,
    words: &[Text],
    shelf: &mut F,
) -> Result<Seq<Seq<u8>>, ReadError>
    requires places { All (λ i. i.place < length words.now) plan.now.inputs }
    requires case { IfSome plan.now.make_case (λ n. (1 ≤ n) × (n ≤ 20000)) }
    ensures count { IfOk result (λ files. length files ≡ unwrap_or plan.now.make_case (length plan.now.inputs)) }
    ensures files { IfOk result (λ files. IsTold plan.now.make_case (F.shown shelf.old)
        → files_of plan.now.make_case (F.shown shelf.old) words.now plan.now ≡ Some files) }
    ensures held { Same (F.shown shelf.old) (F.shown shelf.new) }
    ensures counts { Grows (F.shown shelf.old) (F.shown shelf.new) }
    ensures cause { IfErr result (λ e. ReadCause e (F.shown shelf.old) (F.shown shelf.new) words.now plan.now) }
{
    match plan.make_case {
        Some(n) => Ok(make_case(alloc, n)?),
        None => {
            let files = load_inputs(alloc, plan, words, shelf)?;
            Ok(taken(alloc, plan.like_lld, files)?)
        }
    }
}

// The files as the link takes them: one that is like lld's completes a library without an index.
fn taken(alloc: Global, like_lld: bool, files: Seq<Seq<u8>>) -> Result<Seq<Seq<u8>>, OutOfMemory>
    ensures files { IfOk result (λ all. all ≡ taken_of like_lld files) }
    ensures count { IfOk result (λ all. length all ≡ length files) }
{
    if like_lld {
        return with_indexes(alloc, files);
    }
    Ok(files)
}

// Loads each input whole, in the order of the words.
fn load_inputs<F: Shelf>(
    alloc: Global,
    plan: &Plan,
    words: &[Text],
    shelf: &mut F,
) -> Result<Seq<Seq<u8>>, ReadError>
    requires { All (λ i. i.place < length words.now) plan.now.inputs }
    ensures count { IfOk result (λ files. length files ≡ length plan.now.inputs) }
    ensures files { IfOk result (λ files. IsTrue (F.shown shelf.old).tells
        → contents (F.shown shelf.old).held (input_names words.now plan.now) ≡ Some files) }
    ensures held { Same (F.shown shelf.old) (F.shown shelf.new) }
    ensures counts { Grows (F.shown shelf.old) (F.shown shelf.new) }
    ensures cause { IfErr result (λ e. ReadCause e (F.shown shelf.old) (F.shown shelf.new) words.now plan.now) }
{
    let mut files = Seq::new(alloc);
    for input in plan.inputs.as_slice() {
        match shelf.load(alloc, words[input.place as usize].as_str()) {
            Ok(bytes) => files.push(bytes)?,
            Err(LoadFault::Failed) => return Err(ReadError::Failed(input.place)),
            Err(LoadFault::OutOfMemory) => return Err(ReadError::OutOfMemory),
        }
    }
    Ok(files)
}
