//! The names of inputs, for lines: what was linked is read again, on the way to an error alone.

ghost use Rattle.std.specs.Prelude.{◌≡◌, ◌<◌, ◌⊎◌, [], All, IfOk, IsTrue, Some, None, length};
ghost use Rattle.std.specs.Option.{option_map};
ghost use Rattle.wl_outside.specs.Shelf.{Same, Grows};
ghost use Rattle.link_command.specs.Command.{contents, input_names as words_of_inputs};
ghost use Rattle.driver_command.specs.Named.{names_held};

use driver_lines::input_names;
use library_indexer::with_indexes;
use link_plan::Plan;
use std::alloc::Global;
use wl_base::{OutOfMemory, Seq, Text};
use wl_outside::{LoadFault, Shelf};

/// What the lines of a refused link call its files and inputs. Where memory is refused or a file can't be loaded again, names are lacking.
#[derive(Drop)]
pub struct Names {
    /// The files of the input words.
    pub files: Seq<Text>,
    /// All inputs: files that are objects, and members of libraries.
    pub inputs: Seq<Text>,
}

// The files of the input words.
fn input_words(alloc: Global, plan: &Plan, own: &[Text]) -> Result<Seq<Text>, OutOfMemory>
    requires { All (λ i. i.place < length own.now) plan.now.inputs }
    ensures { IfOk result (λ names. names ≡ words_of_inputs own.now plan.now) }
{
    let mut names = Seq::new(alloc);
    for input in plan.inputs.as_slice() {
        let word = own[input.place as usize].as_str();
        names.push(Text::new(alloc, word)?)?;
    }
    Ok(names)
}

// What the files hold.
fn load_again<F: Shelf>(
    alloc: Global,
    files: &[Text],
    shelf: &mut F,
) -> Result<Seq<Seq<u8>>, LoadFault>
    ensures held { IfOk result (λ all. IsTrue (F.shown shelf.old).tells → contents (F.shown shelf.old).held files.now ≡ Some all) }
    ensures same { Same (F.shown shelf.old) (F.shown shelf.new) }
    ensures counts { Grows (F.shown shelf.old) (F.shown shelf.new) }
{
    let mut held = Seq::new(alloc);
    for file in files {
        held.push(shelf.load(alloc, file.as_str())?)?;
    }
    Ok(held)
}

// The names of all inputs of the files.
#[tactic(auto, using(crate::proofs::Taken::named))]
fn names_of<F: Shelf>(alloc: Global, files: &[Text], shelf: &mut F) -> Result<Seq<Text>, LoadFault>
    ensures names { IfOk result (λ names. IsTrue (F.shown shelf.old).tells → names_held (F.shown shelf.old).held files.now ≡ Some names) }
    ensures same { Same (F.shown shelf.old) (F.shown shelf.new) }
    ensures counts { Grows (F.shown shelf.old) (F.shown shelf.new) }
{
    let held = with_indexes(alloc, load_again(alloc, files, shelf)?)?;
    Ok(input_names(alloc, files, held.as_slice())?)
}

/// The names of what a plan of these words links.
pub fn names_again<F: Shelf>(alloc: Global, plan: &Plan, own: &[Text], shelf: &mut F) -> Names
    requires { All (λ i. i.place < length own.now) plan.now.inputs }
    ensures files { (result.files ≡ words_of_inputs own.now plan.now) ⊎ (result.files ≡ []) }
    ensures inputs { IsTrue (F.shown shelf.old).tells
        → (names_held (F.shown shelf.old).held (words_of_inputs own.now plan.now) ≡ Some result.inputs) ⊎ (result.inputs ≡ []) }
    ensures same { Same (F.shown shelf.old) (F.shown shelf.new) }
    ensures counts { Grows (F.shown shelf.old) (F.shown shelf.new) }
{
    let Ok(files) = input_words(alloc, plan, own) else {
        return Names {
            files: Seq::new(alloc),
            inputs: Seq::new(alloc),
        };
    };
    let inputs = match names_of(alloc, files.as_slice(), shelf) {
        Ok(inputs) => inputs,
        Err(_) => Seq::new(alloc),
    };
    Names { files, inputs }
}

/// The name of the entry, where there is one.
pub fn entry_of(plan: &Plan) -> Option<&str>
    ensures { (option_map (λ n. n.now) result ≡ plan.now.entry) ⊎ (option_map (λ n. n.now) result ≡ None) }
{
    match &plan.entry {
        Some(name) => std::str::from_utf8(name.as_slice()).ok(),
        None => None,
    }
}
