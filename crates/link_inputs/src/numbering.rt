//! The inputs are numbered, from 1 on, over the objects of the words and the members of libraries.
ghost use Rattle.std.specs.Prelude.{◌≡◌, ◌<◌, ◌^◌, ◌++◌, length, OnOk, IfOk};
ghost use Rattle.link_inputs.specs.declared.opening.OpenFile.TheVariants as files;
ghost use Rattle.link_inputs.specs.Opened.{input_count};
ghost use Rattle.link_inputs.specs.Sources.{homes_in, IsAdded, AreSources};

use crate::limits::inputs_in;
use crate::opening::OpenFile;
use lib_index::Library;
use lib_rounds::LibraryFile;
use link_plan::InputWord;
use link_program::Home;
use std::alloc::Global;
use wl_base::{InputId, OutOfMemory, Seq};

/// An object of the words.
#[derive(Clone, Copy, Debug, PartialEq, Eq)]
pub struct ObjectFile {
    /// The place of its file among the files.
    pub file: u32,
    pub input: InputId,
    /// Whether it is loaded only by need, as between `--start-lib` and `--end-lib`.
    pub lazy: bool,
}

/// What the files hold, each part by rising input.
#[derive(Drop)]
pub struct Sources {
    pub objects: Seq<ObjectFile>,
    pub libraries: Seq<LibraryFile>,
    /// Where each input stands.
    pub homes: Seq<Home>,
}

/// Adds where the members of a library stand.
fn add_homes(homes: &mut Seq<Home>, file: u32, library: &Library) -> Result<(), OutOfMemory>
    ensures { OnOk result (homes.new ≡ homes.old ++ homes_in file (files.Library library.now)) }
{
    for member in 0..library.count() {
        let span = library.member(member);
        homes.push(Home {
            file,
            start: span.start,
            len: span.len,
        })?;
    }
    Ok(())
}

/// Adds a file, with its word and its first input.
fn add(
    sources: &mut Sources,
    file: u32,
    input: InputId,
    word: InputWord,
    opened: OpenFile,
) -> Result<(), OutOfMemory>
    ensures { OnOk result (IsAdded file input word opened sources.old sources.new) }
{
    match opened {
        OpenFile::Object { len } => {
            sources.objects.push(ObjectFile {
                file,
                input,
                lazy: word.lazy,
            })?;
            sources.homes.push(Home {
                file,
                start: 0,
                len,
            })?;
        }
        OpenFile::Library(library) => {
            add_homes(&mut sources.homes, file, &library)?;
            sources.libraries.push(LibraryFile {
                file,
                first: input,
                whole: word.whole,
                library,
            })?;
        }
    }
    Ok(())
}

/// Numbers the inputs of the files.
pub fn number_inputs(
    alloc: Global,
    words: &[InputWord],
    opened: Seq<OpenFile>,
) -> Result<Sources, OutOfMemory>
    requires same { length opened ≡ length words.now }
    requires words { length words.now < 2 ^ 32 }
    requires few { input_count opened < 2 ^ 20 }
    ensures { IfOk result (λ s. AreSources words.now opened s) }
{
    let mut sources = Sources {
        objects: Seq::new(alloc),
        libraries: Seq::new(alloc),
        homes: Seq::new(alloc),
    };
    let mut left = opened.into_vec().into_iter();
    let mut file = 0;
    let mut input = 1;
    while let Some(opened) = left.next() {
        let count = inputs_in(&opened) as u32;
        add(&mut sources, file, input, words[file as usize], opened)?;
        file += 1;
        input += count;
    }
    Ok(sources)
}
