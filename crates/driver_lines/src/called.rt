//! How inputs and files are called in lines.
ghost use Rattle.std.specs.Prelude.{◌≡◌};
ghost use Rattle.driver_lines.specs.Called.{called_texts, called_by, called_input, called_file};

use link_lines::Piece::{self, Index, Text as Plain};
use wl_base::{InputId, Text};

/// Who speaks, and how files and inputs are called.
#[derive(Clone, Copy)]
pub struct Naming<'a> {
    /// The last part of the program's own name, as `wasm-ld`.
    pub program: &'a str,
    /// The entry that the link asks for, where it asks for one.
    pub entry: Option<&'a str>,
    /// The names of the inputs from input 1 on, as `input_names` gives them; an input beyond them is
    /// called `input` and its number.
    pub inputs: &'a [Text],
    /// The names of the files among the input words; a file beyond them is called `input file` and its
    /// place.
    pub files: &'a [Text],
}

/// How an input or a file is called: by its name, or by its number behind a word.
#[derive(Clone, Copy)]
pub struct Called<'a> {
    pub front: &'static str,
    pub name: Piece<'a>,
}

// What has this name.
fn named(name: &Text) -> Called<'_>
    ensures { called_texts result ≡ called_by name.now }
{
    Called {
        front: "",
        name: Plain(name.as_str()),
    }
}

/// How an input is called. Input 0 is the linker itself.
pub fn called_input<'a>(inputs: &'a [Text], input: InputId) -> Called<'a>
    ensures { called_texts result ≡ called_input inputs.now input }
{
    if input == 0 {
        return Called {
            front: "",
            name: Plain("<internal>"),
        };
    }
    match inputs.get(input as usize - 1) {
        Some(name) => named(name),
        None => Called {
            front: "input ",
            name: Index(input),
        },
    }
}

/// How the file at a place among the input words is called.
pub fn called_file<'a>(files: &'a [Text], place: u32) -> Called<'a>
    ensures { called_texts result ≡ called_file files.now place }
{
    match files.get(place as usize) {
        Some(name) => named(name),
        None => Called {
            front: "input file ",
            name: Index(place),
        },
    }
}
