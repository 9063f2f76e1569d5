//! A program's own words, as the system gives them.
ghost use Rattle.std.specs.Prelude.{◌<◌, ◌^◌, IfOk, length};

use std::alloc::Global;
use std::env::Args;
use std::io;
use std::io::ErrorKind;
use wl_base::{OutOfMemory, Seq, Text};

// More words than places have.
const MOST_WORDS: usize = u32::MAX as usize;

/// Why the words can't be had.
#[derive(Drop)]
pub enum WordsFault {
    /// A word isn't UTF-8.
    NotText,
    /// There are 2^32 words or more.
    TooMany,
    /// The system gave no memory for them.
    OutOfMemory,
}

impl WordsFault {
    /// What is wrong, in a few words.
    pub fn text(&self) -> &'static str {
        match self {
            WordsFault::NotText => "a word is not UTF-8",
            WordsFault::TooMany => "too many words",
            WordsFault::OutOfMemory => "out of memory",
        }
    }

    /// The exit status of a program with such words.
    pub fn code(&self) -> u8 {
        match self {
            WordsFault::NotText | WordsFault::TooMany => 2,
            WordsFault::OutOfMemory => 5,
        }
    }
}

fn not_had(error: io::Error) -> WordsFault {
    match error.kind() {
        ErrorKind::OutOfMemory => WordsFault::OutOfMemory,
        _ => WordsFault::NotText,
    }
}

fn out_of_memory(_: OutOfMemory) -> WordsFault {
    WordsFault::OutOfMemory
}

/// The words behind the program's name, fewer than 2^32.
pub fn words_of(alloc: Global, args: io::Result<Args<Global>>) -> Result<Seq<Text>, WordsFault>
    ensures { IfOk result (λ words. length words < 2 ^ 32) }
{
    let mut words = Seq::new(alloc);
    for word in args.map_err(not_had)?.skip(1) {
        words.push(Text::from_string(word)).map_err(out_of_memory)?;
    }
    if words.len() > MOST_WORDS {
        return Err(WordsFault::TooMany);
    }
    Ok(words)
}
