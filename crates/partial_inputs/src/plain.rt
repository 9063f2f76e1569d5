//! What a partial link joins are plain objects: a library, and an object that would be loaded by need, are refused.
ghost use Rattle.std.specs.Prelude.{◌≡◌, ◌<◌, ◌^◌, [], ◌∷◌, length};
ghost use Rattle.link_program.specs.link_rules.Candidates.{is_library, too_much_input};
ghost use Rattle.partial_rules.specs.PartialLink.{first_not_plain};
ghost use Rattle.partial_inputs.specs.Refused.{refused_inputs};

use lib_index::has_magic;
use link_inputs::total_len;
use link_plan::InputWord;
use wl_base::{Fault, Seq};

/// So many bytes are too many, over all files.
const TOO_MANY_BYTES: u64 = 1 << 32;

/// Whether a file is a library: it begins with one of the two magics of `ar`.
fn is_library(bytes: &[u8]) -> bool
    ensures { result ≡ is_library bytes.now }
{
    has_magic(bytes)
}

/// The place of the first input that is a library or stands between `--start-lib` and `--end-lib`. `files` has the bytes of the inputs in
/// order.
fn first_not_plain(words: &[InputWord], files: &[Seq<u8>]) -> Option<u32>
    requires few { length words.now < 2 ^ 32 }
    ensures { result ≡ first_not_plain 0 words.now files.now }
{
    let mut left = words;
    let mut behind = files;
    let mut file: u32 = 0;
    while let [word, next_words @ ..] = left {
        let [bytes, next_files @ ..] = behind else {
            return None;
        };
        if word.lazy || is_library(bytes.as_slice()) {
            return Some(file);
        }
        left = next_words;
        behind = next_files;
        file += 1;
    }
    None
}

/// Why the inputs of a partial link are refused before any is read, if they are: they have too many bytes, or one isn't a plain object.
pub fn refused_inputs(words: &[InputWord], files: &[Seq<u8>]) -> Option<Fault>
    requires few { length words.now < 2 ^ 32 }
    ensures { result ≡ refused_inputs words.now files.now }
{
    let len = total_len(files);
    if len >= TOO_MANY_BYTES {
        return Some(Fault::TooMuchInput { len });
    }
    let file = first_not_plain(words, files)?;
    Some(Fault::NotPartial { file })
}
