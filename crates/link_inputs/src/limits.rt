//! How much is given.
ghost use Rattle.std.specs.Prelude.{◌≡◌, ◌<◌, ◌-◌, ◌^◌, min};
ghost use Rattle.link_program.specs.link_rules.Candidates.{total_len};
ghost use Rattle.link_inputs.specs.Opened.{count_in, input_count};

use crate::opening::OpenFile;
use wl_base::Seq;

/// How many bytes the files have together, or 2^64 - 1 where that is greater.
pub fn total_len(files: &[Seq<u8>]) -> u64
    ensures { result ≡ min (total_len files.now) (2 ^ 64 - 1) }
{
    let mut total: u64 = 0;
    for file in files {
        total = total.saturating_add(file.len() as u64);
    }
    total
}

/// How many inputs a file is.
pub fn inputs_in(file: &OpenFile) -> u64
    ensures { result ≡ count_in file.now }
{
    match file {
        OpenFile::Object { len: _ } => 1,
        OpenFile::Library(library) => u64::from(library.count()),
    }
}

/// How many inputs the files are.
pub fn count_inputs(opened: &[OpenFile]) -> u64
    requires { input_count opened.now < 2 ^ 64 }
    ensures { result ≡ input_count opened.now }
{
    let mut count = 0;
    for file in opened {
        count += inputs_in(file);
    }
    count
}
