//! Named contents.
ghost use Rattle.std.specs.Prelude.{◌≡◌, ◌≢◌, ◌↔◌, ◌<◌, ℕ, length, slice_index_or, Any, IsTrue, IsFalse};
ghost use Rattle.wl_outside.specs.declared.held.Held.{Held as AHeld};
ghost use Rattle.wl_outside.specs.Held.{NamesDiffer};

use wl_base::{Seq, Text};

/// A name and what it holds.
#[derive(Debug, Drop)]
pub struct Held {
    pub name: Text,
    pub bytes: Seq<u8>,
}

/// Whether no two have the same name, as the shelves in memory ask. It compares each with all before it.
pub fn names_differ(files: &[Held]) -> bool
    ensures { IsTrue result ↔ NamesDiffer files.now }
{
    for (place, file) in files.iter().enumerate() {
        if has_name(&files[..place], file.name.as_str()) {
            return false;
        }
    }
    true
}

// Whether one of the files has the name.
fn has_name(files: &[Held], name: &str) -> bool
    ensures yes { IsTrue result → Any (λ file. file.name ≡ name.now) files.now }
    ensures no { IsFalse result → (k : ℕ) (d : AHeld) → k < length files.now → (slice_index_or files.now k d).name ≢ name.now }
{
    files.iter().any(|file| file.name.as_str() == name)
}
