//! A shelf that can be asked what it has.
ghost use Rattle.std.specs.Prelude.{◌≡◌, IsTrue, option_copied};
ghost use Rattle.driver_words.specs.Search.{holds as holds_of, begins_with as begins_with_of};

use wl_outside::{MemShelf, NeverFails, Shelf};

/// A shelf that tells whether a name holds anything. A search asks for many files and loads none.
pub trait Finder: Shelf {
    /// Whether the name holds bytes. It changes nothing.
    fn holds(&self, name: &str) -> bool
        ensures told { IsTrue (Self.shown self.now).tells → result ≡ holds_of (Self.shown self.now) name.now };

    /// Whether the name holds bytes that begin with these. It changes nothing, and reads no more than it has to.
    fn begins_with(&self, name: &str, front: &[u8]) -> bool
        ensures told { IsTrue (Self.shown self.now).tells → result ≡ begins_with_of ((Self.shown self.now).held name.now) front.now };
}

// Whether there are bytes that begin with these.
fn begin(bytes: Option<&[u8]>, front: &[u8]) -> bool
    ensures { result ≡ begins_with_of (option_copied bytes.entry) front.now }
{
    match bytes {
        Some(bytes) => bytes.starts_with(front),
        None => false,
    }
}

impl Finder for MemShelf {
    fn holds(&self, name: &str) -> bool {
        self.held(name).is_some()
    }

    fn begins_with(&self, name: &str, front: &[u8]) -> bool {
        begin(self.held(name), front)
    }
}

impl Finder for NeverFails {
    fn holds(&self, name: &str) -> bool {
        self.held(name).is_some()
    }

    fn begins_with(&self, name: &str, front: &[u8]) -> bool {
        begin(self.held(name), front)
    }
}
