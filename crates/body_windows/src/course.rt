//! Where the quick pass over a body stands.
ghost use Rattle.std.specs.Prelude.{◌≡◌, ◌+◌, ◌<◌, ◌^◌};

/// Where the pass over instructions that are quick to tell stands.
#[derive(Clone, Copy)]
pub struct Course {
    /// The place, from the first byte.
    pub at: usize,
    /// How many numbers there were that the operands don't have yet.
    pub numbers: usize,
    /// A place before which no window begins.
    pub next: usize,
}

impl Course {
    /// The course at another place.
    #[inline(always)]
    pub fn moved(self, to: usize) -> Self
        ensures { result ≡ record self { at = to } }
    {
        Course {
            at: to,
            numbers: self.numbers,
            next: self.next,
        }
    }

    /// The course at another place, behind one number more.
    #[inline(always)]
    pub fn counted(self, to: usize) -> Self
        requires { self.numbers < 2 ^ 32 }
        ensures { result ≡ record { at = to; numbers = self.numbers + 1; next = self.next } }
    {
        Course {
            at: to,
            numbers: self.numbers + 1,
            next: self.next,
        }
    }
}
