//! The answer of the program.
ghost use Rattle.std.specs.Prelude.{◌≡◌};
ghost use Rattle.link_command.specs.Status.{code_of};

use wl_base::{Fault, Usage};

/// How the work ended.
#[derive(Debug, PartialEq, Eq, Drop)]
pub enum Status {
    /// The output is saved.
    Linked,
    /// The link is refused. Nothing is saved.
    Refused(Fault),
    /// The words have no plan. Nothing is read.
    Usage(Usage),
    /// The input of the word at this place can't be read. Nothing is saved.
    ReadFault(u32),
    /// The output can't be written. It holds its old content or a prefix of the new.
    WriteFault,
    /// Memory was refused. Nothing is saved.
    NoMemory,
}

impl Status {
    /// The program's exit status.
    pub fn code(&self) -> u8
        ensures { result ≡ code_of self.now }
    {
        match self {
            Status::Linked => 0,
            Status::Refused(_) => 1,
            Status::Usage(_) => 2,
            Status::ReadFault(_) => 3,
            Status::WriteFault => 4,
            Status::NoMemory => 5,
        }
    }
}
