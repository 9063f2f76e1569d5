//! How a run ended.

/// Why nothing is run.
#[derive(Clone, Copy, Debug, PartialEq, Eq)]
pub enum RunFault {
    /// The bytes spell no module (Core 5.5).
    NotModule,
    /// The line of this number, from 1, is the first that isn't of a script.
    BadScript(u64),
    /// The segment of this number is the first that doesn't fit the first table or memory, or has no offset. Element segments come first, and
    /// count from 0.
    SegmentBounds(u64),
}

/// How the command ended.
#[derive(Clone, Copy, Debug, PartialEq, Eq)]
pub enum RunStatus {
    /// The module was run, and the text of its trace is written.
    Ran,
    /// Nothing is run.
    Refused(RunFault),
    /// The words are none of the program's.
    Usage,
    /// The load of the module (0) or of the script (1) failed.
    ReadFault(u32),
    /// The write of the text failed.
    WriteFault,
    /// Want of memory.
    NoMemory,
}

impl RunStatus {
    ghost use Rattle.std.specs.Prelude.{◌≡◌};
    ghost use Rattle.wasm_exec.specs.Command.{code_of};

    /// The exit status of the program.
    pub fn code(self) -> u8
        ensures { result ≡ code_of self }
    {
        match self {
            RunStatus::Ran => 0,
            RunStatus::Refused(_) => 1,
            RunStatus::Usage => 2,
            RunStatus::ReadFault(_) => 3,
            RunStatus::WriteFault => 4,
            RunStatus::NoMemory => 5,
        }
    }
}

/// Why there is no text of a trace.
#[derive(Clone, Copy, Debug, PartialEq, Eq)]
pub enum RunError {
    /// Nothing is run.
    Refused(RunFault),
    /// Want of memory.
    OutOfMemory,
}

impl From<wl_base::OutOfMemory> for RunError {
    ghost use Rattle.std.specs.Prelude.{◌≡◌};
    ghost use Rattle.wasm_exec.specs.declared.status.RunError.TheVariants.{OutOfMemory as WantOfMemory};

    ghost from_gives = { λ _ e. e ≡ WantOfMemory };

    fn from(_: wl_base::OutOfMemory) -> Self {
        RunError::OutOfMemory
    }
}
