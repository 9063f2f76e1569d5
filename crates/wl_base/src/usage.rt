//! Why the words of a command line have no plan.

/// The first fault of the words. `at` is the place of a word, counted from 0; the word is that of the
/// option, also where its value is the next one.
#[derive(Clone, Copy, Debug, PartialEq, Eq)]
pub enum Usage {
    /// The word is no option that there is, or gives a value to an option that takes none.
    UnknownOption { at: u32 },
    /// The words end where a value is due.
    MissingValue { at: u32 },
    /// The value isn't a number of the form and range that the option asks for.
    BadNumber { at: u32 },
    /// The value isn't a number of workers.
    BadThreads { at: u32 },
    /// A group of lazy objects is opened in a group, closed outside of one, or left open.
    OpenGroup { at: u32 },
    /// There is an input beside a generated case.
    CaseAndInput,
    /// There is neither an input nor a generated case.
    NoInput,
    /// There is no output.
    NoOutput,
    /// A partial link stands beside a shared output or a generated case.
    PartialClash,
}
