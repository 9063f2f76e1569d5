//! What a word says.
ghost use Rattle.std.specs.Prelude.{◌≡◌};
ghost use Rattle.link_words.specs.Kinds.{same};

/// What an item says: an input, `--`, or one of the options.
#[derive(Clone, Copy, Debug)]
pub enum Kind {
    /// A word that is an input.
    Input,
    /// `--`: every word that follows is an input.
    OnlyInputs,
    /// `-o`.
    Output,
    /// `--entry`.
    Entry,
    /// `--no-entry`.
    NoEntry,
    /// `--export`.
    Export,
    /// `--export-table`.
    ExportTable,
    /// `--export-if-defined`.
    ExportIfDefined,
    /// `--export-dynamic`.
    ExportDynamic,
    /// `--allow-undefined`.
    AllowUndefined,
    /// `-u`.
    Wanted,
    /// `--global-base`.
    GlobalBase,
    /// `--stack-first`.
    StackFirst,
    /// `-z stack-size`.
    StackSize,
    /// `--initial-memory`.
    InitialMemory,
    /// `--max-memory`.
    MaxMemory,
    /// `--import-memory`.
    ImportMemory,
    /// `--gc-sections`.
    GcSections,
    /// `--no-gc-sections`.
    NoGcSections,
    /// `--whole-archive`.
    WholeArchive,
    /// `--no-whole-archive`.
    NoWholeArchive,
    /// `--start-lib`.
    StartLib,
    /// `--end-lib`.
    EndLib,
    /// `--threads`.
    Threads,
    /// `--make-case`.
    MakeCase,
    /// `--validate`.
    Validate,
    /// `--keep-debug`.
    KeepDebug,
    /// `-r`.
    Partial,
    /// `-shared`.
    Shared,
    /// `-m wasm32` and the options to strip, which have no effect.
    Accepted,
}

impl Kind {
    /// Whether the two kinds are one.
    pub fn is(self, other: Kind) -> bool
        ensures { result ≡ same self other }
    {
        self as u8 == other as u8
    }
}
