//! What an option means.
ghost use Rattle.std.specs.Prelude.{◌≡◌};
ghost use Rattle.driver_table.specs.Meanings.{code as code_of, same};

/// What a word of a driver means.
#[derive(Clone, Copy, Debug)]
pub enum Meaning {
    /// A word that is an input.
    Input,
    /// Nothing: the module is the same without it, or it is refused for another reason.
    Drop,
    /// Something that isn't made; the module is the same without it.
    Warn,
    /// Something without which the module would be another one.
    Refuse,
    /// The output's name.
    Output,
    /// The entry.
    Entry,
    /// There is no entry.
    NoEntry,
    /// A name to export.
    Export,
    /// A name to export where it is defined.
    ExportIfDefined,
    /// A name that is to be loaded.
    Undefined,
    /// All names are exported that objects leave visible.
    ExportDynamic,
    /// They aren't.
    NoExportDynamic,
    /// The table is exported.
    ExportTable,
    /// Undefined functions are imported, and a name to export may be absent.
    AllowUndefined,
    /// Undefined functions are imported.
    ImportUndefined,
    /// What nothing reaches is left out.
    GcSections,
    /// It isn't.
    NoGcSections,
    /// The stack stands before the data.
    StackFirst,
    /// It stands behind them.
    NoStackFirst,
    /// Where data begin.
    GlobalBase,
    /// The memory's least bytes.
    InitialMemory,
    /// The memory's most bytes.
    MaxMemory,
    /// The memory can't grow.
    NoGrowableMemory,
    /// The memory is imported.
    ImportMemory,
    /// The memory is imported under a name.
    ImportMemoryAs,
    /// The memory is exported.
    ExportMemory,
    /// The memory is exported under a name.
    ExportMemoryAs,
    /// The stack's bytes.
    StackSize,
    /// How many workers there are.
    Threads,
    /// How response files are quoted.
    Quoting,
    /// All members of the libraries that follow are loaded.
    WholeArchive,
    /// They aren't.
    NoWholeArchive,
    /// The inputs that follow are a library.
    StartLib,
    /// They aren't.
    EndLib,
    /// A library, by its name.
    Library,
    /// A folder of libraries.
    Folder,
    /// A shared module.
    Shared,
    /// An object as the output.
    Relocatable,
    /// Warnings are errors.
    FatalWarnings,
    /// They aren't.
    NoFatalWarnings,
    /// Where the table begins.
    TableBase,
    /// The bytes of a page.
    PageSize,
    /// The heap's least bytes.
    InitialHeap,
    /// The version is asked for.
    Version,
    /// The help is asked for.
    Help,
    /// What becomes of unresolved names.
    Unresolved,
    /// The target.
    Machine,
    /// A value of `-z` that isn't known.
    Z,
    /// All sections for tools are left out: debug sections, names and features.
    StripAll,
    /// Debug sections are left out.
    StripDebug,
    /// A section that is kept where all are left out.
    KeepSection,
    /// Objects whose features don't agree are refused.
    CheckFeatures,
    /// They aren't.
    NoCheckFeatures,
    /// The features that the module may use.
    Features,
    /// Features that the module has beside those of its objects.
    ExtraFeatures,
}

impl Meaning {
    // Its number.
    fn code(self) -> u8
        ensures { result ≡ code_of self }
    {
        self as u8
    }

    /// Whether the two are one.
    pub fn is(self, other: Meaning) -> bool
        ensures { result ≡ same self other }
    {
        self.code() == other.code()
    }
}
