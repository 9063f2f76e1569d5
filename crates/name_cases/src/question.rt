//! What is asked of the entries of a name.

/// Which cases are looked for.
#[derive(Clone, Copy, Debug)]
pub(crate) enum Question {
    /// Entries that differ in kind, type or import.
    Clashes,
    /// Strong definitions behind another one.
    Duplicates,
    /// Entries that name different imports themselves.
    Imports,
    /// Entries that differ in kind or type from the definition, where there is one; functions that are no definitions may differ in type.
    Judged,
    /// Functions that are no definitions and have another type than the definition.
    Mismatches,
    /// Definitions, of which the least is looked up for the two questions before.
    Definitions,
}
