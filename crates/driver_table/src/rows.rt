//! The tables of options.
ghost use Rattle.std.specs.Prelude.{◌≡◌, Some};
ghost use Rattle.std.specs.Option.{option_map};
ghost use Rattle.driver_table.specs.Rows.{row_of, switches as rows_of_switches, marks as rows_of_marks, dropped as rows_dropped, dropped_more as more_rows_dropped, told as rows_told, either as rows_of_either, equals as rows_of_equals, alone_row as alone_row_of, equals_row as equals_row_of, meant as meaning_of, letter_of};

use crate::meaning::Meaning;
use crate::texts::strip;

/// With how many dashes an option is written.
#[derive(Clone, Copy, Debug)]
pub enum Dashes {
    /// With one.
    One,
    /// With two.
    Two,
    /// With one or two.
    Any,
}

/// What the table has of an option.
#[derive(Clone, Copy, Debug)]
pub struct Row {
    pub dashes: Dashes,
    pub meaning: Meaning,
}

// What a row has.
fn found(dashes: Dashes, meaning: Meaning) -> Option<Row>
    ensures { result ≡ Some (record { dashes = dashes; meaning = meaning }) }
{
    Some(Row { dashes, meaning })
}

// Switches that say something.
fn switches(name: &str) -> Option<Row>
    ensures { result ≡ row_of rows_of_switches name.now }
{
    match name {
        "E" => found(Dashes::One, Meaning::ExportDynamic),
        "export-dynamic" => found(Dashes::Any, Meaning::ExportDynamic),
        "no-export-dynamic" => found(Dashes::Any, Meaning::NoExportDynamic),
        "export-table" => found(Dashes::Two, Meaning::ExportTable),
        "allow-undefined" => found(Dashes::Any, Meaning::AllowUndefined),
        "import-undefined" => found(Dashes::Any, Meaning::ImportUndefined),
        "gc-sections" => found(Dashes::Any, Meaning::GcSections),
        "no-gc-sections" => found(Dashes::Any, Meaning::NoGcSections),
        "stack-first" => found(Dashes::Two, Meaning::StackFirst),
        "no-stack-first" => found(Dashes::Two, Meaning::NoStackFirst),
        "no-growable-memory" => found(Dashes::Two, Meaning::NoGrowableMemory),
        "import-memory" => found(Dashes::Two, Meaning::ImportMemory),
        "export-memory" => found(Dashes::Two, Meaning::ExportMemory),
        "no-entry" => found(Dashes::Two, Meaning::NoEntry),
        "fatal-warnings" => found(Dashes::Any, Meaning::FatalWarnings),
        "no-fatal-warnings" => found(Dashes::Any, Meaning::NoFatalWarnings),
        "check-features" => found(Dashes::Two, Meaning::CheckFeatures),
        "no-check-features" => found(Dashes::Two, Meaning::NoCheckFeatures),
        _ => None,
    }
}

// Words whose place counts, the other outputs, what is said in place of a link, and words that strip.
fn marks(name: &str) -> Option<Row>
    ensures { result ≡ row_of rows_of_marks name.now }
{
    match name {
        "whole-archive" => found(Dashes::Any, Meaning::WholeArchive),
        "no-whole-archive" => found(Dashes::Any, Meaning::NoWholeArchive),
        "start-lib" => found(Dashes::Any, Meaning::StartLib),
        "end-lib" => found(Dashes::Any, Meaning::EndLib),
        "shared" => found(Dashes::Any, Meaning::Shared),
        "relocatable" => found(Dashes::Any, Meaning::Relocatable),
        "r" => found(Dashes::One, Meaning::Relocatable),
        "version" => found(Dashes::Any, Meaning::Version),
        "v" => found(Dashes::One, Meaning::Version),
        "V" => found(Dashes::One, Meaning::Version),
        "help" => found(Dashes::Any, Meaning::Help),
        "strip-all" => found(Dashes::Any, Meaning::StripAll),
        "s" => found(Dashes::One, Meaning::StripAll),
        "strip-debug" => found(Dashes::Any, Meaning::StripDebug),
        "S" => found(Dashes::One, Meaning::StripDebug),
        _ => None,
    }
}

// Words that are dropped.
fn dropped(name: &str) -> Option<Row>
    ensures { result ≡ row_of rows_dropped name.now }
{
    match name {
        "Bstatic" => found(Dashes::Any, Meaning::Drop),
        "static" => found(Dashes::Any, Meaning::Drop),
        "dn" => found(Dashes::Any, Meaning::Drop),
        "non_shared" => found(Dashes::Any, Meaning::Drop),
        "Bdynamic" => found(Dashes::Any, Meaning::Drop),
        "dy" => found(Dashes::Any, Meaning::Drop),
        "call_shared" => found(Dashes::Any, Meaning::Drop),
        "Bsymbolic" => found(Dashes::Any, Meaning::Drop),
        "color-diagnostics" => found(Dashes::Any, Meaning::Drop),
        "no-color-diagnostics" => found(Dashes::Any, Meaning::Drop),
        "demangle" => found(Dashes::Any, Meaning::Drop),
        "no-demangle" => found(Dashes::Any, Meaning::Drop),
        "compress-relocations" => found(Dashes::Any, Meaning::Drop),
        "error-unresolved-symbols" => found(Dashes::Any, Meaning::Drop),
        "no-pie" => found(Dashes::Any, Meaning::Drop),
        "no-print-gc-sections" => found(Dashes::Any, Meaning::Drop),
        "disable-verify" => found(Dashes::Any, Meaning::Drop),
        "save-temps" => found(Dashes::Any, Meaning::Drop),
        _ => None,
    }
}

// More words that are dropped.
fn dropped_more(name: &str) -> Option<Row>
    ensures { result ≡ row_of more_rows_dropped name.now }
{
    match name {
        "verbose" => found(Dashes::Any, Meaning::Drop),
        "start-group" => found(Dashes::Any, Meaning::Drop),
        "end-group" => found(Dashes::Any, Meaning::Drop),
        "as-needed" => found(Dashes::Any, Meaning::Drop),
        "no-as-needed" => found(Dashes::Any, Meaning::Drop),
        "no-undefined" => found(Dashes::Any, Meaning::Drop),
        "(" => found(Dashes::One, Meaning::Drop),
        ")" => found(Dashes::One, Meaning::Drop),
        "no-shlib-sigcheck" => found(Dashes::Two, Meaning::Drop),
        "experimental-pic" => found(Dashes::Two, Meaning::Drop),
        "merge-data-segments" => found(Dashes::Two, Meaning::Drop),
        "no-merge-data-segments" => found(Dashes::Two, Meaning::Drop),
        "allow-multiple-definition" => found(Dashes::Two, Meaning::Drop),
        "no-allow-multiple-definition" => found(Dashes::Two, Meaning::Drop),
        "lto-debug-pass-manager" => found(Dashes::Two, Meaning::Drop),
        _ => None,
    }
}

// Words that are told of, and words that are refused.
fn told(name: &str) -> Option<Row>
    ensures { result ≡ row_of rows_told name.now }
{
    match name {
        "print-map" => found(Dashes::Any, Meaning::Warn),
        "trace" => found(Dashes::Any, Meaning::Warn),
        "print-gc-sections" => found(Dashes::Any, Meaning::Warn),
        "build-id" => found(Dashes::Any, Meaning::Warn),
        "warn-unresolved-symbols" => found(Dashes::Any, Meaning::Warn),
        "noinhibit-exec" => found(Dashes::Any, Meaning::Warn),
        "M" => found(Dashes::One, Meaning::Warn),
        "t" => found(Dashes::One, Meaning::Warn),
        "export-all" => found(Dashes::Two, Meaning::Refuse),
        "growable-table" => found(Dashes::Two, Meaning::Refuse),
        "import-table" => found(Dashes::Two, Meaning::Refuse),
        "shared-memory" => found(Dashes::Two, Meaning::Refuse),
        "emit-relocs" => found(Dashes::Any, Meaning::Refuse),
        "pie" => found(Dashes::Any, Meaning::Refuse),
        _ => None,
    }
}

// Options whose value stands behind `=` or in the next word.
fn either(name: &str) -> Option<Row>
    ensures { result ≡ row_of rows_of_either name.now }
{
    match name {
        "export" => found(Dashes::Any, Meaning::Export),
        "export-if-defined" => found(Dashes::Any, Meaning::ExportIfDefined),
        "undefined" => found(Dashes::Any, Meaning::Undefined),
        "entry" => found(Dashes::Any, Meaning::Entry),
        "threads" => found(Dashes::Any, Meaning::Threads),
        "rsp-quoting" => found(Dashes::Any, Meaning::Quoting),
        "library" => found(Dashes::Any, Meaning::Library),
        "library-path" => found(Dashes::Any, Meaning::Folder),
        "unresolved-symbols" => found(Dashes::Any, Meaning::Unresolved),
        "mllvm" => found(Dashes::Any, Meaning::Drop),
        "keep-section" => found(Dashes::Any, Meaning::KeepSection),
        "soname" => found(Dashes::Any, Meaning::Drop),
        "rpath" => found(Dashes::Any, Meaning::Drop),
        "error-limit" => found(Dashes::Two, Meaning::Drop),
        "thinlto-cache-policy" => found(Dashes::Two, Meaning::Drop),
        "Map" => found(Dashes::Any, Meaning::Warn),
        "trace-symbol" => found(Dashes::Any, Meaning::Warn),
        "reproduce" => found(Dashes::Two, Meaning::Warn),
        "allow-undefined-file" => found(Dashes::Any, Meaning::Warn),
        "wrap" => found(Dashes::Any, Meaning::Refuse),
        _ => None,
    }
}

// Options whose value stands behind `=` alone.
fn equals(name: &str) -> Option<Row>
    ensures { result ≡ row_of rows_of_equals name.now }
{
    match name {
        "global-base" => found(Dashes::Two, Meaning::GlobalBase),
        "initial-memory" => found(Dashes::Two, Meaning::InitialMemory),
        "max-memory" => found(Dashes::Two, Meaning::MaxMemory),
        "import-memory" => found(Dashes::Two, Meaning::ImportMemoryAs),
        "export-memory" => found(Dashes::Two, Meaning::ExportMemoryAs),
        "table-base" => found(Dashes::Two, Meaning::TableBase),
        "page-size" => found(Dashes::Two, Meaning::PageSize),
        "initial-heap" => found(Dashes::Two, Meaning::InitialHeap),
        "color-diagnostics" => found(Dashes::Any, Meaning::Drop),
        "features" => found(Dashes::Any, Meaning::Features),
        "extra-features" => found(Dashes::Any, Meaning::ExtraFeatures),
        "lto-partitions" => found(Dashes::Two, Meaning::Drop),
        "thinlto-cache-dir" => found(Dashes::Two, Meaning::Drop),
        "thinlto-jobs" => found(Dashes::Two, Meaning::Drop),
        "build-id" => found(Dashes::Any, Meaning::Warn),
        "why-extract" => found(Dashes::Two, Meaning::Warn),
        _ => None,
    }
}

// The row of an option that stands alone in its word.
#[tactic(auto, unfolding(crate::specs::Rows::alone_row))]
fn alone_row(name: &str) -> Option<Row>
    ensures { result ≡ alone_row_of name.now }
{
    if let Some(row) = switches(name) {
        return Some(row);
    }
    if let Some(row) = marks(name) {
        return Some(row);
    }
    if let Some(row) = dropped(name) {
        return Some(row);
    }
    if let Some(row) = dropped_more(name) {
        return Some(row);
    }
    told(name)
}

// The row of an option with its value behind `=`.
#[tactic(auto, unfolding(crate::specs::Rows::equals_row))]
fn equals_row(name: &str) -> Option<Row>
    ensures { result ≡ equals_row_of name.now }
{
    if let Some(row) = either(name) {
        return Some(row);
    }
    equals(name)
}

// What an option means that is written with two dashes, or with one.
fn meant(two: bool, row: Option<Row>) -> Option<Meaning>
    ensures { result ≡ meaning_of two row }
{
    let Some(Row { dashes, meaning }) = row else {
        return None;
    };
    match dashes {
        Dashes::One if two => None,
        Dashes::Two if !two => None,
        _ => Some(meaning),
    }
}

/// What an option means that stands alone in its word, with two dashes before its name, or with one.
pub fn alone(two: bool, name: &str) -> Option<Meaning>
    ensures { result ≡ meaning_of two (alone_row_of name.now) }
{
    meant(two, alone_row(name))
}

/// What an option means whose value is the next word.
pub fn with_next(two: bool, name: &str) -> Option<Meaning>
    ensures { result ≡ meaning_of two (row_of rows_of_either name.now) }
{
    meant(two, either(name))
}

/// What an option means whose value stands behind `=`.
pub fn with_equals(two: bool, name: &str) -> Option<Meaning>
    ensures { result ≡ meaning_of two (equals_row_of name.now) }
{
    meant(two, equals_row(name))
}

/// What the letter means that a name begins with, and what stands behind it.
#[tactic(auto, unfolding(crate::specs::Rows::letter_of))]
pub fn letter(name: &str) -> Option<(Meaning, &str)>
    ensures { option_map (λ p. (p.0, p.1.now)) result ≡ letter_of name.now }
{
    if let Some(rest) = strip(name, "l") {
        return Some((Meaning::Library, rest));
    }
    if let Some(rest) = strip(name, "L") {
        return Some((Meaning::Folder, rest));
    }
    if let Some(rest) = strip(name, "m") {
        return Some((Meaning::Machine, rest));
    }
    if let Some(rest) = strip(name, "o") {
        return Some((Meaning::Output, rest));
    }
    if let Some(rest) = strip(name, "O") {
        return Some((Meaning::Drop, rest));
    }
    if let Some(rest) = strip(name, "z") {
        return Some((Meaning::Z, rest));
    }
    if let Some(rest) = strip(name, "e") {
        return Some((Meaning::Entry, rest));
    }
    if let Some(rest) = strip(name, "u") {
        return Some((Meaning::Undefined, rest));
    }
    if let Some(rest) = strip(name, "y") {
        return Some((Meaning::Warn, rest));
    }
    None
}
