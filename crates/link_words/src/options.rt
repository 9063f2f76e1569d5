//! The table of options.
ghost use Rattle.std.specs.Prelude.{◌≡◌, Some};
ghost use Rattle.link_words.specs.Options.{options, row_of};

use crate::kind::Kind;
use crate::range::Range;

/// What a value has to be.
#[derive(Clone, Copy, Debug)]
pub enum Form {
    /// Any text.
    Text,
    /// `wasm32`.
    Machine,
    /// A number of the range.
    Number(Range),
    /// `stack-size=`, and then a number.
    StackSize,
}

/// How an option takes its value.
#[derive(Clone, Copy, Debug)]
pub enum Takes {
    /// It has none.
    Nothing,
    /// As the next word.
    Next(Form),
    /// As the next word, or behind `=` in its own.
    Long(Form),
}

/// What an option says, and how it takes its value.
#[derive(Clone, Copy, Debug)]
pub struct Rule {
    pub kind: Kind,
    pub takes: Takes,
}

// What a row of the table has.
fn found(kind: Kind, takes: Takes) -> Option<Rule>
    ensures { result ≡ Some (record { kind = kind; takes = takes }) }
{
    Some(Rule { kind, takes })
}

/// The option that a word names.
pub fn option_of(word: &str) -> Option<Rule>
    ensures { result ≡ row_of options word.now }
{
    match word {
        "-o" => found(Kind::Output, Takes::Next(Form::Text)),
        "--entry" => found(Kind::Entry, Takes::Long(Form::Text)),
        "--no-entry" => found(Kind::NoEntry, Takes::Nothing),
        "--export" => found(Kind::Export, Takes::Long(Form::Text)),
        "--export-table" => found(Kind::ExportTable, Takes::Nothing),
        "--export-if-defined" => found(Kind::ExportIfDefined, Takes::Long(Form::Text)),
        "--export-dynamic" => found(Kind::ExportDynamic, Takes::Nothing),
        "--allow-undefined" => found(Kind::AllowUndefined, Takes::Nothing),
        "-u" => found(Kind::Wanted, Takes::Next(Form::Text)),
        "--global-base" => found(Kind::GlobalBase, Takes::Long(Form::Number(Range::Address))),
        "--stack-first" => found(Kind::StackFirst, Takes::Nothing),
        "-z" => found(Kind::StackSize, Takes::Next(Form::StackSize)),
        "--initial-memory" => found(
            Kind::InitialMemory,
            Takes::Long(Form::Number(Range::Memory)),
        ),
        "--max-memory" => found(Kind::MaxMemory, Takes::Long(Form::Number(Range::Memory))),
        "--import-memory" => found(Kind::ImportMemory, Takes::Nothing),
        "--gc-sections" => found(Kind::GcSections, Takes::Nothing),
        "--no-gc-sections" => found(Kind::NoGcSections, Takes::Nothing),
        "--whole-archive" => found(Kind::WholeArchive, Takes::Nothing),
        "--no-whole-archive" => found(Kind::NoWholeArchive, Takes::Nothing),
        "--start-lib" => found(Kind::StartLib, Takes::Nothing),
        "--end-lib" => found(Kind::EndLib, Takes::Nothing),
        "--threads" => found(Kind::Threads, Takes::Long(Form::Number(Range::Workers))),
        "--make-case" => found(Kind::MakeCase, Takes::Long(Form::Number(Range::Cases))),
        "--validate" => found(Kind::Validate, Takes::Nothing),
        "--keep-debug" => found(Kind::KeepDebug, Takes::Nothing),
        "-r" => found(Kind::Partial, Takes::Nothing),
        "-shared" => found(Kind::Shared, Takes::Nothing),
        "-m" => found(Kind::Accepted, Takes::Next(Form::Machine)),
        "-s" => found(Kind::Accepted, Takes::Nothing),
        "-S" => found(Kind::Accepted, Takes::Nothing),
        "--strip-all" => found(Kind::Accepted, Takes::Nothing),
        "--strip-debug" => found(Kind::Accepted, Takes::Nothing),
        _ => None,
    }
}
