//! The line of each usage.
ghost use Rattle.std.specs.Prelude.{◌≡◌};
ghost use Rattle.wl_outside.specs.Sink.{Wrote};
ghost use Rattle.link_lines.specs.Usages.{usage_line as line_of_usage, usage_name, usage_place};

use crate::Piece::{Index, Text};
use crate::print;
use wl_base::Usage;
use wl_outside::{Failed, Sink};

/// Prints the line of words that have no plan. It takes no memory.
///
/// # Errors
/// `Failed` where a write fails; the sink then has a prefix of the line.
pub fn say_usage<E: Sink>(usage: Usage, say: &mut E) -> Result<(), Failed>
    ensures { Wrote result (line_of_usage usage) (E.told say.old) (E.told say.new) }
{
    let name = Text(name_of_usage(usage));
    match place_of_usage(usage) {
        Some(at) => print(
            &[
                Text("wasmld: usage: "),
                name,
                Text(" at word "),
                Index(at),
                Text("\n"),
            ],
            say,
        ),
        None => print(&[Text("wasmld: usage: "), name, Text("\n")], say),
    }
}

// The place of the word, where the usage is one word's.
fn place_of_usage(usage: Usage) -> Option<u32>
    ensures { result ≡ usage_place usage }
{
    match usage {
        Usage::UnknownOption { at }
        | Usage::MissingValue { at }
        | Usage::BadNumber { at }
        | Usage::BadThreads { at }
        | Usage::OpenGroup { at } => Some(at),
        Usage::CaseAndInput | Usage::NoInput | Usage::NoOutput | Usage::PartialClash => None,
    }
}

fn name_of_usage(usage: Usage) -> &'static str
    ensures { result.now ≡ usage_name usage }
{
    match usage {
        Usage::UnknownOption { .. } => "UnknownOption",
        Usage::MissingValue { .. } => "MissingValue",
        Usage::BadNumber { .. } => "BadNumber",
        Usage::BadThreads { .. } => "BadThreads",
        Usage::OpenGroup { .. } => "OpenGroup",
        Usage::CaseAndInput => "CaseAndInput",
        Usage::NoInput => "NoInput",
        Usage::NoOutput => "NoOutput",
        Usage::PartialClash => "PartialClash",
    }
}
