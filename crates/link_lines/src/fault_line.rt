//! The line of each fault.
ghost use Rattle.std.specs.Prelude.{codes};
ghost use Rattle.std.specs.Fmt.{signed_decimal};
ghost use Rattle.wl_outside.specs.Sink.{Wrote};
ghost use Rattle.link_lines.specs.Faults.{fault_line as line_of_fault, number_line, input_line, part_line, pair_line, label_line, not_pic_line, overflow_line, invalid_line, against_line, feature_line};
ghost use Rattle.link_lines.specs.Pieces.{piece_bytes};
ghost use Rattle.link_lines.specs.Labels.{label_texts, item_label, library_label, what_name};

use crate::Piece::{self, Byte, Index, Name, Number, Text};
use crate::label::{Label, label_of_item, label_of_library, name_of_what};
use crate::print;
use wl_base::{Fault, FeatureRule, InvalidAt, Item, LibFault, Name as SymbolName, Part, What};
use wl_outside::{Failed, Sink};

/// Prints the line of a link that is refused. It takes no memory.
///
/// # Errors
/// `Failed` where a write fails; the sink then has a prefix of the line.
pub fn say_fault<E: Sink>(fault: &Fault, say: &mut E) -> Result<(), Failed>
    ensures { Wrote result (line_of_fault fault.now) (E.told say.old) (E.told say.new) }
{
    match fault {
        Fault::TooMuchInput { len } => say_number(
            "wasmld: too much input: ",
            Number(*len),
            " bytes\n",
            say,
        ),
        Fault::Library { file, fault } => say_library(*file, *fault, say),
        Fault::TooManyInputs { count } => say_number(
            "wasmld: too many inputs: ",
            Number(*count),
            "\n",
            say,
        ),
        Fault::TooLong { input, len } => say_input(
            *input,
            ": too long: ",
            Number(*len),
            " bytes\n",
            say,
        ),
        Fault::Malformed { input, part } => say_malformed(*input, *part, say),
        Fault::Unsupported { input, item } => say_unsupported(*input, *item, say),
        Fault::IndexLies { input, name } => say_input(
            *input,
            ": index names ",
            Name(name),
            ", which is not defined\n",
            say,
        ),
        Fault::TooManyNames => print(&[Text("wasmld: too many names\n")], say),
        Fault::Clash { name, first, other } => say_pair(
            "wasmld: clash of ",
            name,
            *first,
            *other,
            say,
        ),
        Fault::Duplicate { name, first, other } => say_pair(
            "wasmld: duplicate ",
            name,
            *first,
            *other,
            say,
        ),
        Fault::NotPic {
            input,
            symbol,
            kind,
        } => say_not_pic(*input, *symbol, *kind, say),
        Fault::Unresolved { name, input } => say_input(
            *input,
            ": unresolved ",
            Name(name),
            "\n",
            say,
        ),
        Fault::Overflow { what, needed } => say_overflow(*what, *needed, say),
        Fault::Invalid { at } => say_invalid(*at, say),
        Fault::BadDebug { input, section } => say_input(
            *input,
            ": bad debug section ",
            Index(*section),
            "\n",
            say,
        ),
        Fault::DebugTooLong { needed } => say_number(
            "wasmld: debug sections need ",
            Number(*needed),
            " bytes\n",
            say,
        ),
        Fault::NotPartial { file } => say_number(
            "wasmld: file ",
            Index(*file),
            ": not an object for a partial link\n",
            say,
        ),
        Fault::PartialTooLong { needed } => say_number(
            "wasmld: partial link needs ",
            Number(*needed),
            " bytes\n",
            say,
        ),
        Fault::Uncalled => print(
            &[Text(
                "wasmld: constructors would not be called: link a start file that calls __wasm_call_ctors\n",
            )],
            say,
        ),
        Fault::Feature {
            name,
            input,
            by,
            rule,
        } => say_feature(*input, name, *by, *rule, say),
    }
}

// A number between two texts.
#[tactic(auto, unfolding(crate::specs::Faults::number_line))]
fn say_number<E: Sink>(
    head: &'static str,
    n: Piece<'_>,
    tail: &'static str,
    say: &mut E,
) -> Result<(), Failed>
    ensures { Wrote result (number_line head.now (piece_bytes n.entry) tail.now) (E.told say.old) (E.told say.new) }
{
    print(&[Text(head), n, Text(tail)], say)
}

// A number or a name of an input.
#[tactic(auto, unfolding(crate::specs::Faults::input_line))]
fn say_input<E: Sink>(
    input: u32,
    middle: &'static str,
    told: Piece<'_>,
    tail: &'static str,
    say: &mut E,
) -> Result<(), Failed>
    ensures { Wrote result (input_line input middle.now (piece_bytes told.entry) tail.now) (E.told say.old) (E.told say.new) }
{
    print(
        &[
            Text("wasmld: input "),
            Index(input),
            Text(middle),
            told,
            Text(tail),
        ],
        say,
    )
}

// A name of two inputs.
#[tactic(auto, unfolding(crate::specs::Faults::pair_line))]
fn say_pair<E: Sink>(
    head: &'static str,
    name: &SymbolName,
    first: u32,
    other: u32,
    say: &mut E,
) -> Result<(), Failed>
    ensures { Wrote result (pair_line head.now name.now first other) (E.told say.old) (E.told say.new) }
{
    print(
        &[
            Text(head),
            Name(name),
            Text(": input "),
            Index(first),
            Text(" and input "),
            Index(other),
            Text("\n"),
        ],
        say,
    )
}

fn say_malformed<E: Sink>(input: u32, part: Part, say: &mut E) -> Result<(), Failed>
    ensures { Wrote result (part_line input part) (E.told say.old) (E.told say.new) }
{
    match part {
        Part::Frame => say_number("wasmld: input ", Index(input), ": malformed: frame\n", say),
        Part::Section(place) => say_input(input, ": malformed: section ", Index(place), "\n", say),
        Part::Cross(rule) => say_input(input, ": malformed: rule ", Byte(rule), "\n", say),
    }
}

fn say_invalid<E: Sink>(at: InvalidAt, say: &mut E) -> Result<(), Failed>
    ensures { Wrote result (invalid_line at) (E.told say.old) (E.told say.new) }
{
    match at {
        InvalidAt::Module => print(&[Text("wasmld: invalid output: module\n")], say),
        InvalidAt::Body(function) => say_number(
            "wasmld: invalid output: body ",
            Index(function),
            "\n",
            say,
        ),
    }
}

fn say_library<E: Sink>(file: u32, fault: LibFault, say: &mut E) -> Result<(), Failed>
    ensures { Wrote result (label_line (codes "wasmld: file ") file (codes ": bad library: ") (library_label fault)) (E.told say.old) (E.told say.new) }
{
    let label = label_of_library(fault);
    say_label("wasmld: file ", file, ": bad library: ", label, say)
}

fn say_unsupported<E: Sink>(input: u32, item: Item, say: &mut E) -> Result<(), Failed>
    ensures { Wrote result (label_line (codes "wasmld: input ") input (codes ": unsupported: ") (item_label item)) (E.told say.old) (E.told say.new) }
{
    let label = label_of_item(item);
    say_label("wasmld: input ", input, ": unsupported: ", label, say)
}

// A label of a file or an input.
#[tactic(auto, unfolding(crate::specs::Faults::label_line))]
fn say_label<E: Sink>(
    head: &'static str,
    place: u32,
    middle: &'static str,
    label: Label,
    say: &mut E,
) -> Result<(), Failed>
    ensures { Wrote result (label_line head.now place middle.now (label_texts label)) (E.told say.old) (E.told say.new) }
{
    match label {
        Label::Alone(word) => print(
            &[
                Text(head),
                Index(place),
                Text(middle),
                Text(word),
                Text("\n"),
            ],
            say,
        ),
        Label::With(word, n) => print(
            &[
                Text(head),
                Index(place),
                Text(middle),
                Text(word),
                Text("("),
                Number(n),
                Text(")"),
                Text("\n"),
            ],
            say,
        ),
        Label::WithTwo(word, n, m) => print(
            &[
                Text(head),
                Index(place),
                Text(middle),
                Text(word),
                Text("("),
                Number(n),
                Text(","),
                Number(m),
                Text(")"),
                Text("\n"),
            ],
            say,
        ),
    }
}

#[tactic(auto, unfolding(crate::specs::Faults::not_pic_line))]
fn say_not_pic<E: Sink>(input: u32, symbol: u32, kind: u8, say: &mut E) -> Result<(), Failed>
    ensures { Wrote result (not_pic_line input symbol kind) (E.told say.old) (E.told say.new) }
{
    print(
        &[
            Text("wasmld: input "),
            Index(input),
            Text(": symbol "),
            Index(symbol),
            Text(": relocation "),
            Byte(kind),
            Text(" is not position-independent\n"),
        ],
        say,
    )
}

// A feature of an input, and another input.
#[tactic(auto, unfolding(crate::specs::Faults::against_line))]
fn say_against<E: Sink>(
    input: u32,
    name: &SymbolName,
    middle: &'static str,
    by: u32,
    say: &mut E,
) -> Result<(), Failed>
    ensures { Wrote result (against_line input name.now middle.now by) (E.told say.old) (E.told say.new) }
{
    print(
        &[
            Text("wasmld: input "),
            Index(input),
            Text(": feature "),
            Name(name),
            Text(middle),
            Index(by),
            Text("\n"),
        ],
        say,
    )
}

fn say_feature<E: Sink>(
    input: u32,
    name: &SymbolName,
    by: u32,
    rule: FeatureRule,
    say: &mut E,
) -> Result<(), Failed>
    ensures { Wrote result (feature_line input name.now by rule) (E.told say.old) (E.told say.new) }
{
    match rule {
        FeatureRule::Disallowed => say_against(input, name, " is disallowed by input ", by, say),
        FeatureRule::Required => say_against(input, name, " is required by input ", by, say),
        FeatureRule::NotAllowed => say_input(
            input,
            ": feature ",
            Name(name),
            " is not allowed\n",
            say,
        ),
    }
}

fn say_overflow<E: Sink>(what: What, needed: i64, say: &mut E) -> Result<(), Failed>
    ensures { Wrote result (overflow_line (what_name what) (signed_decimal needed)) (E.told say.old) (E.told say.new) }
{
    let mut digits = itoa::Buffer::new();
    say_needed(name_of_what(what), digits.format(needed), say)
}

// The number as its digits.
#[tactic(auto, unfolding(crate::specs::Faults::overflow_line))]
fn say_needed<E: Sink>(what: &'static str, needed: &str, say: &mut E) -> Result<(), Failed>
    ensures { Wrote result (overflow_line what.now needed.now) (E.told say.old) (E.told say.new) }
{
    print(
        &[
            Text("wasmld: overflow: "),
            Text(what),
            Text(" needs "),
            Text(needed),
            Text("\n"),
        ],
        say,
    )
}
