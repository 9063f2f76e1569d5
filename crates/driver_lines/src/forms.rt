//! The forms of lines.
ghost use Rattle.wl_outside.specs.Sink.{Wrote};
ghost use Rattle.link_lines.specs.Pieces.{piece_bytes};
ghost use Rattle.link_lines.specs.Labels.{label_texts};
ghost use Rattle.driver_lines.specs.Called.{called_texts};
ghost use Rattle.driver_lines.specs.Lines.{plain_line, about_line, pair_line, item_line, relocation_line, named_line, against_line};

use crate::called::Called;
use link_lines::Piece::{self, Index, Name, Number, Text};
use link_lines::{Label, print};
use wl_base::Name as SymbolName;
use wl_outside::{Failed, Sink};

/// Prints a number or a name between two texts.
#[tactic(auto, unfolding(crate::specs::Lines::plain_line))]
pub fn say_plain<'a, E: Sink>(
    program: &'a str,
    front: &'a str,
    told: Piece<'a>,
    end: &'a str,
    say: &mut E,
) -> Result<(), Failed>
    ensures { Wrote result (plain_line program.now front.now (piece_bytes told.entry) end.now) (E.told say.old) (E.told say.new) }
{
    print(
        &[
            Text(program),
            Text(": error: "),
            Text(front),
            told,
            Text(end),
        ],
        say,
    )
}

/// Prints the same of an input or a file.
#[tactic(auto, unfolding(crate::specs::Lines::about_line))]
pub fn say_about<'a, E: Sink>(
    program: &'a str,
    front: &'a str,
    called: Called<'a>,
    middle: &'a str,
    told: Piece<'a>,
    end: &'a str,
    say: &mut E,
) -> Result<(), Failed>
    ensures { Wrote result (about_line program.now front.now (called_texts called.entry) middle.now (piece_bytes told.entry) end.now) (E.told say.old) (E.told say.new) }
{
    print(
        &[
            Text(program),
            Text(": error: "),
            Text(front),
            Text(called.front),
            called.name,
            Text(middle),
            told,
            Text(end),
        ],
        say,
    )
}

/// Prints a name of two inputs, each in a line of its own.
#[tactic(auto, unfolding(crate::specs::Lines::pair_line))]
pub fn say_pair<'a, E: Sink>(
    program: &'a str,
    front: &'a str,
    name: &'a SymbolName,
    between: &'a str,
    first: Called<'a>,
    other: Called<'a>,
    say: &mut E,
) -> Result<(), Failed>
    ensures { Wrote result (pair_line program.now front.now name.now between.now (called_texts first.entry) (called_texts other.entry)) (E.told say.old) (E.told say.new) }
{
    print(
        &[
            Text(program),
            Text(": error: "),
            Text(front),
            Name(name),
            Text(between),
            Text(first.front),
            first.name,
            Text(between),
            Text(other.front),
            other.name,
            Text("\n"),
        ],
        say,
    )
}

/// Prints a name, and an input behind it.
#[tactic(auto, unfolding(crate::specs::Lines::named_line))]
pub fn say_named<'a, E: Sink>(
    program: &'a str,
    front: &'a str,
    name: &'a SymbolName,
    middle: &'a str,
    input: Called<'a>,
    end: &'a str,
    say: &mut E,
) -> Result<(), Failed>
    ensures { Wrote result (named_line program.now front.now name.now middle.now (called_texts input.entry) end.now) (E.told say.old) (E.told say.new) }
{
    print(
        &[
            Text(program),
            Text(": error: "),
            Text(front),
            Name(name),
            Text(middle),
            Text(input.front),
            input.name,
            Text(end),
        ],
        say,
    )
}

/// Prints a name, and two inputs behind it that don't agree.
#[tactic(auto, unfolding(crate::specs::Lines::against_line))]
pub fn say_against<'a, E: Sink>(
    program: &'a str,
    front: &'a str,
    name: &'a SymbolName,
    middle: &'a str,
    input: Called<'a>,
    between: &'a str,
    other: Called<'a>,
    say: &mut E,
) -> Result<(), Failed>
    ensures { Wrote result (against_line program.now front.now name.now middle.now (called_texts input.entry) between.now (called_texts other.entry)) (E.told say.old) (E.told say.new) }
{
    print(
        &[
            Text(program),
            Text(": error: "),
            Text(front),
            Name(name),
            Text(middle),
            Text(input.front),
            input.name,
            Text(between),
            Text(other.front),
            other.name,
            Text(". Use --no-check-features to suppress.\n"),
        ],
        say,
    )
}

/// Prints a relocation of an input that position-independent code can't have.
#[tactic(auto, unfolding(crate::specs::Lines::relocation_line))]
pub fn say_relocation<'a, E: Sink>(
    program: &'a str,
    called: Called<'a>,
    name: &'a str,
    symbol: u32,
    say: &mut E,
) -> Result<(), Failed>
    ensures { Wrote result (relocation_line program.now (called_texts called.entry) name.now symbol) (E.told say.old) (E.told say.new) }
{
    print(
        &[
            Text(program),
            Text(": error: "),
            Text(called.front),
            called.name,
            Text(": relocation "),
            Text(name),
            Text(" cannot be used against symbol "),
            Index(symbol),
            Text("; recompile with -fPIC\n"),
        ],
        say,
    )
}

/// Prints an item of an input that isn't linked.
#[tactic(auto, unfolding(crate::specs::Lines::item_line))]
pub fn say_item<'a, E: Sink>(
    program: &'a str,
    called: Called<'a>,
    label: Label,
    say: &mut E,
) -> Result<(), Failed>
    ensures { Wrote result (item_line program.now (called_texts called.entry) (label_texts label)) (E.told say.old) (E.told say.new) }
{
    match label {
        Label::Alone(word) => print(
            &[
                Text(program),
                Text(": error: "),
                Text(called.front),
                called.name,
                Text(": unsupported: "),
                Text(word),
                Text("\n"),
            ],
            say,
        ),
        Label::With(word, n) => print(
            &[
                Text(program),
                Text(": error: "),
                Text(called.front),
                called.name,
                Text(": unsupported: "),
                Text(word),
                Text("("),
                Number(n),
                Text(")"),
                Text("\n"),
            ],
            say,
        ),
        Label::WithTwo(word, n, m) => print(
            &[
                Text(program),
                Text(": error: "),
                Text(called.front),
                called.name,
                Text(": unsupported: "),
                Text(word),
                Text("("),
                Number(n),
                Text(","),
                Number(m),
                Text(")"),
                Text("\n"),
            ],
            say,
        ),
    }
}
