//! What is told of functions that are called by another type than their definition has.
ghost use Rattle.std.specs.Prelude.{◌≡◌};
ghost use Rattle.std.specs.List.{flat_map};
ghost use Rattle.std.specs.Option.{option_map};
ghost use Rattle.wl_outside.specs.Sink.{Wrote};
ghost use Rattle.driver_lines.specs.Called.{called_texts};
ghost use Rattle.driver_lines.specs.Mismatch.{type_word as type_word_of, result_word as result_word_of, first_text, next_text, first_and_rest, params_text, defined_text, mismatch_line};

use crate::called::{Called, called_input};
use link_lines::Piece::{Name, Text as Plain};
use link_lines::print;
use wasm_types::{FuncType, ValType};
use wl_base::{InputId, Name as SymbolName, Text};
use wl_outside::{Failed, Sink};

// A type of values.
fn type_word(t: ValType) -> &'static str
    ensures { result.now ≡ type_word_of t }
{
    match t {
        ValType::I32 => "i32",
        ValType::I64 => "i64",
        ValType::F32 => "f32",
        ValType::F64 => "f64",
    }
}

// What a function gives, of which the first is told alone.
fn result_word(results: &[ValType]) -> &'static str
    ensures { result.now ≡ result_word_of results.now }
{
    match results {
        [] => "void",
        [first, ..] => type_word(*first),
    }
}

// The first type.
fn say_first<E: Sink>(t: &ValType, say: &mut E) -> Result<(), Failed>
    ensures { Wrote result (first_text t.now) (E.told say.old) (E.told say.new) }
{
    print(&[Plain(type_word(*t))], say)
}

// A type behind others.
fn say_next<E: Sink>(t: ValType, say: &mut E) -> Result<(), Failed>
    ensures { Wrote result (next_text t) (E.told say.old) (E.told say.new) }
{
    print(&[Plain(", "), Plain(type_word(t))], say)
}

// Types behind others.
fn say_more<E: Sink>(types: &[ValType], say: &mut E) -> Result<(), Failed>
    ensures { Wrote result (flat_map next_text types.now) (E.told say.old) (E.told say.new) }
{
    for t in types {
        say_next(*t, say)?;
    }
    Ok(())
}

// The first type, and the others.
fn split_first(types: &[ValType]) -> Option<(&ValType, &[ValType])>
    ensures { option_map (λ p. (p.0.now, p.1.now)) result ≡ first_and_rest types.now }
{
    match types {
        [] => None,
        [first, rest @ ..] => Some((first, rest)),
    }
}

// What a function takes.
fn say_params<E: Sink>(types: &[ValType], say: &mut E) -> Result<(), Failed>
    ensures { Wrote result (params_text types.now) (E.told say.old) (E.told say.new) }
{
    let Some((first, rest)) = split_first(types) else {
        return Ok(());
    };
    say_first(first, say)?;
    say_more(rest, say)
}

// A type and an input that has it, behind the line before.
fn say_defined<'a, E: Sink>(t: &FuncType, input: Called<'a>, say: &mut E) -> Result<(), Failed>
    ensures { Wrote result (defined_text t.now (called_texts input.entry)) (E.told say.old) (E.told say.new) }
{
    print(&[Plain("\n>>> defined as (")], say)?;
    say_params(t.params.as_slice(), say)?;
    let gives = result_word(t.results.as_slice());
    print(
        &[
            Plain(") -> "),
            Plain(gives),
            Plain(" in "),
            Plain(input.front),
            input.name,
        ],
        say,
    )
}

/// Tells of a function that an input calls by another type than its definition has, as a warning or an error, in three lines: with the type
/// and the input of the call, and of the definition. It takes no memory.
///
/// # Errors
/// `Failed` where a write fails; the sink then has a prefix of the lines.
pub fn say_mismatch<'a, E: Sink>(
    program: &'a str,
    severity: &'a str,
    inputs: &'a [Text],
    name: &'a SymbolName,
    called: (&'a FuncType, InputId),
    defined: (&'a FuncType, InputId),
    say: &mut E,
) -> Result<(), Failed>
    ensures { Wrote result (mismatch_line program.now severity.now inputs.now name.now called.entry.0.now called.entry.1 defined.entry.0.now defined.entry.1) (E.told say.old) (E.told say.new) }
{
    print(
        &[
            Plain(program),
            Plain(": "),
            Plain(severity),
            Plain(": function signature mismatch: "),
            Name(name),
        ],
        say,
    )?;
    say_defined(called.0, called_input(inputs, called.1), say)?;
    say_defined(defined.0, called_input(inputs, defined.1), say)?;
    print(&[Plain("\n")], say)
}
