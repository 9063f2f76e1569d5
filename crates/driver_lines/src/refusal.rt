//! The line of each fault.
ghost use Rattle.std.specs.Prelude.{◌≡◌, ◌==◌};
ghost use Rattle.std.specs.Fmt.{signed_decimal};
ghost use Rattle.std.specs.Option.{option_map};
ghost use Rattle.wl_outside.specs.Sink.{Wrote};
ghost use Rattle.driver_lines.specs.Called.{called_texts};
ghost use Rattle.driver_lines.specs.Words.{overflow_front as overflow_front_of, overflow_end as overflow_end_of};
ghost use Rattle.driver_lines.specs.Lines.{plain_line, library_line, rule_line, init_rule, part_line, asked_line, unresolved_line, invalid_line, feature_line, refusal_line};

use crate::Naming;
use crate::called::{Called, called_file, called_input};
use crate::forms::{
    say_about, say_against, say_item, say_named, say_pair, say_plain, say_relocation,
};
use crate::words::{is_entry, overflow_end, overflow_front, relocation_name};
use link_lines::Piece::{Byte, Index, Name, Number, Text};
use link_lines::label_of_item;
use wl_base::{Fault, FeatureRule, InputId, InvalidAt, LibFault, Name as SymbolName, Part, What};
use wl_outside::{Failed, Sink};

/// The rule of objects that is broken by the program, and not by its compiler: init functions take and
/// give nothing.
const INIT_RULE: u8 = 7;

/// Prints the line or lines of a refused link. It takes no memory.
///
/// # Errors
/// `Failed` where a write fails; the sink then has a prefix of the lines.
pub fn say_refusal<'a, E: Sink>(
    fault: &'a Fault,
    naming: &'a Naming<'a>,
    say: &mut E,
) -> Result<(), Failed>
    ensures { Wrote result (refusal_line naming.now.program.now (option_map (λ e. e.now) naming.now.entry) naming.now.inputs.now naming.now.files.now fault.now) (E.told say.old) (E.told say.new) }
{
    let program = naming.program;
    let inputs = naming.inputs;
    match fault {
        Fault::TooMuchInput { len } => {
            say_plain(program, "too much input: ", Number(*len), " bytes\n", say)
        }
        Fault::Library { file, fault } => {
            say_library(program, called_file(naming.files, *file), *fault, say)
        }
        Fault::TooManyInputs { count } => {
            say_plain(program, "too many inputs: ", Number(*count), "\n", say)
        }
        Fault::TooLong { input, len } => say_about(
            program,
            "",
            called_input(inputs, *input),
            ": too long: ",
            Number(*len),
            " bytes\n",
            say,
        ),
        Fault::Malformed { input, part } => {
            say_malformed(program, called_input(inputs, *input), *part, say)
        }
        Fault::Unsupported { input, item } => say_item(
            program,
            called_input(inputs, *input),
            label_of_item(*item),
            say,
        ),
        Fault::IndexLies { input, name } => say_about(
            program,
            "",
            called_input(inputs, *input),
            ": archive index names ",
            Name(name),
            ", which is not defined\n",
            say,
        ),
        Fault::TooManyNames => say_plain(program, "too many names", Text(""), "\n", say),
        Fault::Clash { name, first, other } => say_pair(
            program,
            "symbol type mismatch: ",
            name,
            "\n>>> in ",
            called_input(inputs, *first),
            called_input(inputs, *other),
            say,
        ),
        Fault::Duplicate { name, first, other } => say_pair(
            program,
            "duplicate symbol: ",
            name,
            "\n>>> defined in ",
            called_input(inputs, *first),
            called_input(inputs, *other),
            say,
        ),
        Fault::NotPic {
            input,
            symbol,
            kind,
        } => say_relocation(
            program,
            called_input(inputs, *input),
            relocation_name(*kind),
            *symbol,
            say,
        ),
        Fault::Unresolved { name, input } => say_unresolved(naming, name, *input, say),
        Fault::Overflow { what, needed } => say_overflow(program, *what, *needed, say),
        Fault::Invalid { at } => say_invalid(program, *at, say),
        Fault::BadDebug { input, section } => say_about(
            program,
            "",
            called_input(inputs, *input),
            ": malformed debug section ",
            Index(*section),
            "\n",
            say,
        ),
        Fault::DebugTooLong { needed } => say_plain(
            program,
            "output too large with debug sections, ",
            Number(*needed),
            " bytes needed\n",
            say,
        ),
        Fault::NotPartial { file } => say_about(
            program,
            "",
            called_file(naming.files, *file),
            ": only object files can be linked with -r, and none from a library",
            Text(""),
            "\n",
            say,
        ),
        Fault::PartialTooLong { needed } => say_plain(
            program,
            "output too large, ",
            Number(*needed),
            " bytes needed\n",
            say,
        ),
        Fault::Uncalled => say_plain(
            program,
            "constructors would not be called: link a start file that calls __wasm_call_ctors",
            Text(""),
            "\n",
            say,
        ),
        Fault::Feature {
            name,
            input,
            by,
            rule,
        } => say_feature(
            program,
            name,
            called_input(inputs, *input),
            called_input(inputs, *by),
            *rule,
            say,
        ),
    }
}

// A file that is no library.
fn say_library<'a, E: Sink>(
    program: &'a str,
    file: Called<'a>,
    fault: LibFault,
    say: &mut E,
) -> Result<(), Failed>
    ensures { Wrote result (library_line program.now (called_texts file.entry) fault) (E.told say.old) (E.told say.new) }
{
    match fault {
        LibFault::NotLibrary => {
            say_about(
                program,
                "unknown file type: ",
                file,
                "",
                Text(""),
                "\n",
                say,
            )
        }
        LibFault::Thin => say_about(
            program,
            "",
            file,
            ": thin archives are not supported",
            Text(""),
            "\n",
            say,
        ),
        LibFault::BadHeader(at) => say_about(
            program,
            "",
            file,
            ": malformed archive: bad member header at ",
            Number(at),
            "\n",
            say,
        ),
        LibFault::NoIndex => say_about(
            program,
            "",
            file,
            ": archive has no index; run llvm-ranlib to add one",
            Text(""),
            "\n",
            say,
        ),
        LibFault::BadIndex(cause) => say_about(
            program,
            "",
            file,
            ": malformed archive: bad symbol index (",
            Byte(cause),
            ")\n",
            say,
        ),
    }
}

// An object that is broken.
fn say_malformed<'a, E: Sink>(
    program: &'a str,
    input: Called<'a>,
    part: Part,
    say: &mut E,
) -> Result<(), Failed>
    ensures { Wrote result (part_line program.now (called_texts input.entry) part) (E.told say.old) (E.told say.new) }
{
    match part {
        Part::Frame => say_about(
            program,
            "unknown file type: ",
            input,
            "",
            Text(""),
            "\n",
            say,
        ),
        Part::Section(place) => say_about(
            program,
            "",
            input,
            ": malformed object: section ",
            Index(place),
            "\n",
            say,
        ),
        Part::Cross(rule) => say_rule(program, input, rule, say),
    }
}

fn is_init_rule(rule: u8) -> bool
    ensures { result ≡ (rule == init_rule) }
{
    rule == INIT_RULE
}

fn say_rule<'a, E: Sink>(
    program: &'a str,
    input: Called<'a>,
    rule: u8,
    say: &mut E,
) -> Result<(), Failed>
    ensures { Wrote result (rule_line program.now (called_texts input.entry) rule) (E.told say.old) (E.told say.new) }
{
    if is_init_rule(rule) {
        return say_about(
            program,
            "",
            input,
            ": constructor functions cannot take arguments",
            Text(""),
            "\n",
            say,
        );
    }
    say_about(
        program,
        "",
        input,
        ": malformed object: rule ",
        Byte(rule),
        "\n",
        say,
    )
}

// A name that the words ask for and nothing defines.
fn say_asked<'a, E: Sink>(
    program: &'a str,
    entry: Option<&'a str>,
    name: &'a SymbolName,
    say: &mut E,
) -> Result<(), Failed>
    ensures { Wrote result (asked_line program.now (option_map (λ e. e.now) entry.entry) name.now) (E.told say.old) (E.told say.new) }
{
    if is_entry(entry, name.as_slice()) {
        return say_plain(
            program,
            "entry symbol not defined (pass --no-entry to suppress): ",
            Name(name),
            "\n",
            say,
        );
    }
    say_plain(
        program,
        "symbol exported via --export not found: ",
        Name(name),
        "\n",
        say,
    )
}

fn say_unresolved<'a, E: Sink>(
    naming: &'a Naming<'a>,
    name: &'a SymbolName,
    input: InputId,
    say: &mut E,
) -> Result<(), Failed>
    ensures { Wrote result (unresolved_line naming.now.program.now (option_map (λ e. e.now) naming.now.entry) naming.now.inputs.now name.now input) (E.told say.old) (E.told say.new) }
{
    if input == 0 {
        return say_asked(naming.program, naming.entry, name, say);
    }
    say_about(
        naming.program,
        "",
        called_input(naming.inputs, input),
        ": undefined symbol: ",
        Name(name),
        "\n",
        say,
    )
}

// A feature that an input uses, or that it lacks.
fn say_feature<'a, E: Sink>(
    program: &'a str,
    name: &'a SymbolName,
    input: Called<'a>,
    by: Called<'a>,
    rule: FeatureRule,
    say: &mut E,
) -> Result<(), Failed>
    ensures { Wrote result (feature_line program.now name.now (called_texts input.entry) (called_texts by.entry) rule) (E.told say.old) (E.told say.new) }
{
    match rule {
        FeatureRule::Disallowed => say_against(
            program,
            "Target feature '",
            name,
            "' used in ",
            input,
            " is disallowed by ",
            by,
            say,
        ),
        FeatureRule::Required => say_against(
            program,
            "Missing target feature '",
            name,
            "' in ",
            input,
            ", required by ",
            by,
            say,
        ),
        FeatureRule::NotAllowed => say_named(
            program,
            "Target feature '",
            name,
            "' used by ",
            input,
            " is not allowed.\n",
            say,
        ),
    }
}

fn say_overflow<'a, E: Sink>(
    program: &'a str,
    what: What,
    needed: i64,
    say: &mut E,
) -> Result<(), Failed>
    ensures { Wrote result (plain_line program.now (overflow_front_of what) (signed_decimal needed) (overflow_end_of what)) (E.told say.old) (E.told say.new) }
{
    let mut digits = itoa::Buffer::new();
    say_plain(
        program,
        overflow_front(what),
        Text(digits.format(needed)),
        overflow_end(what),
        say,
    )
}

fn say_invalid<'a, E: Sink>(program: &'a str, at: InvalidAt, say: &mut E) -> Result<(), Failed>
    ensures { Wrote result (invalid_line program.now at) (E.told say.old) (E.told say.new) }
{
    match at {
        InvalidAt::Module => {
            say_plain(program, "output is not valid: module", Text(""), "\n", say)
        }
        InvalidAt::Body(function) => say_plain(
            program,
            "output is not valid: function ",
            Index(function),
            "\n",
            say,
        ),
    }
}
