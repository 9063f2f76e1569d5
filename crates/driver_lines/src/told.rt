//! Lines of a text.
ghost use Rattle.wl_outside.specs.Sink.{Wrote};
ghost use Rattle.driver_lines.specs.Lines.{error_line, warning_line};

use link_lines::Piece::Text;
use link_lines::print;
use wl_outside::{Failed, Sink};

/// Prints `PROGRAM: error: TEXT` and the end of a line. It takes no memory.
///
/// # Errors
/// `Failed` where a write fails; the sink then has a prefix of the line.
pub fn say_error<'a, E: Sink>(program: &'a str, text: &'a str, say: &mut E) -> Result<(), Failed>
    ensures { Wrote result (error_line program.now text.now) (E.told say.old) (E.told say.new) }
{
    print(
        &[Text(program), Text(": error: "), Text(text), Text("\n")],
        say,
    )
}

/// Prints `PROGRAM: warning: TEXT` and the end of a line. It takes no memory.
///
/// # Errors
/// `Failed` where a write fails; the sink then has a prefix of the line.
pub fn say_warning<'a, E: Sink>(program: &'a str, text: &'a str, say: &mut E) -> Result<(), Failed>
    ensures { Wrote result (warning_line program.now text.now) (E.told say.old) (E.told say.new) }
{
    print(
        &[Text(program), Text(": warning: "), Text(text), Text("\n")],
        say,
    )
}
