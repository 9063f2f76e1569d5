//! The lines of files that can't be read or written and of refused memory.
ghost use Rattle.wl_outside.specs.Sink.{Wrote};
ghost use Rattle.link_lines.specs.Ends.{read_fault_line, write_fault_line, no_memory_line};

use crate::Piece::{Index, Text};
use crate::print;
use wl_outside::{Failed, Sink};

/// Prints that the input of the word at this place can't be read. It takes no memory.
///
/// # Errors
/// `Failed` where a write fails; the sink then has a prefix of the line.
pub fn say_read_fault<E: Sink>(place: u32, say: &mut E) -> Result<(), Failed>
    ensures { Wrote result (read_fault_line place) (E.told say.old) (E.told say.new) }
{
    print(
        &[Text("wasmld: cannot read word "), Index(place), Text("\n")],
        say,
    )
}

/// Prints that the output can't be written. It takes no memory.
///
/// # Errors
/// `Failed` where a write fails; the sink then has a prefix of the line.
pub fn say_write_fault<E: Sink>(say: &mut E) -> Result<(), Failed>
    ensures { Wrote result write_fault_line (E.told say.old) (E.told say.new) }
{
    print(&[Text("wasmld: cannot write the output\n")], say)
}

/// Prints that memory was refused. It takes none itself.
///
/// # Errors
/// `Failed` where a write fails; the sink then has a prefix of the line.
pub fn say_no_memory<E: Sink>(say: &mut E) -> Result<(), Failed>
    ensures { Wrote result no_memory_line (E.told say.old) (E.told say.new) }
{
    print(&[Text("wasmld: out of memory\n")], say)
}
