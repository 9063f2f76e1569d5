//! The line of a generated case.
ghost use Rattle.wl_outside.specs.Sink.{Wrote};
ghost use Rattle.link_lines.specs.Ends.{case_line as line_of_case};

use crate::Piece::{Index, Number, Text};
use crate::print;
use wl_outside::{Failed, Sink};

/// What became of a generated case.
#[derive(Clone, Copy, Debug, PartialEq, Eq)]
pub struct CaseSummary {
    /// How many objects were linked.
    pub objects: u32,
    /// How many functions the output defines.
    pub functions: u64,
    /// How many data segments of the objects are live.
    pub segments: u32,
    /// The output's length in bytes.
    pub bytes: u64,
    /// The sum of the output's bytes as numbers.
    pub sum: u64,
}

/// Prints what became of a generated case. It takes no memory.
///
/// # Errors
/// `Failed` where a write fails; the sink then has a prefix of the line.
pub fn say_case<E: Sink>(case: CaseSummary, say: &mut E) -> Result<(), Failed>
    ensures { Wrote result (line_of_case case.objects case.functions case.segments case.bytes case.sum) (E.told say.old) (E.told say.new) }
{
    print(
        &[
            Text("case "),
            Index(case.objects),
            Text(": functions "),
            Number(case.functions),
            Text(" segments "),
            Index(case.segments),
            Text(" bytes "),
            Number(case.bytes),
            Text(" sum "),
            Number(case.sum),
            Text("\n"),
        ],
        say,
    )
}
