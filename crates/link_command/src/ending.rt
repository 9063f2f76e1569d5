//! How the work ended, and the line of it.
ghost use Rattle.std.specs.Prelude.{◌≡◌, ◌<◌, ◌^◌, None, length};
ghost use Rattle.std.specs.Option.{option_map};
ghost use Rattle.wl_outside.specs.Sink.{Wrote};
ghost use Rattle.link_command.specs.Ending.{ending_line, summary_of};

use crate::status::Status;
use case_objects::{count_functions, sum_of};
use link_lines::{
    CaseSummary, say_case, say_fault, say_no_memory, say_read_fault, say_usage, say_write_fault,
};
use link_words::Plan;
use wl_outside::{Failed, Sink};

/// How the work ended.
#[derive(Drop)]
pub struct Ending {
    /// The answer of the program.
    pub status: Status,
    /// What became of a generated case, where one was linked.
    pub case: Option<CaseSummary>,
}

impl Ending {
    /// An end without a generated case.
    pub fn plain(status: Status) -> Ending
        ensures { result ≡ record { status = status; case = None } }
    {
        Ending { status, case: None }
    }

    /// Writes the line. It takes no memory.
    pub fn say<E: Sink>(&self, say: &mut E) -> Result<(), Failed>
        ensures { Wrote result (ending_line self.now.status self.now.case) (E.told say.old) (E.told say.new) }
    {
        match &self.status {
            Status::Linked => match self.case {
                Some(case) => say_case(case, say),
                None => Ok(()),
            },
            Status::Refused(fault) => say_fault(fault, say),
            Status::Usage(usage) => say_usage(*usage, say),
            Status::ReadFault(place) => say_read_fault(*place, say),
            Status::WriteFault => say_write_fault(say),
            Status::NoMemory => say_no_memory(say),
        }
    }
}

/// What is told of the output of a generated case, where the plan asks for one. It takes no memory.
pub fn case_of(plan: &Plan, bytes: &[u8]) -> Option<CaseSummary>
    requires { length bytes.now < 2 ^ 31 }
    ensures { result ≡ option_map (summary_of bytes.now) plan.now.make_case }
{
    match plan.make_case {
        Some(objects) => Some(CaseSummary {
            objects,
            functions: count_functions(bytes),
            segments: objects,
            bytes: bytes.len() as u64,
            sum: sum_of(bytes),
        }),
        None => None,
    }
}
