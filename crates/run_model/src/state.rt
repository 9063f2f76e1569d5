//! States of the machine, as the code keeps them.

use run_numbers::Layered;
use run_rules::{Event, TrapKind, Value};
use wl_base::Seq;
use wl_stack::Stack;

/// A function that runs, but for its name (Core 4.2.12, a frame with its labels and operands).
#[derive(Drop)]
pub(crate) struct Running {
    /// The place of the next instruction in the function's code.
    pub place: usize,
    /// The arguments and locals.
    pub locals: Vec<Value>,
    /// The values and the blocks that are open.
    pub layered: Layered,
    /// How many results the function gives.
    pub results: usize,
}

/// All of a state but the names of functions and cells.
#[derive(Drop)]
pub(crate) struct Active {
    /// The function that runs.
    pub frame: Running,
    /// The functions that wait for it.
    pub below: Stack<Running>,
    /// The memory.
    pub memory: Vec<u8>,
    /// How many answers of the host were asked for.
    pub answered: usize,
    /// What happened so far.
    pub events: Seq<Event>,
}

/// A state.
#[derive(Drop)]
pub(crate) struct Machine {
    /// The functions that run and wait, by their places in the world.
    pub names: Stack<u32>,
    /// The values of cells.
    pub cells: Vec<Option<Value>>,
    /// All else.
    pub inner: Active,
}

/// Why a run ends before its calls are over. The event that tells it is made at the end of the run
/// alone, so that a step hands on a few bytes and no room for an event.
#[derive(Clone, Copy)]
pub(crate) enum Stop {
    /// No rule says what to do next.
    Stuck,
    /// A step is due, and no more is allowed.
    StepsSpent,
    /// An answer of the host is due, and the next one isn't such an answer.
    HostSpent,
    /// A carried instruction is due: its opcode, and the number behind it where it has one.
    Carried(u8, u32),
}

/// What an instruction led to that asks nothing of its world.
#[derive(Clone, Copy)]
pub(crate) enum After {
    /// The run goes on.
    Goes,
    /// The function gives back as many values as it has results, the newest ones.
    Leaves,
    /// A trap.
    Traps(TrapKind),
    /// The run ends.
    Ends(Stop),
}

/// How a run goes on after a step.
#[derive(Clone, Copy)]
pub(crate) enum Next {
    /// By the next step.
    GoesOn,
    /// The call is over.
    CallOver,
    /// The run ends.
    Halts(Stop),
}
