//! States of the machine.

use crate::trace::Event;
use crate::value::Value;
use wl_base::Seq;
use wl_stack::Stack;

/// The label of a block that is open (Core 4.2.12).
#[derive(Debug, Drop)]
pub struct Label {
    /// The place where a branch to it goes on.
    pub target: usize,
    /// How many values a branch to it takes along.
    pub arity: usize,
    /// The values outside the block.
    pub outside: Stack<Value>,
}

/// A function that runs, but for its name.
#[derive(Debug, Drop)]
pub struct Frame {
    /// The place of the next instruction in the function's code.
    pub place: usize,
    /// The arguments and locals.
    pub locals: Seq<Value>,
    /// The blocks that are open.
    pub labels: Stack<Label>,
    /// The values inside the innermost block.
    pub values: Stack<Value>,
    /// How many results the function gives.
    pub results: usize,
}

/// All of a state but the names of functions and cells.
#[derive(Debug, Drop)]
pub struct Inner {
    /// The function that runs.
    pub frame: Frame,
    /// The functions that wait for it.
    pub below: Stack<Frame>,
    /// The memory.
    pub memory: Seq<u8>,
    /// How many answers of the host were asked for.
    pub answered: usize,
    /// What happened so far.
    pub events: Seq<Event>,
}

/// A state of the machine.
#[derive(Debug, Drop)]
pub struct State {
    /// The functions that run and wait, by their places in the world.
    pub names: Stack<u32>,
    /// The values of cells.
    pub cells: Seq<Option<Value>>,
    /// All else.
    pub inner: Inner,
}

/// How a run goes on after a step.
#[derive(Debug, Drop)]
pub enum How {
    /// By the next step.
    GoesOn,
    /// The call is over.
    CallOver,
    /// The run ends with this.
    Halts(Event),
}
