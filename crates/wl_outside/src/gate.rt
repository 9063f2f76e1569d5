//! A hook before each job of a worker.

/// What the workers do.
#[derive(Clone, Copy, Debug, PartialEq, Eq)]
pub enum Phase {
    /// Reading an object. The job is its place among the objects.
    Read,
    /// Racing for groups. The job is the race's own.
    Groups,
    /// Racing for names. The job is the race's own.
    Names,
    /// Marking what is live. The job is a place in the roots in the first round, later in the frontier.
    Mark,
    /// Filling the output. The job is the place of a chunk, or of a window, in the output.
    Fill,
}

/// Is called by each worker before it works on a job. It answers nothing and changes no answer.
pub trait Gate: Sync {
    fn turn(&self, phase: Phase, worker: u32, job: u32);

    /// Whether nobody waits at the gate, so that work that is worth no thread may be done by one worker.
    fn is_open(&self) -> bool {
        false
    }
}

/// A gate that does nothing.
#[derive(Clone, Copy, Debug, PartialEq, Eq)]
pub struct OpenGate;

impl Gate for OpenGate {
    fn turn(&self, _phase: Phase, _worker: u32, _job: u32) {}

    fn is_open(&self) -> bool {
        true
    }
}
