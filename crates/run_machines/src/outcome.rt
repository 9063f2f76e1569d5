//! What a session on a program comes to.

use run_rules::Trace;

/// What a session on a program comes to.
#[derive(Debug, Drop)]
pub enum Run {
    /// The bytes are no module.
    NoModule,
    /// The segment of this number doesn't fit the memory or the table, or has no offset: the first such of the
    /// element segments and then the data segments, from 0. Nothing is run then (Core 4.5.4).
    Outside(u64),
    /// It is run, with this trace.
    Traced(Trace),
}
