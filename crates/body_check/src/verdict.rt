//! What is told of a body.

/// What bytes are, for a function of a type in its context.
#[derive(Clone, Copy, Debug, PartialEq, Eq)]
pub enum Verdict {
    /// They are no body (Core 5.5.13).
    Unread,
    /// They are a body that has no typing (Core 3.4.1).
    Untyped,
    /// They are a body that has a typing.
    Typed,
}
