//! What holds of the reading, as a call that does nothing: its contract is the law.
ghost use Rattle.valid_rules.specs.Exact.{Exact};

/// The reading of a body ends well exactly where the body has a typing.
pub fn reading_decides_typing()
    ensures { Exact }
{}
