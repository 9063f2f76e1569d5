//! Custom sections behind a module say nothing of it (Core 5.5.3), so they change none of its runs.
#![tactic(auto)]

ghost use Rattle.module_tails.specs.Tails.{CustomsSayNothing};

/// Bytes that spell a module spell the same one with custom sections behind them, and are read as it.
pub fn customs_say_nothing()
    ensures { CustomsSayNothing }
{}
