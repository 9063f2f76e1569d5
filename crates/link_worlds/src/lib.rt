//! A program that runs before it is linked, and the module that its link gives. The plan and the files
//! are a world of functions and cells by their names; the output is one by numbers. The laws here say
//! that both behave alike.
#![tactic(auto)]

ghost use Rattle.link_worlds.specs.Statements.{WorldsPair, StartsPair, RunsAgree};

/// Where a link is as `LinkedBy` asks, the output's module is the program before it is linked, with
/// numbers for names: functions, table, exports and memory pair, and no two cells become one.
pub fn worlds_pair()
    ensures { WorldsPair }
{
    live_mark::reached_exactly();
}

/// Where the session's memory holds all segments too (`Holds`), both begin alike: the same first
/// values of their cells, and the same memory.
pub fn starts_pair()
    ensures { StartsPair }
{
    live_mark::reached_exactly();
}

/// So for each session and each number of steps, the trace of the plan and the files is that of the
/// output's module. The premises are `LinkedBy` and `Holds`.
pub fn runs_agree()
    ensures { RunsAgree }
{
    live_mark::reached_exactly();
}
