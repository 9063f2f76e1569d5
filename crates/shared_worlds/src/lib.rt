//! A program of loaded objects that runs before it is linked, and the shared output that a loader places:
//! at any base of the memory and of the table, with any values of imported cells. The laws here say that
//! both behave alike.
#![tactic(auto)]

ghost use Rattle.shared_worlds.specs.Statements.{LeastTablesRunAlone, SharedRunsAgree, SharedStartsPair, SharedWorldsPair};

/// Where a shared link is as `IsLoadable` asks, the output's module under any bases is the program before
/// it is linked, with numbers for names: functions, table, exports and memory pair, and no two cells
/// become one.
pub fn shared_worlds_pair()
    ensures { SharedWorldsPair }
{
    live_mark::reached_exactly();
}

/// Where the memory holds all segments too from its base on (`Holds`), both begin alike: the same first
/// values of their cells, and the same memory.
pub fn shared_starts_pair()
    ensures { SharedStartsPair }
{
    live_mark::reached_exactly();
}

/// So for each session, each number of entries of the table and each number of steps, the trace of the
/// loaded objects is that of the output's module.
pub fn shared_runs_agree()
    ensures { SharedRunsAgree }
{
    live_mark::reached_exactly();
}

/// Where a loader gives an imported table of the least size that is stated, a module has the traces that
/// it has by `run_rules`, which knows of no other.
pub fn least_tables_run_alone()
    ensures { LeastTablesRunAlone }
{}
