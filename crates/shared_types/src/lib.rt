//! The types of what a shared output numbers, and that its module is as valid as the objects it is made
//! of. Its index spaces have the types of the keys that number them, so typing sees of each live body
//! what it sees of it in its object.
#![tactic(auto)]

ghost use Rattle.shared_types.specs.Statements.{SharedNumbersKeepTypes, SharedBodiesKeepShapes, SharedBodiesAreTyped, SharedRulesStand, SharedOutputsAreValid};

/// Where a shared link is as `SharedLinkedBy` asks, each number of a function, global or type of the
/// output's module has the type of its key; there are one table and one memory, both imported.
pub fn shared_numbers_keep_types()
    ensures { SharedNumbersKeepTypes }
{}

/// Where each name has one type, what typing asks of the instructions of a live function (their shapes)
/// is the same in the output's module and in the function's object.
pub fn shared_bodies_keep_shapes()
    ensures { SharedBodiesKeepShapes }
{
    live_mark::reached_exactly();
}

/// So where the functions of the objects have a typing, each body of the output's module has one: those
/// of objects, the one that calls the init functions, the one that makes addresses right, and stubs.
pub fn shared_bodies_are_typed()
    ensures { SharedBodiesAreTyped }
{
    live_mark::reached_exactly();
}

/// The rules outside bodies hold of the output's module: indexes are in range, the memory has limits,
/// first values and offsets have their types, and the names of exports differ.
pub fn shared_rules_stand()
    ensures { SharedRulesStand }
{
    live_mark::reached_exactly();
}

/// So the output's module is valid where the live functions and globals of the objects are, each name
/// has one type, and no fault of the link applies.
pub fn shared_outputs_are_valid()
    ensures { SharedOutputsAreValid }
{
    shared_bodies_are_typed();
    shared_rules_stand();
}
