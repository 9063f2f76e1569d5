//! The types of what an output numbers, and that its module is as valid as the objects it is made of.
//! The linked module's index spaces have the types of the keys that number them, so typing sees of each
//! live body what it sees of it in its object.
#![tactic(auto)]

ghost use Rattle.output_types.specs.Statements.{NumbersKeepTypes, BodiesKeepShapes, BodiesAreTyped, RulesStand, OutputsAreValid, PlacesDontCount};

/// Where a link is as `LinkedBy` asks, each number of a function, global or type of the output's module
/// has the type of its key; there are one table and one memory.
pub fn numbers_keep_types()
    ensures { NumbersKeepTypes }
{}

/// Where each name has one type, what typing asks of the instructions of a live function (their shapes)
/// is the same in the output's module and in the function's object.
pub fn bodies_keep_shapes()
    ensures { BodiesKeepShapes }
{
    live_mark::reached_exactly();
}

/// So where the functions of the objects have a typing, each body of the output's module has one: those
/// of objects, the one that calls the init functions, and stubs.
pub fn bodies_are_typed()
    ensures { BodiesAreTyped }
{
    live_mark::reached_exactly();
}

/// The rules outside bodies hold of the output's module: indexes are in range, the memory and the table
/// have limits, first values and offsets have their types, and the names of exports differ.
pub fn rules_stand()
    ensures { RulesStand }
{
    live_mark::reached_exactly();
}

/// So the output's module is valid where the live functions and globals of the objects are, each name
/// has one type, and no fault of the link applies.
pub fn outputs_are_valid()
    ensures { OutputsAreValid }
{
    bodies_are_typed();
    rules_stand();
}

/// Two modules that are the same but for the places of instructions are equally valid, so what is said
/// of the output's tree holds of what its bytes are read as.
pub fn places_dont_count()
    ensures { PlacesDontCount }
{}
