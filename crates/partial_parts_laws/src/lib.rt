//! The parts of a link in which one object stands for a run of neighbouring inputs: those of the whole link, each where it stands there; and
//! so the programs of the two links are alike.
//!
//! The laws stand as calls that do nothing: their contracts are the laws.
#![tactic(auto)]

ghost use Rattle.partial_parts_laws.specs.Moves.{ChunksAreMoved};
ghost use Rattle.partial_parts_laws.specs.Alike.{PartsAreMoved, CallsAreAlike, PartsAreAlike};
ghost use Rattle.partial_parts_laws.specs.AlikeLinks.{ExportsAreSame, StubsAreSame, ProgramsAreAlike, OutputsAreSame, LinksAreSame, LinkedFilesAreSame};
ghost use Rattle.partial_parts_laws.specs.ReadBack.{TreesAreRead, PartsAreRead};
ghost use Rattle.partial_parts_laws.specs.SymbolsBack.{SymbolsAreRead};
ghost use Rattle.partial_parts_laws.specs.NamedObjects.{ObjectsAreNamed};
ghost use Rattle.partial_parts_laws.specs.RunBack.{RunsAreRead, RunsRefer, RunsGroups};
ghost use Rattle.partial_parts_laws.specs.RulesKept.{RulesAreKept};
ghost use Rattle.partial_parts_laws.specs.GroupsBack.{GroupsAreRead, ImportsAreTaken};
ghost use Rattle.partial_parts_laws.specs.NumbersFit.{NumbersFit};
ghost use Rattle.partial_parts_laws.specs.RelocsFit.{RelocsFit};
ghost use Rattle.partial_parts_laws.specs.ReadOperands.{ReadHaveAddends};
ghost use Rattle.partial_parts_laws.specs.Writable.{AreWritable};

use partial_rules::laws::alike_programs_give_the_same_output;

/// The kept parts of each kind are those of the whole link, in one order: those of the run are the one object's.
pub fn chunks_are_moved()
    ensures { ChunksAreMoved }
{}

/// Where chunks and definitions of the whole link stand in the later one, they are told apart as they were, of the same kinds, names, flags and
/// offsets, and each definition is in the moved chunk.
pub fn parts_are_moved()
    ensures { PartsAreMoved }
{}

/// The init functions that the later link calls are those of the whole one, moved, in one order.
pub fn calls_are_alike()
    ensures { CallsAreAlike }
{}

/// The parts of each kind are alike, in one order: they have the same bytes once windows are written, and each window names what it named, moved.
pub fn parts_are_alike()
    ensures { PartsAreAlike }
{}

/// What is exported has the same names.
pub fn exports_are_same()
    ensures { ExportsAreSame }
{}

/// The null functions that parts call have the same names, in one order, and the same types.
pub fn stubs_are_same()
    ensures { StubsAreSame }
{}

/// So the two programs are alike.
pub fn programs_are_alike()
    ensures { ProgramsAreAlike }
{}

/// And they give the same output: where the whole link gives some bytes, the later one gives the same.
pub fn outputs_are_same()
    ensures { OutputsAreSame }
{
    alike_programs_give_the_same_output();
}

/// So where the link of the whole program gives some bytes, that of the later one gives the same: no fault is new.
pub fn links_are_same()
    ensures { LinksAreSame }
{
    outputs_are_same();
}

/// And where files are loaded as these objects, the link of the one files gives what that of the others gives.
pub fn linked_files_are_same()
    ensures { LinkedFilesAreSame }
{
    links_are_same();
}

/// What is read of a program's relocatable object has its types, imports, init functions and groups, and for each kept part in turn a function of its
/// type, a segment with its info, or a global with its type and value.
pub fn trees_are_read()
    ensures { TreesAreRead }
{}

/// And all parts are read: each function with its operands, its export name and its bytes, each segment with its windows and its bytes, and as many
/// imports of functions and globals as there are open ones. It asks that the objects are sound, lie in their files and have no clash of names, and that
/// the object made of them is well formed.
pub fn parts_are_read()
    ensures { PartsAreRead }
{}

/// An object that was read is named so: the symbol of a section has no name, one that names an import without EXPLICIT_NAME has the import's, and the one
/// table that may be imported is that of functions.
pub fn objects_are_named()
    ensures { ObjectsAreNamed }
{}

/// So are the symbols: those that stand in the program, with their names, types and imports. It asks besides that the objects are named as they are read.
pub fn symbols_are_read()
    ensures { SymbolsAreRead }
{}

/// So the one object that the later link reads for a run has the symbols and parts of the run alone, and defines what the run defines in the whole link.
pub fn runs_are_read()
    ensures { RunsAreRead }
{}

/// The parts of a program's relocatable object are counted alike, their indexes in range, their symbols there with names that differ, segment infos of
/// segments, init functions and groups as they have to be, and relocations are for the code and the data, name what their types name and lie in
/// their parts. So where what reads an address reads it too, no rule of objects is broken. It asks that no part refers to a local symbol of one
/// that isn't kept, and that there are at most 2^30 bytes.
pub fn rules_are_kept()
    ensures { RulesAreKept }
{}

/// What is read of a program's relocatable object has the groups of its objects.
pub fn groups_are_read()
    ensures { GroupsAreRead }
{}

/// It imports one memory, and at most one table, which is that of functions.
pub fn imports_are_taken()
    ensures { ImportsAreTaken }
{}

/// Its numbers, names and flags are in range where those of its objects are: those of imports, functions, exports and the section `linking`.
pub fn numbers_fit()
    ensures { NumbersFit }
{}

/// So are those of its relocations in the data, and of those in code where an operand has addend 0 if its relocation's type has none.
pub fn relocs_fit()
    ensures { RelocsFit }
{}

/// Operands of an object that was read have addend 0 where their relocations' types have none.
pub fn read_have_addends()
    ensures { ReadHaveAddends }
{}

/// So it is well formed, where its bodies spell code on whose immediates their relocations stand, and the bytes of its globals their values.
pub fn are_writable()
    ensures { AreWritable }
{}

/// References of the run stand on imports, and those to data on none.
pub fn runs_refer()
    ensures { RunsRefer }
{}

/// The one object that is read for a run has the run's groups.
pub fn runs_groups()
    ensures { RunsGroups }
{}
