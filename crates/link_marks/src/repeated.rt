//! Whether a name is exported twice.
ghost use Rattle.std.specs.Prelude.{◌≡◌, true, ◌<◌, ◌++◌, ◌∷◌, [], List, Some, None, All, Contains, map, find, length, option_map, slice_get, bytes_eq, IfOk};
ghost use Rattle.link_program.specs.wl_base.declared.fault.Fault.TheVariants.{Duplicate};
ghost use Rattle.link_program.specs.name_entries.View.{InputsRise};
ghost use Rattle.link_program.specs.link_rules.ModeOf.{mode_of};
ghost use Rattle.link_program.specs.link_rules.Marks as marks;
ghost use Rattle.link_program.specs.Answers.{Passes};
ghost use Rattle.link_program.specs.Told.{told_winner};
ghost use Rattle.link_program.specs.Program.{IsProgram};
ghost use Rattle.link_marks.specs.About.{Exporting};
ghost use Rattle.link_marks.specs.Names.{memory_given, given_seen, AreGiven};

use crate::exported::name_seen;
use link_plan::Plan;
use link_program::{LinkError, Mode, Names, Object, Program, Winner, mode_of, refuse};
use std::alloc::Global;
use wl_base::{Fault, InputId, NameTable, OutOfMemory, Seq};

/// The names that were given, and the input of what each names.
#[derive(Drop)]
struct GivenNames {
    names: NameTable,
    inputs: Seq<InputId>,
}

/// The input at a place.
fn input_at(inputs: &[InputId], place: u32) -> Option<InputId>
    ensures { result ≡ slice_get inputs.now place }
{
    inputs.get(place as usize).copied()
}

impl GivenNames {
    /// The input of what was given under the name; or else the name is given.
    fn give(&mut self, name: &[u8], input: InputId) -> Result<Option<InputId>, OutOfMemory>
        ensures found { IfOk result (λ first. (earlier : List marks.Given) → AreGiven earlier self.old.names.names self.old.inputs
            → first ≡ option_map (λ f. f.input) (find (λ f. bytes_eq f.name name.now) earlier)) }
        ensures given { IfOk result (λ first. (earlier : List marks.Given) → AreGiven earlier self.old.names.names self.old.inputs
            → first ≡ None → AreGiven (earlier ++ record { name = name.now; input = input } ∷ []) self.new.names.names self.new.inputs) }
    {
        let Ok(number) = self.names.intern(name) else {
            return Err(OutOfMemory);
        };
        match input_at(self.inputs.as_slice(), number) {
            Some(first) => Ok(Some(first)),
            None => {
                self.inputs.push(input)?;
                Ok(None)
            }
        }
    }
}

/// The names that are given before all exports: that of the memory, unless it is imported.
fn given_first(alloc: Global, imports_memory: bool) -> Result<GivenNames, OutOfMemory>
    ensures { IfOk result (λ g. AreGiven (memory_given imports_memory) g.names.names g.inputs) }
{
    let mut given = GivenNames {
        names: NameTable::new(alloc, u32::MAX),
        inputs: Seq::new(alloc),
    };
    if imports_memory {
        return Ok(given);
    }
    given.give(b"memory".as_slice(), 0)?;
    Ok(given)
}

/// A name that two inputs give.
fn duplicate(
    alloc: Global,
    name: &[u8],
    first: InputId,
    other: InputId,
) -> Result<Fault, OutOfMemory>
    ensures { IfOk result (λ f. f ≡ Duplicate name.now first other) }
{
    let name = Seq::from_slice(alloc, name)?;
    Ok(Fault::Duplicate { name, first, other })
}

/// The first export whose name was given before.
pub(crate) fn first_repeat(
    alloc: Global,
    objects: &[Object],
    names: &Names,
    imports_memory: bool,
    exports: &[Winner],
) -> Result<Option<Fault>, OutOfMemory>
    requires inputs { InputsRise 0 objects.now }
    requires names { All (λ w. w.name < length names.now.names) exports.now }
    ensures { IfOk result (λ f. f ≡ marks.first_repeat [] (memory_given imports_memory ++ map (given_seen objects.now names.now.names) exports.now)) }
{
    let mut given = given_first(alloc, imports_memory)?;
    for winner in exports {
        let name = name_seen(objects, names, winner);
        let other = winner.definition.input;
        if let Some(first) = given.give(name, other)? {
            let fault = duplicate(alloc, name, first, other)?;
            return Ok(Some(fault));
        }
    }
    Ok(None)
}

/// Whether the output imports its memory; a shared one always does.
fn imports_memory(plan: &Plan) -> bool
    ensures { result ≡ marks.by_mode (mode_of plan.now) plan.now.import_memory true }
{
    match mode_of(plan) {
        Mode::Plain => plan.import_memory,
        Mode::Shared => true,
    }
}

/// Stops at the first export whose name an earlier one has, or the memory that isn't imported: by its name, the input of the earlier one
/// (the linker is input 0) and its own.
pub fn repeated_export(
    alloc: Global,
    program: Program<'_>,
    exports: &[Winner],
) -> Result<(), LinkError>
    ghost w: { Exporting }
    requires program { IsProgram program w.program }
    requires winners { All (Contains w.program.winners) w.exports }
    requires exports { exports.now ≡ map (told_winner program.names.now.names) w.exports }
    ensures { Passes result (marks.repeated_export (mode_of w.program.plan) w.program w.exports) }
{
    let imports_memory = imports_memory(program.plan);
    let fault = first_repeat(
        alloc,
        program.objects,
        program.names,
        imports_memory,
        exports,
    )?;
    refuse(fault)
}
