//! What is found of the loaded objects.
ghost use Rattle.std.specs.Prelude.{◌≡◌};
ghost use Rattle.loose_calls.specs.link_program.made_symbols.declared.mode.Mode.{Mode};
ghost use Rattle.loose_calls.specs.link_program.link_names.Numbered.{AreNumbers};
ghost use Rattle.loose_calls.specs.link_program.name_entries.View.{InputsRise};
ghost use Rattle.loose_calls.specs.link_program.name_entries.Fits.{IsTable, Fits};
ghost use Rattle.loose_calls.specs.link_program.link_rules.Program as rules;
ghost use Rattle.loose_calls.specs.link_program.Program.{IsProgramOf};
ghost use Rattle.program_build.specs.Found.{IsFound};

use link_plan::Plan;
use loose_calls::{Entries, EntryTable, Names, Object, Program, Resolution, Tables};
use symbol_race::Winners;

/// What is found of the loaded objects of a link.
#[derive(Drop)]
pub struct Found {
    /// The numbers of names.
    pub names: Names,
    /// What is looked up of each object.
    pub entries: EntryTable,
    /// The rank of the winner of each name, by the number of the name.
    pub ranks: Winners,
    /// What each symbol means.
    pub resolution: Resolution,
    /// The symbols, parts and references of all objects.
    pub tables: Tables,
}

impl Found {
    /// All that the later steps look at, by reference: the plan, the loaded objects, and what was found of them.
    pub fn program<'a>(&'a self, plan: &'a Plan, objects: &'a [Object]) -> Program<'a>
        ensures plan { result.plan.now ≡ plan.now }
        ensures objects { result.objects.now ≡ objects.now }
        ensures names { result.names.now ≡ self.now.names }
        ensures ranks { result.ranks.now ≡ self.now.ranks }
        ensures resolution { result.resolution.now ≡ self.now.resolution }
        ensures tables { result.tables.now ≡ self.now.tables }
        ensures is { (mode : Mode) (p : rules.Program) → IsFound mode plan.now objects.now self.now p → IsProgramOf mode result p }
    {
        Program {
            plan,
            objects,
            names: &self.names,
            ranks: &self.ranks,
            resolution: &self.resolution,
            tables: &self.tables,
        }
    }

    /// The view of the objects of which it was found.
    pub fn view<'a>(&'a self, objects: &'a [Object]) -> Entries<'a>
        ensures objects { result.objects.now ≡ objects.now }
        ensures names { result.names.now ≡ self.now.names }
        ensures parts { result.parts.now ≡ self.now.entries.parts }
        ensures fits { (mode : Mode) → AreNumbers mode objects.now self.now.names → InputsRise 0 objects.now
            → IsTable objects.now self.now.names self.now.entries → Fits mode result }
    {
        self.entries.view(objects, &self.names)
    }
}
