//! What holds of keys and numbers, as a call that does nothing: its contract is the law.
ghost use Rattle.std.specs.Prelude.{ℕ, List, All};
ghost use Rattle.link_keys.specs.link_program.name_rules.Entries.{InputSymbol};
ghost use Rattle.link_keys.specs.link_program.made_symbols.declared.mode.Mode.{Mode};
ghost use Rattle.link_keys.specs.link_program.link_rules.Program as rules;
ghost use Rattle.link_keys.specs.link_program.link_rules.Marks.{refs_of};
ghost use Rattle.link_keys.specs.link_program.link_rules.Keys.{numbers};
ghost use Rattle.link_keys.specs.link_program.declared.program.Program.{Program as Data};
ghost use Rattle.link_keys.specs.link_program.Program.{IsProgramOf};
ghost use Rattle.link_keys.specs.link_program.Stand.{PartsStand};
ghost use Rattle.link_keys.specs.link_program.Live.{AreLive, AllMeant};
ghost use Rattle.link_numbers.specs.Laws.{TellsNumbers, KnowsRefOf, AreImported};

/// Of keys that are known, the numbers as they are told are the numbers; and what references of live parts name is known. Of a shared output
/// this needs that its imported globals are among the imports, as they are where the numbers were given.
pub fn keys_are_told()
    ensures numbers { (mode : Mode) (d : Data) (p : rules.Program) (live : List ℕ) (parts : List rules.Part) (es : List InputSymbol) → IsProgramOf mode d p
        → PartsStand p → AreLive p live parts → AllMeant parts → AreImported mode d.resolution.now.imports p parts
        → TellsNumbers d.names.now.names d.resolution.now.imports (numbers mode p parts es) }
    ensures refs { (mode : Mode) (d : Data) (p : rules.Program) (live : List ℕ) (parts : List rules.Part) → IsProgramOf mode d p
        → PartsStand p → AreLive p live parts → AllMeant parts
        → All (KnowsRefOf mode d.names.now.names d.resolution.now.imports) (refs_of parts) }
{}
