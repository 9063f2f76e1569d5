//! What holds of the image and the windows of a program, as calls that do nothing: their contracts are the laws.
ghost use Rattle.std.specs.Prelude.{◌≡◌, ℕ, List, Ok, Err, length};
ghost use Rattle.link_program.specs.reloc_apply.declared.window.Window.{Window as Value};
ghost use Rattle.link_program.specs.reloc_apply.declared.window.Patches.{Patches as Written};
ghost use Rattle.link_program.specs.reloc_apply.Windows.{filled};
ghost use Rattle.patch_pieces.specs.Judged.{judged_patches};
ghost use Rattle.link_program.specs.reloc_apply.Apart.{AreApart};
ghost use Rattle.link_program.specs.wl_base.Answers.{Answers};
ghost use Rattle.link_program.specs.wl_base.declared.layout_error.LayoutError.{LayoutError as Fault};
ghost use Rattle.link_program.specs.image_emit.declared.tree.Image.{Image as Whole};
ghost use Rattle.link_program.specs.image_emit.declared.measuring.Measured.{Measured as Size};
ghost use Rattle.link_program.specs.image_emit.Bytes.{tree_of, bytes_of};
ghost use Rattle.link_program.specs.image_emit.Measures.{LieIn, image_measure};
ghost use Rattle.link_program.specs.image_emit.Pieces.{sources};
ghost use Rattle.link_program.specs.name_rules.Entries.{InputSymbol};
ghost use Rattle.link_program.specs.made_symbols.declared.mode.Mode.{Mode};
ghost use Rattle.link_program.specs.link_rules.Program.{Program, Part};
ghost use Rattle.link_program.specs.link_rules.Keys.{numbers};
ghost use Rattle.link_program.specs.link_rules.Values.{Layout};
ghost use Rattle.link_program.specs.link_rules.Output.{layout, image, source_windows, held};
ghost use Rattle.link_program.specs.Moved.{moved_windows};
ghost use Rattle.link_program.specs.Stand.{PartsStand};
ghost use Rattle.link_program.specs.Live.{AreLive};
ghost use Rattle.link_output.specs.Written.{StandInSources, Writes};

/// The sources of the image lie in their files, and the windows of each source in it, as they are judged and as they are written.
pub fn windows_stand_in_sources()
    ensures lie { (mode : Mode) (p : Program) (live : List ℕ) (parts : List Part) (es : List InputSymbol) → PartsStand p → AreLive p live parts
        → LieIn p.files (image mode p parts es (layout mode p parts es)) }
    ensures stand { (mode : Mode) (p : Program) (live : List ℕ) (parts : List Part) (es : List InputSymbol) → PartsStand p → AreLive p live parts
        → StandInSources (source_windows mode p parts es (layout mode p parts es)) (sources (tree_of p.files (image mode p parts es (layout mode p parts es)))) }
    ensures held { (mode : Mode) (p : Program) (live : List ℕ) (parts : List Part) (es : List InputSymbol) → PartsStand p → AreLive p live parts
        → StandInSources (held mode (source_windows mode p parts es (layout mode p parts es))) (sources (tree_of p.files (image mode p parts es (layout mode p parts es)))) }
{}

/// The first value that is out of range, of the windows by their places in the output, is the first one source by source.
pub fn values_are_judged_in_turn()
    ensures { (files : List (List ℕ)) (i : Whole) (m : Size) (wss vss : List (List Value)) (f : Fault) → LieIn files i → image_measure i ≡ Ok m
        → StandInSources wss (sources (tree_of files i)) → Answers {A = Written} (Err f) (judged_patches (moved_windows m.places wss) (moved_windows m.places vss))
        → Writes (Err f) wss vss files i }
{}

/// What is written into windows that stand in their sources lies apart in the output, and with it written the image's bytes are the output's.
pub fn patches_make_the_output()
    ensures { (files : List (List ℕ)) (i : Whole) (m : Size) (wss vss : List (List Value)) (p : Written) → LieIn files i → image_measure i ≡ Ok m
        → StandInSources wss (sources (tree_of files i)) → StandInSources vss (sources (tree_of files i))
        → judged_patches (moved_windows m.places wss) (moved_windows m.places vss) ≡ Ok p
        → (AreApart 0 (length (bytes_of (tree_of files i))) p.patches) × Writes (Ok (filled p.patches (bytes_of (tree_of files i)))) wss vss files i }
{}
