//! Imports.
ghost use Rattle.std.specs.Prelude.{◌≡◌, ◌++◌, ◌∷◌, [], length, slice_get, option_map, OnOk, OnErr, IfOk};
ghost use Rattle.object_columns.specs.Seen.{import_seen};

use std::alloc::Global;
use std::marker::Model;
use wasm_types::{Import, ImportKind};
use wl_base::{OutOfMemory, Seq};
use wl_lists::{Lists, shrunk, with_room};

/// An import, lent (Core 5.5.5).
#[derive(Clone, Copy, Debug)]
pub struct ImportRef<'a> {
    /// The module that it is taken from, as UTF-8.
    pub module: &'a [u8],
    /// Its name there, as UTF-8.
    pub field: &'a [u8],
    /// What it is.
    pub kind: ImportKind,
}

/// A list of imports, which contracts see as that list.
#[derive(Debug, Drop)]
pub struct Imports {
    kinds: Seq<ImportKind>,
    modules: Lists<u8>,
    fields: Lists<u8>,
}

impl Model for Imports {
    ghost use Rattle.std.specs.Prelude.{◌≡◌, List, length};
    ghost use Rattle.body_windows.specs.wasm_instr.wasm_types.declared.import.Import.{Import as Taken};
    ghost use Rattle.object_columns.specs.Columns.{joined_three, import_of};

    ghost Value = { List Taken };

    ghost view = { λ i. joined_three import_of i.kinds i.modules i.fields };

    ghost invariant = { λ i. (length i.kinds ≡ length i.modules) × (length i.kinds ≡ length i.fields) };
}

impl Imports {
    /// The empty list. It takes no memory.
    pub fn new(alloc: Global) -> Self
        ensures { result ≡ [] }
    {
        Imports {
            kinds: Seq::new(alloc),
            modules: Lists::new(alloc),
            fields: Lists::new(alloc),
        }
    }

    /// The list of these imports.
    pub fn of(alloc: Global, imports: &[Import]) -> Result<Self, OutOfMemory>
        ensures { IfOk result (λ list. list ≡ imports.now) }
    {
        let mut list = Imports::with_room(alloc, imports)?;
        for import in imports {
            list.push(import)?;
        }
        Ok(list)
    }

    /// The empty list, with room for these imports.
    fn with_room(alloc: Global, imports: &[Import]) -> Result<Self, OutOfMemory>
        ensures { IfOk result (λ list. list ≡ []) }
    {
        let mut modules: usize = 0;
        let mut fields: usize = 0;
        for import in imports {
            modules = modules.saturating_add(import.module.len());
            fields = fields.saturating_add(import.field.len());
        }
        Ok(Imports {
            kinds: with_room(alloc, imports.len())?,
            modules: Lists::with_room(alloc, imports.len(), modules)?,
            fields: Lists::with_room(alloc, imports.len(), fields)?,
        })
    }

    /// How many imports there are.
    pub fn len(&self) -> usize
        ensures { result ≡ length self.now }
    {
        self.kinds.len()
    }

    /// The import at a place, counted from 0; `None` exactly where there is none.
    pub fn get(&self, at: usize) -> Option<ImportRef<'_>>
        ensures { option_map import_seen result ≡ slice_get self.now at }
    {
        let Some(kind) = self.kinds.get(at) else {
            return None;
        };
        let Some(module) = self.modules.get(at) else {
            return None;
        };
        let Some(field) = self.fields.get(at) else {
            return None;
        };
        Some(ImportRef {
            module,
            field,
            kind: *kind,
        })
    }

    /// Puts an import at the end. Where memory is refused the list is as before.
    pub fn push(&mut self, import: &Import) -> Result<(), OutOfMemory>
        ensures ok { OnOk result (self.new ≡ self.old ++ import.now ∷ []) }
        ensures err { OnErr result (self.new ≡ self.old) }
    {
        let len = self.kinds.len();
        self.kinds.push(import.kind)?;
        if let Err(e) = self.modules.push(import.module.as_slice()) {
            self.kinds.truncate(len);
            return Err(e);
        }
        match self.fields.push(import.field.as_slice()) {
            Ok(()) => Ok(()),
            Err(e) => {
                self.kinds.truncate(len);
                self.modules.truncate(len);
                Err(e)
            }
        }
    }

    /// The same list in no more memory than it needs.
    pub fn shrunk(self) -> Self
        ensures { result ≡ self }
    {
        Imports {
            kinds: shrunk(self.kinds),
            modules: self.modules.shrunk(),
            fields: self.fields.shrunk(),
        }
    }
}
