//! Function types.
ghost use Rattle.std.specs.Prelude.{◌≡◌, ◌++◌, ◌∷◌, [], length, slice_get, option_map, OnOk, OnErr, IfOk};
ghost use Rattle.object_columns.specs.Seen.{func_type_seen};

use std::alloc::Global;
use std::marker::Model;
use wasm_types::{FuncType, ValType};
use wl_base::OutOfMemory;
use wl_lists::Lists;

/// A function type, lent.
#[derive(Clone, Copy, Debug)]
pub struct FuncTypeRef<'a> {
    /// The types of the arguments.
    pub params: &'a [ValType],
    /// The types of what it gives.
    pub results: &'a [ValType],
}

/// A list of function types, which contracts see as that list.
#[derive(Debug, Drop)]
pub struct FuncTypes {
    params: Lists<ValType>,
    results: Lists<ValType>,
}

impl Model for FuncTypes {
    ghost use Rattle.std.specs.Prelude.{◌≡◌, List, length};
    ghost use Rattle.body_windows.specs.wasm_instr.wasm_types.declared.function.FuncType.{FuncType as Kind};
    ghost use Rattle.object_columns.specs.Columns.{joined, func_type};

    ghost Value = { List Kind };

    ghost view = { λ t. joined func_type t.params t.results };

    ghost invariant = { λ t. length t.params ≡ length t.results };
}

impl FuncTypes {
    /// The empty list. It takes no memory.
    pub fn new(alloc: Global) -> Self
        ensures { result ≡ [] }
    {
        FuncTypes {
            params: Lists::new(alloc),
            results: Lists::new(alloc),
        }
    }

    /// The list of these types.
    pub fn of(alloc: Global, types: &[FuncType]) -> Result<Self, OutOfMemory>
        ensures { IfOk result (λ list. list ≡ types.now) }
    {
        let mut list = FuncTypes::with_room(alloc, types)?;
        for kind in types {
            list.push(kind)?;
        }
        Ok(list)
    }

    /// The empty list, with room for these types.
    fn with_room(alloc: Global, types: &[FuncType]) -> Result<Self, OutOfMemory>
        ensures { IfOk result (λ list. list ≡ []) }
    {
        let mut params: usize = 0;
        let mut results: usize = 0;
        for kind in types {
            params = params.saturating_add(kind.params.len());
            results = results.saturating_add(kind.results.len());
        }
        Ok(FuncTypes {
            params: Lists::with_room(alloc, types.len(), params)?,
            results: Lists::with_room(alloc, types.len(), results)?,
        })
    }

    /// How many types there are.
    pub fn len(&self) -> usize
        ensures { result ≡ length self.now }
    {
        self.params.len()
    }

    /// The type at a place, counted from 0; `None` exactly where there is none.
    pub fn get(&self, at: usize) -> Option<FuncTypeRef<'_>>
        ensures { option_map func_type_seen result ≡ slice_get self.now at }
    {
        let Some(params) = self.params.get(at) else {
            return None;
        };
        let Some(results) = self.results.get(at) else {
            return None;
        };
        Some(FuncTypeRef { params, results })
    }

    /// Puts a type at the end. Where memory is refused the list is as before.
    pub fn push(&mut self, kind: &FuncType) -> Result<(), OutOfMemory>
        ensures ok { OnOk result (self.new ≡ self.old ++ kind.now ∷ []) }
        ensures err { OnErr result (self.new ≡ self.old) }
    {
        self.params.push(kind.params.as_slice())?;
        match self.results.push(kind.results.as_slice()) {
            Ok(()) => Ok(()),
            Err(e) => {
                self.params.truncate(self.results.len());
                Err(e)
            }
        }
    }

    /// The same list in no more memory than it needs.
    pub fn shrunk(self) -> Self
        ensures { result ≡ self }
    {
        FuncTypes {
            params: self.params.shrunk(),
            results: self.results.shrunk(),
        }
    }
}
