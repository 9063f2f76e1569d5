//! All functions and cells of a program, each with its place.
ghost use Rattle.std.specs.Prelude.{◌≡◌, position, IfOk};
ghost use Rattle.link_program.specs.Keys.{same_function_key, same_global_key};
ghost use Rattle.sym_parts.specs.Keys.{functions_of, cells_of};

use crate::listing::{list_cells, list_functions};
use crate::places::Places;
use link_keys::{function_code, function_codes, global_code, global_codes};
use link_program::{FunctionKey, GlobalKey, Resolution, Tables};
use std::alloc::Global;
use std::marker::Model;
use wl_base::{OutOfMemory, Seq};

/// All functions of a program.
#[derive(Drop)]
pub struct Functions {
    keys: Seq<FunctionKey>,
    places: Places,
}

impl Model for Functions {
    ghost use Rattle.std.specs.Prelude.{List, map};
    ghost use Rattle.link_program.specs.declared.keys.FunctionKey.{FunctionKey};
    ghost use Rattle.link_keys.specs.Codes.{function_code};
    ghost use Rattle.sym_parts.specs.Keys.{ArePlaces};

    ghost Value = { List FunctionKey };

    ghost view = { λ f. f.keys };

    ghost invariant = { λ f. ArePlaces (map function_code f.keys) f.places };
}

impl Functions {
    /// All functions of a program.
    pub fn new(
        alloc: Global,
        resolution: &Resolution,
        tables: &Tables,
    ) -> Result<Functions, OutOfMemory>
        ensures { IfOk result (λ f. f ≡ functions_of resolution.now.imports tables.now) }
    {
        let keys = list_functions(alloc, resolution, tables)?;
        let codes = function_codes(alloc, keys.as_slice())?;
        let places = Places::new(alloc, codes.as_slice())?;
        Ok(Functions {
            keys: Seq::from_vec(keys),
            places,
        })
    }

    /// The functions, by their places.
    pub fn keys(&self) -> &[FunctionKey]
        ensures { result.now ≡ self.now }
    {
        self.keys.as_slice()
    }

    /// The place of a function.
    #[tactic(auto, using(crate::proofs::Coded::function_placed))]
    pub fn place(&self, key: FunctionKey) -> Option<u32>
        ensures { result ≡ position (same_function_key key) self.now }
    {
        self.places.find(function_code(key))
    }
}

/// All cells of a program.
#[derive(Drop)]
pub struct Cells {
    keys: Seq<GlobalKey>,
    places: Places,
}

impl Model for Cells {
    ghost use Rattle.std.specs.Prelude.{List, map};
    ghost use Rattle.link_program.specs.declared.keys.GlobalKey.{GlobalKey};
    ghost use Rattle.link_keys.specs.Codes.{global_code};
    ghost use Rattle.sym_parts.specs.Keys.{ArePlaces};

    ghost Value = { List GlobalKey };

    ghost view = { λ c. c.keys };

    ghost invariant = { λ c. ArePlaces (map global_code c.keys) c.places };
}

impl Cells {
    /// All cells of a program.
    pub fn new(
        alloc: Global,
        resolution: &Resolution,
        tables: &Tables,
    ) -> Result<Cells, OutOfMemory>
        ensures { IfOk result (λ c. c ≡ cells_of resolution.now.imports tables.now) }
    {
        let keys = list_cells(alloc, resolution, tables)?;
        let codes = global_codes(alloc, keys.as_slice())?;
        let places = Places::new(alloc, codes.as_slice())?;
        Ok(Cells {
            keys: Seq::from_vec(keys),
            places,
        })
    }

    /// The cells, by their places.
    pub fn keys(&self) -> &[GlobalKey]
        ensures { result.now ≡ self.now }
    {
        self.keys.as_slice()
    }

    /// The place of a cell.
    #[tactic(auto, using(crate::proofs::Coded::cell_placed))]
    pub fn place(&self, key: GlobalKey) -> Option<u32>
        ensures { result ≡ position (same_global_key key) self.now }
    {
        self.places.find(global_code(key))
    }
}
