//! What calls name, in a link that is like lld's, where a function is called by another type than its definition has.
ghost use Rattle.std.specs.Prelude.{◌≡◌, ℕ, [], false, Bool, List};
ghost use Rattle.link_program.specs.object_file.declared.object.Object.{Object};
ghost use Rattle.link_program.specs.made_symbols.declared.mode.Mode.{Mode};
ghost use Rattle.link_program.specs.name_rules.Entries.{ImportKey};
ghost use Rattle.program_tables.specs.Loose.{IsLoose};

use link_program::Symbol;
use std::alloc::Global;
use wasm_types::FuncType;
use wl_base::Seq;

/// The variants of functions, which calls by other types name. There are none but in a link that is like lld's.
#[derive(Drop)]
pub struct Loose {
    /// By the number of a symbol, that of the one which a call of it names; where there is none, it is the symbol itself.
    pub called: Seq<u32>,
    /// The symbols of the variants, which stand behind those of all objects.
    pub symbols: Seq<Symbol>,
    /// The types of the different variants, in the order of their names.
    pub types: Seq<FuncType>,
}

impl Loose {
    /// No variant. It takes no memory.
    pub fn none(alloc: Global) -> Loose
        ensures { (mode : Mode) (allow : Bool) (names : List (List ℕ)) (imports : List ImportKey) (objects : List Object) → IsLoose mode false allow names imports objects result }
    {
        Loose {
            called: Seq::new(alloc),
            symbols: Seq::new(alloc),
            types: Seq::new(alloc),
        }
    }
}
