//! The types of the object, each with its number.
ghost use Rattle.std.specs.Prelude.{◌≡◌, ◌<◌, ◌≤◌, ◌-◌, ◌^◌, nat_lt, length, take, IfOk, OnOk};
ghost use Rattle.partial_items.specs.Types.{number_in};

use std::alloc::Global;
use std::marker::Model;
use type_merge::TypeTable;
use wasm_types::{FuncType, ValType};
use wl_base::OutOfMemory;

/// The types of the object. Contracts see the list of them. A type that is looked for and isn't one of them is kept behind them.
#[derive(Drop)]
pub struct TypeNumbers {
    table: TypeTable,
    /// How many of the table's types are the object's.
    count: usize,
}

impl Model for TypeNumbers {
    ghost use Rattle.std.specs.Prelude.{◌≤◌, List, length, take};
    ghost use Rattle.partial_tree.specs.link_program.wasm_types.declared.function.FuncType.{FuncType as Item};

    ghost Value = { List Item };

    ghost view = { λ t. take t.count t.table };

    ghost invariant = { λ t. t.count ≤ length t.table };
}

/// Whether one type more fits.
fn has_room(table: &TypeTable) -> bool
    ensures { result ≡ nat_lt (length table.now) (2 ^ 32 - 1) }
{
    table.types().len() < u32::MAX as usize
}

/// The place of a type among the first so many, or 0. It is put behind all others, where it isn't held.
#[tactic(auto, using(crate::proofs::Among::number_in_front, crate::proofs::Among::number_behind, crate::proofs::Among::front_stays, crate::proofs::Among::no_shorter))]
fn number_of(
    table: &mut TypeTable,
    count: usize,
    params: &[ValType],
    results: &[ValType],
) -> Result<u32, OutOfMemory>
    requires { count ≤ length table.old }
    ensures front { OnOk result (take count table.new ≡ take count table.old) }
    ensures longer { count ≤ length table.new }
    ensures number { IfOk result (λ n. n ≡ number_in (take count table.old) (record { params = params.now; results = results.now })) }
{
    if !has_room(table) {
        return Err(OutOfMemory);
    }
    let number = table.add_of(params, results)?;
    if (number as usize) < count {
        Ok(number)
    } else {
        Ok(0)
    }
}

impl TypeNumbers {
    /// The types of a table.
    pub fn new(table: TypeTable) -> TypeNumbers
        ensures { result ≡ table }
    {
        let count = table.types().len();
        TypeNumbers { table, count }
    }

    /// The types, each once.
    pub fn types(&self) -> &[FuncType]
        ensures { result.now ≡ self.now }
    {
        &self.table.types()[..self.count]
    }

    /// The number of the type of these parameters and results, or 0 where the object hasn't it.
    pub fn number(&mut self, params: &[ValType], results: &[ValType]) -> Result<u32, OutOfMemory>
        ensures types { OnOk result (self.new ≡ self.old) }
        ensures number { IfOk result (λ n. n ≡ number_in self.old (record { params = params.now; results = results.now })) }
    {
        number_of(&mut self.table, self.count, params, results)
    }
}
