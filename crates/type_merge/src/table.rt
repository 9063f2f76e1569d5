//! The types that were added.
ghost use Rattle.std.specs.Prelude.{◌≡◌, ◌<◌, ◌-◌, ◌^◌, [], length, Some, IfOk, OnOk, OnErr};
ghost use Rattle.type_merge.specs.Types.{type_number, with_type};

use indexmap::IndexSet;
use std::alloc::Global;
use std::marker::Model;
use wasm_types::{FuncType, ValType};
use wl_base::{OutOfMemory, Seq};

/// Function types, each once, in first-seen order. Contracts see it as the list of its types.
#[derive(Drop)]
pub struct TypeTable {
    alloc: Global,
    types: IndexSet<FuncType>,
    /// Room for the type that is looked for.
    sought: FuncType,
}

impl Model for TypeTable {
    ghost use Rattle.std.specs.Prelude.{List};
    ghost use Rattle.wasm_types.specs.declared.function.FuncType.{FuncType as Item};

    ghost Value = { List Item };

    ghost view = { λ t. t.types.keys };
}

impl TypeTable {
    /// A table without types. It takes no memory.
    pub fn new(alloc: Global) -> TypeTable
        ensures { result ≡ [] }
    {
        TypeTable {
            alloc,
            types: IndexSet::new(alloc),
            sought: FuncType {
                params: Seq::new(alloc),
                results: Seq::new(alloc),
            },
        }
    }

    /// The place of the type, counted from 0 in first-seen order. A type that isn't held goes last, as a copy of its own; where
    /// memory is refused the types stay as they were.
    ///
    /// Two types are one where their lists are the same (Core 2.3.6).
    pub fn add(&mut self, t: &FuncType) -> Result<u32, OutOfMemory>
        requires { length self.old < 2 ^ 32 - 1 }
        ensures types { OnOk result (self.new ≡ with_type self.old t.now) }
        ensures number { IfOk result (λ number. type_number self.new t.now ≡ Some number) }
        ensures err { OnErr result (self.new ≡ self.old) }
    {
        add_to(self.alloc, &mut self.types, t)
    }

    /// As `add`, of the type that takes these parameters and gives these results. It takes memory only where the type isn't
    /// held, but for room that is kept.
    pub fn add_of(&mut self, params: &[ValType], results: &[ValType]) -> Result<u32, OutOfMemory>
        requires { length self.old < 2 ^ 32 - 1 }
        ensures types { OnOk result (self.new ≡ with_type self.old (record { params = params.now; results = results.now })) }
        ensures number { IfOk result (λ number. type_number self.new (record { params = params.now; results = results.now }) ≡ Some number) }
        ensures err { OnErr result (self.new ≡ self.old) }
    {
        self.sought.params.truncate(0);
        self.sought.params.extend_from_slice(params)?;
        self.sought.results.truncate(0);
        self.sought.results.extend_from_slice(results)?;
        add_to(self.alloc, &mut self.types, &self.sought)
    }

    /// The types in first-seen order.
    pub fn types(&self) -> &[FuncType]
        ensures { result.now ≡ self.now }
    {
        self.types.as_slice()
    }
}

/// The place of the type among these, where a copy of it goes last if it isn't there.
#[tactic(auto, using(crate::proofs::Numbers::new_last))]
fn add_to(alloc: Global, types: &mut IndexSet<FuncType>, t: &FuncType) -> Result<u32, OutOfMemory>
    requires { length types.old.keys < 2 ^ 32 - 1 }
    ensures types { OnOk result (types.new.keys ≡ with_type types.old.keys t.now) }
    ensures number { IfOk result (λ number. type_number types.new.keys t.now ≡ Some number) }
    ensures err { OnErr result (types.new.keys ≡ types.old.keys) }
{
    if let Some(number) = types.get_index_of(t) {
        return Ok(number as u32);
    }
    let number = types.len();
    let copy = copy_of(alloc, t)?;
    types.insert(copy)?;
    Ok(number as u32)
}

/// The same type in memory of its own.
fn copy_of(alloc: Global, t: &FuncType) -> Result<FuncType, OutOfMemory>
    ensures { IfOk result (λ copy. copy ≡ t.now) }
{
    Ok(FuncType {
        params: Seq::from_slice(alloc, t.params.as_slice())?,
        results: Seq::from_slice(alloc, t.results.as_slice())?,
    })
}
