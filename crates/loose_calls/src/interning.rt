//! Variants get numbers of names, behind all others.
ghost use Rattle.std.specs.Prelude.{◌≡◌, ◌≤◌, ◌-◌, ◌==◌, ◌∷◌, ◌++◌, [], Some, if◌then◌else◌, length, OnOk, IfOk};
ghost use Rattle.program_tables.specs.link_program.wl_base.Names.{number_of};
ghost use Rattle.link_names.specs.Interning.{more};
ghost use Rattle.loose_calls.specs.Interned.{Adds, Stays, Interns};

use crate::variant::Variant;
use program_tables::{Lead, Names, Symbol};
use std::alloc::Global;
use wasm_types::FuncType;
use wl_base::{OutOfMemory, Seq};

/// The symbols of variants, and the types of those of different names.
#[derive(Drop)]
pub(crate) struct Interned {
    pub(crate) symbols: Seq<Symbol>,
    pub(crate) types: Seq<FuncType>,
}

/// The number of the name of a variant. One that another symbol has, which can't be, is answered as want of memory.
fn number_of(names: &mut Names, base: u32, name: &[u8]) -> Result<u32, OutOfMemory>
    ensures names { OnOk result (names.new.names ≡ more names.old.names (name.now ∷ [])) }
    ensures stays { OnOk result (Stays names.old names.new) }
    ensures number { IfOk result (λ number. number_of names.new.names name.now ≡ Some number) }
    ensures behind { IfOk result (λ number. base ≤ number) }
{
    let Ok(number) = names.add(name) else {
        return Err(OutOfMemory);
    };
    if number < base {
        return Err(OutOfMemory);
    }
    Ok(number)
}

/// The same type once more.
fn copied(alloc: Global, t: &FuncType) -> Result<FuncType, OutOfMemory>
    ensures { IfOk result (λ copy. copy ≡ t.now) }
{
    let params = Seq::from_slice(alloc, t.params.as_slice())?;
    let results = Seq::from_slice(alloc, t.results.as_slice())?;
    Ok(FuncType { params, results })
}

impl Interned {
    /// The type of one variant more, where its name is new.
    fn add_type(
        &mut self,
        alloc: Global,
        variant: &Variant,
        number: u32,
        base: u32,
    ) -> Result<(), OutOfMemory>
        requires { base ≤ number }
        ensures types { OnOk result (self.new.types ≡ (if number - base == length self.old.types then self.old.types ++ variant.now.of_type ∷ [] else self.old.types)) }
        ensures symbols { OnOk result (self.new.symbols ≡ self.old.symbols) }
    {
        if (number - base) as usize == self.types.len() {
            self.types.push(copied(alloc, &variant.of_type)?)?;
        }
        Ok(())
    }

    /// One variant more, whose name has this number, where so many names stand before those of variants.
    fn add(
        &mut self,
        alloc: Global,
        variant: &Variant,
        number: u32,
        base: u32,
    ) -> Result<(), OutOfMemory>
        requires { base ≤ number }
        ensures { OnOk result (Adds variant.now number base self.old self.new) }
    {
        self.add_type(alloc, variant, number, base)?;
        self.symbols.push(Symbol {
            kind: variant.kind,
            name: Some(number),
            lead: Lead::Null,
        })?;
        Ok(())
    }
}

/// The symbols and types of variants, whose names go last.
pub(crate) fn intern_all(
    alloc: Global,
    names: &mut Names,
    variants: &[Variant],
) -> Result<Interned, OutOfMemory>
    ensures { IfOk result (Interns names.old names.new variants.now) }
{
    let base = names.count();
    let mut interned = Interned {
        symbols: Seq::new(alloc),
        types: Seq::new(alloc),
    };
    for variant in variants {
        let number = number_of(names, base, variant.name.as_slice())?;
        interned.add(alloc, variant, number, base)?;
    }
    names.count();
    Ok(interned)
}
