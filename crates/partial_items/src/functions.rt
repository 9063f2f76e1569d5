//! The types of the kept functions, by their numbers.
ghost use Rattle.std.specs.Prelude.{◌≡◌, false, Some, map, slice_get, slice_index_or, IfOk, OnOk};
ghost use Rattle.partial_tree.specs.link_program.made_symbols.declared.mode.Mode.TheVariants.{Plain};
ghost use Rattle.partial_tree.specs.link_program.link_rules.Program.{Program as Rules};
ghost use Rattle.partial_tree.specs.link_program.Program.{IsProgramOf};
ghost use Rattle.partial_tree.specs.partial_rules.Partial as partial;
ghost use Rattle.partial_items.specs.Types.{number_in, content_number, function_type_number};

use crate::numbers::TypeNumbers;
use partial_tree::{Content, Program, Tables, part_at};
use std::alloc::Global;
use wasm_types::FuncType;
use wl_base::{OutOfMemory, Seq};

/// The number of a type.
fn number_of(numbers: &mut TypeNumbers, t: &FuncType) -> Result<u32, OutOfMemory>
    ensures types { OnOk result (numbers.new ≡ numbers.old) }
    ensures number { IfOk result (λ n. n ≡ number_in numbers.old t.now) }
{
    numbers.number(t.params.as_slice(), t.results.as_slice())
}

/// The number of each of these types in the object, or 0 where the object hasn't it.
pub fn type_numbers(
    alloc: Global,
    numbers: &mut TypeNumbers,
    types: &[FuncType],
) -> Result<Seq<u32>, OutOfMemory>
    ensures types { OnOk result (numbers.new ≡ numbers.old) }
    ensures numbers { IfOk result (λ ns. ns ≡ map (number_in numbers.old) types.now) }
{
    let mut list = Seq::new(alloc);
    for t in types {
        let number = number_of(numbers, t)?;
        list.push(number)?;
    }
    Ok(list)
}

/// The number of a part's type.
fn content_number(numbers: &[u32], content: Content) -> u32
    ensures { result ≡ content_number numbers.now content }
{
    match content {
        Content::Function(number) => match numbers.get(number as usize) {
            Some(own) => *own,
            None => 0,
        },
        Content::Segment { align: _, flags: _ } | Content::Global { kind: _, value: _ } => 0,
        Content::Made => 0,
    }
}

fn function_number(tables: &Tables, numbers: &[u32], part: u32) -> u32
    ensures { result ≡ function_type_number tables.now numbers.now part }
{
    content_number(numbers, part_at(tables, part).content)
}

fn functions_in(
    alloc: Global,
    tables: &Tables,
    numbers: &[u32],
    functions: &[u32],
) -> Result<Seq<u32>, OutOfMemory>
    ensures { IfOk result (λ ns. ns ≡ map (function_type_number tables.now numbers.now) functions.now) }
{
    let mut list = Seq::new(alloc);
    for part in functions {
        list.push(function_number(tables, numbers, *part))?;
    }
    Ok(list)
}

/// The number of the type of each kept function, by the numbers that the program's types have in the object.
pub fn functions_of(
    alloc: Global,
    program: Program<'_>,
    numbers: &[u32],
    functions: &[u32],
) -> Result<Seq<u32>, OutOfMemory>
    ensures { IfOk result (λ ns. (p : Rules) → IsProgramOf Plain program.entry p → p.plan.loose_calls ≡ false
        → numbers.now ≡ map (partial.type_number p) program.entry.tables.now.types → map (slice_get p.parts) functions.now ≡ map Some (partial.kept p 0)
        → ns ≡ (partial.relocatable p).functions) }
{
    let list = functions_in(alloc, program.tables, numbers, functions)?;
    Ok(list)
}
