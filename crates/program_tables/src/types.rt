//! The function types of all objects, each once.
ghost use Rattle.std.specs.Prelude.{◌≡◌, ◌∷◌, ◌++◌, [], map, slice_get, Some, OnOk, IfOk};
ghost use Rattle.link_program.specs.object_columns.Seen.{func_type_seen};
ghost use Rattle.link_program.specs.object_file.Spaces.{no_type};
ghost use Rattle.link_program.specs.type_merge.Types.{with_type};
ghost use Rattle.program_tables.specs.Types.{Keep, AreNumbered, AreTyped};

use link_program::{FuncTypeRef, Object};
use std::alloc::Global;
use type_merge::TypeTable;
use wasm_types::FuncType;
use wl_base::{OutOfMemory, Seq};
use wl_lists::Lists;

/// The function types, each once, by object the numbers of its types, and the numbers of those of variants.
#[derive(Drop)]
pub(crate) struct AllTypes {
    /// The first is () to (), which the linker's functions have.
    pub(crate) types: Seq<FuncType>,
    pub(crate) numbers: Lists<u32>,
    pub(crate) variants: Seq<u32>,
}

impl AllTypes {
    /// By object the numbers of its types.
    pub(crate) fn numbers(&self) -> &Lists<u32>
        ensures { result.now ≡ self.now.numbers }
    {
        &self.numbers
    }
}

/// The number of a type, which goes last where it is new.
fn number_of(table: &mut TypeTable, kind: FuncTypeRef<'_>) -> Result<u32, OutOfMemory>
    ensures types { OnOk result (table.new ≡ with_type table.old (func_type_seen kind.entry)) }
    ensures at { IfOk result (λ number. slice_get table.new number ≡ Some (func_type_seen kind.entry)) }
{
    if table.types().len() >= u32::MAX as usize {
        return Err(OutOfMemory);
    }
    let number = table.add_of(kind.params, kind.results)?;
    Ok(number)
}

/// The numbers of the types of an object, in place of those that the row has.
fn fill_row(table: &mut TypeTable, row: &mut Seq<u32>, from: &Object) -> Result<(), OutOfMemory>
    ensures keep { OnOk result (Keep table.old table.new) }
    ensures row { OnOk result (AreNumbered table.new row.new from.now.types) }
{
    row.truncate(0);
    for at in 0..from.types.len() {
        let Some(kind) = from.types.get(at) else {
            unreachable!()
        };
        row.push(number_of(table, kind)?)?;
    }
    Ok(())
}

/// The same types in memory of their own.
fn copies_of(alloc: Global, types: &[FuncType]) -> Result<Seq<FuncType>, OutOfMemory>
    ensures { IfOk result (λ copies. copies ≡ types.now) }
{
    let mut copies = Seq::new(alloc);
    for kind in types {
        copies.push(FuncType {
            params: Seq::from_slice(alloc, kind.params.as_slice())?,
            results: Seq::from_slice(alloc, kind.results.as_slice())?,
        })?;
    }
    Ok(copies)
}

/// The numbers of the types of all objects, and the table of these.
fn numbers_of(
    alloc: Global,
    table: &mut TypeTable,
    objects: &[Object],
) -> Result<Lists<u32>, OutOfMemory>
    ensures keep { OnOk result (Keep table.old table.new) }
    ensures rows { IfOk result (λ rows. map (map (slice_get table.new)) rows ≡ map (λ o. map Some o.types) objects.now) }
{
    let mut rows = Lists::new(alloc);
    let mut row = Seq::new(alloc);
    for from in objects {
        fill_row(table, &mut row, from)?;
        rows.push(row.as_slice())?;
    }
    Ok(rows)
}

/// The numbers of these types, which go last where they are new.
fn numbers_for(
    alloc: Global,
    table: &mut TypeTable,
    these: &[FuncType],
) -> Result<Seq<u32>, OutOfMemory>
    ensures keep { OnOk result (Keep table.old table.new) }
    ensures numbers { IfOk result (λ numbers. AreNumbered table.new numbers these.now) }
{
    let mut numbers = Seq::new(alloc);
    for kind in these {
        let params = kind.params.as_slice();
        let results = kind.results.as_slice();
        numbers.push(number_of(table, FuncTypeRef { params, results })?)?;
    }
    Ok(numbers)
}

/// The function types of these objects, and of variants.
pub(crate) fn all_types(
    alloc: Global,
    objects: &[Object],
    variants: &[FuncType],
) -> Result<AllTypes, OutOfMemory>
    ensures typed { IfOk result (λ all. AreTyped all.types all.numbers objects.now) }
    ensures variants { IfOk result (λ all. AreNumbered all.types all.variants variants.now) }
{
    let mut table = TypeTable::new(alloc);
    let none = FuncTypeRef {
        params: &[],
        results: &[],
    };
    number_of(&mut table, none)?;
    let numbers = numbers_of(alloc, &mut table, objects)?;
    let variants = numbers_for(alloc, &mut table, variants)?;
    let types = copies_of(alloc, table.types())?;
    Ok(AllTypes {
        types,
        numbers,
        variants,
    })
}
