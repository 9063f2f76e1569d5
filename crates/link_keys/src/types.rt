//! The types of functions, each with its number among the different ones.
ghost use Rattle.std.specs.Prelude.{◌≡◌, ◌<◌, ◌-◌, ◌^◌, ◌∷◌, [], nat_lt, map, fold, length, take, if◌then◌else◌, slice_get, slice_index_or, replicate, Some, None, OnOk, IfOk};
ghost use Rattle.std.specs.List.{cons_option};
ghost use Rattle.link_program.specs.object_file.Spaces.{no_type};
ghost use Rattle.link_program.specs.object_columns.Seen.{func_type_seen};
ghost use Rattle.link_program.specs.name_entries.Fits.{FitsObjects};
ghost use Rattle.link_program.specs.type_merge.Types.{type_number, with_type};
ghost use Rattle.link_keys.specs.Firsts.{firsts_rows};
ghost use Rattle.link_keys.specs.Types.{type_at, kept_type, import_types, content_type_at, content_by, type_by, type_in, own_types, first_type, stub_type, stub_types, stubs_seen, variant_number, type_number_in, with_numbered, with_window, with_windows, types_listed};

use crate::firsts::{At, firsts_of};
use crate::lists::{flag_at, is_function_import, is_own};
use crate::marks::Marks;
use link_program::{
    Content, Entries, FuncTypeRef, ImportType, Part, Program, Resolution, Tables, TypeRef, part_at,
};
use mark_bits::kinds as chunk_kinds;
use std::alloc::Global;
use std::marker::Model;
use type_merge::TypeTable;
use wasm_types::FuncType;
use wl_base::OutOfMemory;

/// The different types, and the numbers of those that were added, in their order.
#[derive(Drop)]
pub struct TypeNumbers {
    pub(crate) table: TypeTable,
    pub(crate) numbers: Vec<u32>,
}

/// By what the types of stubs are found.
#[derive(Clone, Copy)]
struct StubTypes<'a> {
    /// The least entry of each name, by the number of the name.
    firsts: &'a [Option<At>],
    /// All types by number.
    types: &'a [FuncType],
    /// The types of the variants, which have the last names.
    variants: &'a [u32],
}

impl Model for TypeNumbers {
    ghost use Rattle.link_keys.specs.Types.{TypeLists};

    ghost Value = { TypeLists };

    ghost view = { λ x. record { table = x.table; numbers = x.numbers.items } };
}

/// Whether one type more fits.
fn has_room(table: &TypeTable) -> bool
    ensures { result ≡ nat_lt (length table.now) (2 ^ 32 - 1) }
{
    table.types().len() < u32::MAX as usize
}

/// The number of a type, which is added where it isn't there.
pub(crate) fn add(table: &mut TypeTable, t: &FuncType) -> Result<u32, OutOfMemory>
    ensures types { OnOk result (table.new ≡ with_type table.old t.now) }
    ensures number { IfOk result (λ number. type_number table.new t.now ≡ Some number) }
{
    if !has_room(table) {
        return Err(OutOfMemory);
    }
    table.add(t)
}

/// The number of the type () to ().
pub(crate) fn add_empty(table: &mut TypeTable) -> Result<u32, OutOfMemory>
    ensures types { OnOk result (table.new ≡ with_type table.old no_type) }
    ensures number { IfOk result (λ number. type_number table.new no_type ≡ Some number) }
{
    if !has_room(table) {
        return Err(OutOfMemory);
    }
    table.add_of(&[], &[])
}

/// The number of the type that is lent.
fn add_lent(table: &mut TypeTable, t: FuncTypeRef<'_>) -> Result<u32, OutOfMemory>
    ensures types { OnOk result (table.new ≡ with_type table.old (func_type_seen t.entry)) }
    ensures number { IfOk result (λ number. type_number table.new (func_type_seen t.entry) ≡ Some number) }
{
    if !has_room(table) {
        return Err(OutOfMemory);
    }
    table.add_of(t.params, t.results)
}

/// The number of the type that has this number in a list.
pub(crate) fn add_numbered(
    table: &mut TypeTable,
    types: &[FuncType],
    number: u32,
) -> Result<u32, OutOfMemory>
    ensures types { OnOk result (table.new ≡ with_type table.old (type_at types.now number)) }
    ensures number { IfOk result (λ n. type_number table.new (type_at types.now number) ≡ Some n) }
{
    match types.get(number as usize) {
        Some(t) => add(table, t),
        None => add_empty(table),
    }
}

/// The number of the type of an imported function.
fn add_import(
    table: &mut TypeTable,
    resolution: &Resolution,
    number: u32,
) -> Result<u32, OutOfMemory>
    requires { number < length resolution.now.imports }
    ensures types { OnOk result (table.new ≡ with_type table.old (kept_type (slice_get resolution.now.imports number))) }
    ensures number { IfOk result (λ n. type_number table.new (kept_type (slice_get resolution.now.imports number)) ≡ Some n) }
{
    match resolution.import_type(number) {
        ImportType::Function(t) => add(table, t),
        ImportType::GlobalVar(_, _) | ImportType::Untyped => add_empty(table),
    }
}

/// The number of the type of a part.
fn add_content(
    table: &mut TypeTable,
    types: &[FuncType],
    content: Content,
) -> Result<u32, OutOfMemory>
    ensures types { OnOk result (table.new ≡ with_type table.old (content_type_at types.now content)) }
    ensures number { IfOk result (λ n. type_number table.new (content_type_at types.now content) ≡ Some n) }
{
    match content {
        Content::Function(number) => add_numbered(table, types, number),
        Content::Segment { align: _, flags: _ } => add_empty(table),
        Content::Global { kind: _, value: _ } => add_empty(table),
        Content::Made => add_empty(table),
    }
}

/// What a function of an object is; the linker's are all () to ().
fn content_by(linkers: bool, content: Content) -> Content
    ensures { result ≡ content_by linkers content }
{
    if linkers { Content::Made } else { content }
}

/// The number of the type of a symbol.
fn add_symbol(table: &mut TypeTable, entries: Entries<'_>, at: At) -> Result<u32, OutOfMemory>
    requires { FitsObjects entries }
    ensures types { OnOk result (table.new ≡ with_type table.old (first_type entries.entry.objects.now (Some at))) }
    ensures number { IfOk result (λ n. type_number table.new (first_type entries.entry.objects.now (Some at)) ≡ Some n) }
{
    match entries.type_of(at.object, at.place) {
        Some(TypeRef::Function(t)) => add_lent(table, t),
        Some(TypeRef::GlobalVar(_)) | Some(TypeRef::Untyped) | None => add_empty(table),
    }
}

/// The number of the type of a stub, by the least entry of its name.
fn add_first(
    table: &mut TypeTable,
    entries: Entries<'_>,
    at: Option<At>,
) -> Result<u32, OutOfMemory>
    requires { FitsObjects entries }
    ensures types { OnOk result (table.new ≡ with_type table.old (first_type entries.entry.objects.now at)) }
    ensures number { IfOk result (λ n. type_number table.new (first_type entries.entry.objects.now at) ≡ Some n) }
{
    match at {
        Some(at) => add_symbol(table, entries, at),
        None => add_empty(table),
    }
}

impl TypeNumbers {
    /// No types.
    pub(crate) fn new(alloc: Global) -> TypeNumbers
        ensures { result ≡ record { table = []; numbers = [] } }
    {
        TypeNumbers {
            table: TypeTable::new(alloc),
            numbers: Vec::new(alloc),
        }
    }

    /// The different types, and the numbers.
    pub fn into_parts(self) -> (TypeTable, Vec<u32>)
        ensures table { result.0 ≡ self.table }
        ensures numbers { result.1.items ≡ self.numbers }
    {
        let TypeNumbers { table, numbers } = self;
        (table, numbers)
    }

    /// Adds the type of an imported function.
    fn push_import(&mut self, resolution: &Resolution, number: u32) -> Result<(), OutOfMemory>
        requires { number < length resolution.now.imports }
        ensures { OnOk result (self.new ≡ with_numbered self.old (kept_type (slice_get resolution.now.imports number))) }
    {
        let added = add_import(&mut self.table, resolution, number)?;
        self.numbers.push(added)?;
        Ok(())
    }

    /// Adds the type of a function of the linker or of an object.
    fn push_content(
        &mut self,
        linkers: bool,
        types: &[FuncType],
        content: Content,
    ) -> Result<(), OutOfMemory>
        ensures { OnOk result (self.new ≡ with_numbered self.old (type_by linkers types.now content)) }
    {
        let added = add_content(&mut self.table, types, content_by(linkers, content))?;
        self.numbers.push(added)?;
        Ok(())
    }

    /// Adds the type of a part, if it is a function of the linker's or of an object's.
    fn push_part(
        &mut self,
        linkers: bool,
        types: &[FuncType],
        part: Part,
    ) -> Result<(), OutOfMemory>
        ensures { OnOk result (self.new ≡ fold with_numbered self.old (cons_option (type_in linkers types.now part) [])) }
    {
        if is_own(chunk_kinds::FUNCTION, linkers, part.chunk) {
            self.push_content(linkers, types, part.content)?;
        }
        Ok(())
    }

    /// Adds the type of a stub, by the least entry of its name.
    fn push_first(&mut self, entries: Entries<'_>, at: Option<At>) -> Result<(), OutOfMemory>
        requires { FitsObjects entries }
        ensures { OnOk result (self.new ≡ with_numbered self.old (first_type entries.entry.objects.now at)) }
    {
        let added = add_first(&mut self.table, entries, at)?;
        self.numbers.push(added)?;
        Ok(())
    }

    /// Adds the type of this number.
    fn push_known(&mut self, types: &[FuncType], number: u32) -> Result<(), OutOfMemory>
        ensures { OnOk result (self.new ≡ with_numbered self.old (type_at types.now number)) }
    {
        let added = add_numbered(&mut self.table, types, number)?;
        self.numbers.push(added)?;
        Ok(())
    }

    /// Adds a type that a window names, which is given no number here.
    fn push_window(&mut self, types: &[FuncType], number: u32) -> Result<(), OutOfMemory>
        ensures { OnOk result (self.new ≡ with_window types.now self.old number) }
    {
        add_numbered(&mut self.table, types, number)?;
        Ok(())
    }

    /// Adds the types of the imported functions that are named.
    fn push_imports(&mut self, resolution: &Resolution, flags: &[bool]) -> Result<(), OutOfMemory>
        ensures { OnOk result (self.new ≡ fold with_numbered self.old (import_types resolution.now.imports flags.now)) }
    {
        for number in 0..resolution.imports() {
            if flag_at(flags, number) && is_function_import(resolution, number) {
                self.push_import(resolution, number)?;
            }
        }
        Ok(())
    }

    /// Adds the types of the live functions of the linker or of objects.
    fn push_own(&mut self, linkers: bool, tables: &Tables, live: &[u32]) -> Result<(), OutOfMemory>
        ensures { OnOk result (self.new ≡ fold with_numbered self.old (own_types linkers tables.now live.now)) }
    {
        for number in live {
            let part = part_at(tables, *number);
            self.push_part(linkers, tables.types.as_slice(), part)?;
        }
        Ok(())
    }

    /// Adds the type of the stub of a name, of so many names.
    fn push_stub(
        &mut self,
        entries: Entries<'_>,
        stubs: StubTypes<'_>,
        names: u32,
        number: u32,
    ) -> Result<(), OutOfMemory>
        requires { FitsObjects entries }
        ensures { OnOk result (self.new ≡ with_numbered self.old (stub_type (stubs_seen entries.entry.objects.now stubs.entry) names number)) }
    {
        match variant_number(names, stubs.variants, number) {
            Some(known) => self.push_known(stubs.types, known),
            None => self.push_first(entries, first_of(stubs.firsts, number)),
        }
    }

    /// Adds the types of the stubs that are called.
    fn push_stubs(
        &mut self,
        entries: Entries<'_>,
        stubs: StubTypes<'_>,
        flags: &[bool],
        names: u32,
    ) -> Result<(), OutOfMemory>
        requires { FitsObjects entries }
        ensures { OnOk result (self.new ≡ fold with_numbered self.old (stub_types (stubs_seen entries.entry.objects.now stubs.entry) flags.now names)) }
    {
        for number in 0..names {
            if flag_at(flags, number) {
                self.push_stub(entries, stubs, names, number)?;
            }
        }
        Ok(())
    }

    /// Adds the types that windows name.
    fn push_windows(&mut self, types: &[FuncType], windows: &[u32]) -> Result<(), OutOfMemory>
        ensures { OnOk result (self.new ≡ with_windows types.now self.old windows.now) }
    {
        for number in windows {
            self.push_window(types, *number)?;
        }
        Ok(())
    }
}

/// Which of the variants the name of this number is of, as the number of its type; the variants have the last of so many names.
fn variant_number(names: u32, variants: &[u32], number: u32) -> Option<u32>
    ensures { result ≡ variant_number names variants.now number }
{
    let place = number as usize + variants.len();
    if place < names as usize {
        return None;
    }
    variants.get(place - names as usize).copied()
}

/// The place of the least entry of a name.
#[tactic(auto, using(link_program::proofs::ReadAt::read))]
fn first_of(firsts: &[Option<At>], number: u32) -> Option<At>
    ensures { result ≡ slice_index_or firsts.now number None }
{
    match firsts.get(number as usize) {
        Some(at) => *at,
        None => None,
    }
}

/// The types of all functions, in their order, and then those that windows name.
fn types_of(
    alloc: Global,
    program: Program<'_>,
    entries: Entries<'_>,
    live: &[u32],
    marks: &Marks,
    firsts: &[Option<At>],
) -> Result<TypeNumbers, OutOfMemory>
    requires { FitsObjects entries }
    ensures { IfOk result (λ types. types ≡ types_listed program.entry.resolution.now.imports (length program.entry.names.now.names)
        program.entry.tables.now entries.entry.objects.now firsts.now live.now marks.now) }
{
    let mut types = TypeNumbers::new(alloc);
    let tables = program.tables;
    types.push_imports(program.resolution, marks.imports.as_slice())?;
    types.push_own(true, tables, live)?;
    let stubs = StubTypes {
        firsts,
        types: tables.types.as_slice(),
        variants: tables.variants.as_slice(),
    };
    types.push_stubs(
        entries,
        stubs,
        marks.stubs.as_slice(),
        program.names.count(),
    )?;
    types.push_own(false, tables, live)?;
    types.push_windows(tables.types.as_slice(), marks.windows.as_slice())?;
    Ok(types)
}

/// The types, by the least entries of the names.
pub fn types_told(
    alloc: Global,
    program: Program<'_>,
    entries: Entries<'_>,
    live: &[u32],
    marks: &Marks,
) -> Result<TypeNumbers, OutOfMemory>
    requires fits { FitsObjects entries }
    requires rows { length program.names.now.symbols ≡ length entries.objects.now }
    ensures { IfOk result (λ types. types ≡ types_listed program.entry.resolution.now.imports (length program.entry.names.now.names)
        program.entry.tables.now entries.entry.objects.now (firsts_rows 0 (replicate (length program.entry.names.now.names) None)
        program.entry.names.now.symbols) live.now marks.now) }
{
    let firsts = firsts_of(alloc, program.names, entries.count())?;
    types_of(alloc, program, entries, live, marks, firsts.as_slice())
}

/// The number, if it is below the count.
fn below_or_first(number: u32, count: usize) -> u32
    ensures { result ≡ (if nat_lt number count then number else 0) }
{
    if (number as usize) < count { number } else { 0 }
}

/// The number of each type among those of the table, 0 where it isn't there. The table is given more types behind its own.
pub fn numbers_in(
    alloc: Global,
    table: &mut TypeTable,
    types: &[FuncType],
) -> Result<Vec<u32>, OutOfMemory>
    ensures numbers { IfOk result (λ numbers. numbers.items ≡ map (type_number_in table.old) types.now) }
    ensures same { OnOk result (take (length table.old) table.new ≡ table.old) }
{
    let count = table.types().len();
    let mut numbers = Vec::with_capacity(alloc, types.len())?;
    for t in types {
        let number = add(table, t)?;
        numbers.push(below_or_first(number, count))?;
    }
    Ok(numbers)
}
