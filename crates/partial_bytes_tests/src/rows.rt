//! What a tree lends, made of an object that was read.

use link_program::Named;
use linking_section::Member;
use object_file::{FunctionRef, Group, Object, Operand, SegmentRef, SymbolRef};
use partial_bytes::{GlobalRow, GroupRow, InfoRow, Numbers, Part, SymbolRow};
use reloc_section::Reloc;
use std::alloc::Global;
use test_kit::func_type;
use wasm_module::Export;
use wasm_types::{FuncType, Import, ImportKind};
use wl_base::{OutOfMemory, Seq, Span};
use wl_lists::Lists;

/// What the object itself doesn't have in this form.
#[derive(Drop)]
pub struct Owned {
    pub types: Seq<FuncType>,
    pub imports: Seq<Import>,
    pub functions: Seq<u32>,
    pub exports: Seq<Export>,
    /// What the windows of each body name.
    pub bodies: Lists<Named>,
    /// And those of each data segment.
    pub segments: Lists<Named>,
    /// The numbers of symbols and of types: each its own place.
    pub numbers: Seq<u32>,
}

/// What names other things.
#[derive(Drop)]
pub struct Rows<'a> {
    pub globals: Seq<GlobalRow<'a>>,
    pub bodies: Seq<Part<'a>>,
    pub segments: Seq<Part<'a>>,
    pub infos: Seq<InfoRow<'a>>,
    pub symbols: Seq<SymbolRow<'a>>,
    pub groups: Seq<GroupRow<'a>>,
}

// ---- what is owned

fn add_types(types: &mut Seq<FuncType>, alloc: Global, object: &Object) -> Result<(), OutOfMemory> {
    for at in 0..object.types.len() {
        let Some(kind) = object.types.get(at) else {
            return Ok(());
        };
        types.push(func_type(alloc, kind.params, kind.results)?)?;
    }
    Ok(())
}

fn import_of(
    alloc: Global,
    module: &[u8],
    field: &[u8],
    kind: ImportKind,
) -> Result<Import, OutOfMemory> {
    let module = Seq::from_slice(alloc, module)?;
    let field = Seq::from_slice(alloc, field)?;
    Ok(Import {
        module,
        field,
        kind,
    })
}

/// Puts the imports, and tells how many functions there are among them.
fn add_imports(
    imports: &mut Seq<Import>,
    alloc: Global,
    object: &Object,
) -> Result<u32, OutOfMemory> {
    let mut functions = 0u32;
    for at in 0..object.imports.len() {
        let Some(import) = object.imports.get(at) else {
            return Ok(functions);
        };
        if let ImportKind::Function(_) = import.kind {
            functions = functions.wrapping_add(1);
        }
        imports.push(import_of(alloc, import.module, import.field, import.kind)?)?;
    }
    Ok(functions)
}

/// What an operand names.
fn named_of(operand: Operand) -> Option<Named> {
    match operand {
        Operand::Symbol {
            kind,
            place,
            symbol,
            addend,
        } => Some(Named::Symbol {
            kind,
            place,
            addend,
            symbol,
        }),
        Operand::TypeRef { place, index } => Some(Named::Type {
            place,
            number: index,
        }),
        Operand::Number | Operand::TableZero => None,
    }
}

fn body_names(alloc: Global, function: FunctionRef<'_>) -> Result<Seq<Named>, OutOfMemory> {
    let mut names = Seq::new(alloc);
    for reference in function.operands.references {
        if let Some(x) = named_of(reference.operand()) {
            names.push(x)?;
        }
    }
    Ok(names)
}

fn segment_names(alloc: Global, windows: &[Reloc]) -> Result<Seq<Named>, OutOfMemory> {
    let mut names = Seq::new(alloc);
    for x in windows {
        names.push(Named::Symbol {
            kind: x.kind,
            place: x.offset,
            addend: x.addend,
            symbol: x.index,
        })?;
    }
    Ok(names)
}

fn add_body(
    bodies: &mut Lists<Named>,
    alloc: Global,
    function: FunctionRef<'_>,
) -> Result<(), OutOfMemory> {
    let list = body_names(alloc, function)?;
    bodies.push(list.as_slice())
}

fn add_segment(
    segments: &mut Lists<Named>,
    alloc: Global,
    windows: &[Reloc],
) -> Result<(), OutOfMemory> {
    let list = segment_names(alloc, windows)?;
    segments.push(list.as_slice())
}

fn add_segments(
    segments: &mut Lists<Named>,
    alloc: Global,
    object: &Object,
) -> Result<(), OutOfMemory> {
    for at in 0..object.segments.len() {
        let Some(segment) = object.segments.get(at) else {
            return Ok(());
        };
        add_segment(segments, alloc, segment.windows)?;
    }
    Ok(())
}

/// As many numbers as there are symbols or types.
fn add_numbers(numbers: &mut Seq<u32>, object: &Object) -> Result<(), OutOfMemory> {
    let count = object.symbols.len().max(object.types.len());
    for number in 0..count.min(1000) as u32 {
        numbers.push(number)?;
    }
    Ok(())
}

fn add_export(
    exports: &mut Seq<Export>,
    alloc: Global,
    name: Option<&[u8]>,
    index: u32,
) -> Result<(), OutOfMemory> {
    let Some(name) = name else {
        return Ok(());
    };
    let name = Seq::from_slice(alloc, name)?;
    exports.push(Export {
        name,
        kind: 0,
        index,
    })
}

impl Owned {
    fn new(alloc: Global) -> Owned {
        Owned {
            types: Seq::new(alloc),
            imports: Seq::new(alloc),
            functions: Seq::new(alloc),
            exports: Seq::new(alloc),
            bodies: Lists::new(alloc),
            segments: Lists::new(alloc),
            numbers: Seq::new(alloc),
        }
    }

    fn add_function(
        &mut self,
        alloc: Global,
        function: FunctionRef<'_>,
        index: u32,
    ) -> Result<(), OutOfMemory> {
        self.functions.push(function.type_index)?;
        add_body(&mut self.bodies, alloc, function)?;
        add_export(&mut self.exports, alloc, function.export_name, index)
    }

    fn add_functions(
        &mut self,
        alloc: Global,
        object: &Object,
        imported: u32,
    ) -> Result<(), OutOfMemory> {
        let mut index = imported;
        for at in 0..object.functions.len() {
            let Some(function) = object.functions.get(at) else {
                return Ok(());
            };
            self.add_function(alloc, function, index)?;
            index = index.wrapping_add(1);
        }
        Ok(())
    }

    fn fill(&mut self, alloc: Global, object: &Object) -> Result<(), OutOfMemory> {
        add_types(&mut self.types, alloc, object)?;
        let imported = add_imports(&mut self.imports, alloc, object)?;
        self.add_functions(alloc, object, imported)?;
        add_segments(&mut self.segments, alloc, object)?;
        add_numbers(&mut self.numbers, object)
    }
}

/// What the object itself doesn't have in this form.
pub fn owned_of(alloc: Global, object: &Object) -> Result<Owned, OutOfMemory> {
    let mut owned = Owned::new(alloc);
    owned.fill(alloc, object)?;
    Ok(owned)
}

// ---- what is lent

/// The bytes of a span.
pub fn part_of(bytes: &[u8], span: Span) -> &[u8] {
    let start = bytes.len().min(span.start as usize);
    let rest = &bytes[start..];
    &rest[..rest.len().min(span.len as usize)]
}

fn symbol_row(symbol: SymbolRef<'_>) -> SymbolRow<'_> {
    SymbolRow {
        kind: symbol.kind,
        flags: symbol.flags,
        name: symbol.name,
        index: symbol.index,
        offset: symbol.offset,
        size: symbol.size,
    }
}

fn info_row(segment: SegmentRef<'_>) -> InfoRow<'_> {
    InfoRow {
        name: segment.name,
        align: segment.align,
        flags: segment.flags,
    }
}

fn group_row(group: &Group) -> GroupRow<'_> {
    let members: &[Member] = group.members.as_slice();
    GroupRow {
        name: group.name.as_slice(),
        members,
    }
}

impl<'a> Rows<'a> {
    fn new(alloc: Global) -> Rows<'a> {
        Rows {
            globals: Seq::new(alloc),
            bodies: Seq::new(alloc),
            segments: Seq::new(alloc),
            infos: Seq::new(alloc),
            symbols: Seq::new(alloc),
            groups: Seq::new(alloc),
        }
    }

    fn add_globals(&mut self, object: &Object, bytes: &'a [u8]) -> Result<(), OutOfMemory> {
        for global in object.globals.as_slice() {
            self.globals.push(GlobalRow {
                kind: global.kind,
                value: global.value,
                bytes: part_of(bytes, global.span),
            })?;
        }
        Ok(())
    }

    fn add_bodies(
        &mut self,
        object: &Object,
        bytes: &'a [u8],
        names: &'a Lists<Named>,
        numbers: &'a Numbers<'a>,
    ) -> Result<(), OutOfMemory> {
        for at in 0..object.functions.len() {
            let Some(function) = object.functions.get(at) else {
                return Ok(());
            };
            self.bodies.push(Part {
                bytes: part_of(bytes, function.span),
                named: names.row(at),
                numbers,
            })?;
        }
        Ok(())
    }

    fn add_segments(
        &mut self,
        object: &'a Object,
        bytes: &'a [u8],
        names: &'a Lists<Named>,
        numbers: &'a Numbers<'a>,
    ) -> Result<(), OutOfMemory> {
        for at in 0..object.segments.len() {
            let Some(segment) = object.segments.get(at) else {
                return Ok(());
            };
            self.segments.push(Part {
                bytes: part_of(bytes, segment.span),
                named: names.row(at),
                numbers,
            })?;
            self.infos.push(info_row(segment))?;
        }
        Ok(())
    }

    fn add_symbols(&mut self, object: &'a Object) -> Result<(), OutOfMemory> {
        for at in 0..object.symbols.len() {
            let Some(symbol) = object.symbols.get(at) else {
                return Ok(());
            };
            self.symbols.push(symbol_row(symbol))?;
        }
        Ok(())
    }

    fn add_groups(&mut self, object: &'a Object) -> Result<(), OutOfMemory> {
        for group in object.groups.as_slice() {
            self.groups.push(group_row(group))?;
        }
        Ok(())
    }

    fn fill(
        &mut self,
        object: &'a Object,
        bytes: &'a [u8],
        owned: &'a Owned,
        numbers: &'a Numbers<'a>,
    ) -> Result<(), OutOfMemory> {
        self.add_globals(object, bytes)?;
        self.add_bodies(object, bytes, &owned.bodies, numbers)?;
        self.add_segments(object, bytes, &owned.segments, numbers)?;
        self.add_symbols(object)?;
        self.add_groups(object)
    }
}

/// What names parts of the object and these bytes.
pub fn rows_of<'a>(
    alloc: Global,
    object: &'a Object,
    bytes: &'a [u8],
    owned: &'a Owned,
    numbers: &'a Numbers<'a>,
) -> Result<Rows<'a>, OutOfMemory> {
    let mut rows = Rows::new(alloc);
    rows.fill(object, bytes, owned, numbers)?;
    Ok(rows)
}
