//! Objects that were read or begin with nothing, and the numbers of their names.
ghost use Rattle.std.specs.Prelude.{IfSome};
ghost use Rattle.name_entries.specs.made_symbols.declared.mode.Mode.TheVariants.{Plain};
ghost use Rattle.name_entries.specs.link_names.Numbered.{AreNumbers};
ghost use Rattle.name_entries.specs.View.{InputsRise};

use made_symbols::Mode;
use name_entries::{
    FuncTypes, Functions, Imports, Names, Object, Segments, SymbolKind, SymbolRef, Symbols,
    read_object,
};
use std::alloc::Global;
use weak_rules::inputs_rise;
use wl_base::Seq;

/// An object of this input with nothing in it.
pub fn nothing(alloc: Global, input: u32) -> Object {
    Object {
        input,
        types: FuncTypes::new(alloc),
        imports: Imports::new(alloc),
        functions: Functions::new(alloc),
        globals: Seq::new(alloc),
        segments: Segments::new(alloc),
        symbols: Symbols::new(alloc),
        inits: Seq::new(alloc),
        groups: Seq::new(alloc),
    }
}

/// A symbol of this kind, with this name where there is one.
pub fn symbol(kind: SymbolKind, flags: u32, name: Option<&[u8]>) -> SymbolRef<'_> {
    SymbolRef {
        kind,
        flags,
        name,
        index: 0,
        offset: 0,
        size: 0,
    }
}

/// An object with a function that is `f`, strong.
pub fn strong() -> &'static [u8] {
    b"\0asm\x01\0\0\0\x01\x04\x01`\0\0\x03\x02\x01\0\x0a\x04\x01\x02\0\x0b\0\x11\x07linking\x02\x08\x06\x01\0\0\0\x01f".as_slice()
}

/// The same, weak.
pub fn weak() -> &'static [u8] {
    b"\0asm\x01\0\0\0\x01\x04\x01`\0\0\x03\x02\x01\0\x0a\x04\x01\x02\0\x0b\0\x11\x07linking\x02\x08\x06\x01\0\x01\0\x01f".as_slice()
}

/// The same, strong and in the group `g`.
pub fn grouped() -> &'static [u8] {
    b"\0asm\x01\0\0\0\x01\x04\x01`\0\0\x03\x02\x01\0\x0a\x04\x01\x02\0\x0b\0\x1a\x07linking\x02\x08\x06\x01\0\0\0\x01f\x07\x07\x01\x01g\0\x01\x01\0".as_slice()
}

/// Objects that were read, and the numbers of their names.
#[derive(Drop)]
pub struct NamedObjects {
    pub objects: Seq<Object>,
    pub names: Names,
}

// Puts the object that these bytes are behind the others.
fn add(alloc: Global, to: &mut Seq<Object>, input: u32, file: &[u8]) -> Option<()> {
    let object = read_object(alloc, input, file).ok()?;
    to.push(object).ok()
}

// Puts the objects that these bytes are behind the others, as the inputs from 1 on.
fn add_all(alloc: Global, to: &mut Seq<Object>, files: &[&[u8]]) -> Option<()> {
    let mut input: u32 = 1;
    for file in files {
        add(alloc, to, input, file)?;
        input = input.checked_add(1)?;
    }
    Some(())
}

// The objects with their names, where the inputs rise.
fn with_names(alloc: Global, objects: Seq<Object>) -> Option<NamedObjects>
    ensures inputs { IfSome result (λ all. InputsRise 0 all.objects) }
    ensures numbers { IfSome result (λ all. AreNumbers Plain all.objects all.names) }
{
    if !inputs_rise(objects.as_slice()) {
        return None;
    }
    let names = numbered(alloc, objects.as_slice())?;
    Some(NamedObjects { objects, names })
}

// The numbers of the names of these objects.
fn numbered(alloc: Global, objects: &[Object]) -> Option<Names>
    ensures { IfSome result (λ names. AreNumbers Plain objects.now names) }
{
    match Names::new(alloc, Mode::Plain, &[], objects, 1 << 20) {
        Ok(names) => Some(names),
        Err(_) => None,
    }
}

/// The objects that these bytes are, as the inputs from 1 on, with their names.
pub fn named(alloc: Global, files: &[&[u8]]) -> Option<NamedObjects>
    ensures inputs { IfSome result (λ all. InputsRise 0 all.objects) }
    ensures numbers { IfSome result (λ all. AreNumbers Plain all.objects all.names) }
{
    let mut objects = Seq::new(alloc);
    add_all(alloc, &mut objects, files)?;
    with_names(alloc, objects)
}
