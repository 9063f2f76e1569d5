//! Defined functions.
ghost use Rattle.std.specs.Prelude.{◌≡◌, ◌++◌, ◌∷◌, [], length, slice_get, option_map, IfOk, OnOk, OnErr};
ghost use Rattle.object_columns.specs.Columns.{function_of};
ghost use Rattle.object_columns.specs.Seen.{function_seen};

use crate::name::{maybe, split};
use crate::short_span::ShortSpan;
use body_windows::{Operands, OperandsRef, Reference};
use std::alloc::Global;
use std::marker::Model;
use wl_base::{Name, OutOfMemory, Seq, Span};
use wl_lists::{Lists, shrunk, with_room};

/// A defined function, as contracts see it.
#[derive(Debug, Drop)]
pub struct FunctionDef {
    /// The index of its type.
    pub type_index: u32,
    /// Where its body stands, behind the body's size.
    pub span: Span,
    /// Its immediates that can be references, in order. Places count from the body's first byte.
    pub operands: Operands,
    /// The name of its last export, where it has one.
    pub export_name: Option<Name>,
}

/// A defined function, lent.
#[derive(Clone, Copy, Debug)]
pub struct FunctionRef<'a> {
    /// The index of its type.
    pub type_index: u32,
    /// Where its body stands, behind the body's size.
    pub span: Span,
    /// Its immediates that can be references, in order. Places count from the body's first byte.
    pub operands: OperandsRef<'a>,
    /// The name of its last export, as UTF-8, where it has one.
    pub export_name: Option<&'a [u8]>,
}

/// A function without its references and its name.
#[derive(Clone, Copy, Debug)]
pub struct FunctionRow {
    span: ShortSpan,
    type_index: u32,
    /// How many numbers stand behind its last reference.
    behind: u16,
    is_exported: bool,
}

// A link keeps one for each function of its objects.
const _: () = prove!(size_of::<FunctionRow>() == 16);

impl FunctionRow {
    /// The function of these references and this name.
    fn with<'a>(&self, references: &'a [Reference], name: &'a [u8]) -> FunctionRef<'a>
        ensures { function_seen result ≡ function_of self.now references.now name.now }
    {
        FunctionRef {
            type_index: self.type_index,
            span: self.span.span(),
            operands: OperandsRef {
                references,
                behind: self.behind,
            },
            export_name: maybe(self.is_exported, name),
        }
    }
}

/// A list of defined functions, which contracts see as that list.
#[derive(Debug, Drop)]
pub struct Functions {
    rows: Seq<FunctionRow>,
    references: Lists<Reference>,
    /// Their names. One without a name has the empty one here.
    names: Lists<u8>,
}

impl Model for Functions {
    ghost use Rattle.std.specs.Prelude.{◌≡◌, List, length};
    ghost use Rattle.object_columns.specs.declared.functions.FunctionDef.{FunctionDef};
    ghost use Rattle.object_columns.specs.Columns.{joined_three, function_of};

    ghost Value = { List FunctionDef };

    ghost view = { λ f. joined_three function_of f.rows f.references f.names };

    ghost invariant = { λ f. (length f.rows ≡ length f.references) × (length f.rows ≡ length f.names) };
}

impl Functions {
    /// The empty list. It takes no memory.
    pub fn new(alloc: Global) -> Self
        ensures { result ≡ [] }
    {
        Functions {
            rows: Seq::new(alloc),
            references: Lists::new(alloc),
            names: Lists::new(alloc),
        }
    }

    /// The empty list, with room for so many functions, and for so many references and bytes of names
    /// of all of them.
    pub fn with_room(
        alloc: Global,
        functions: usize,
        references: usize,
        names: usize,
    ) -> Result<Self, OutOfMemory>
        ensures { IfOk result (λ list. list ≡ []) }
    {
        Ok(Functions {
            rows: with_room(alloc, functions)?,
            references: Lists::with_room(alloc, functions, references)?,
            names: Lists::with_room(alloc, functions, names)?,
        })
    }

    /// How many functions there are.
    pub fn len(&self) -> usize
        ensures { result ≡ length self.now }
    {
        self.rows.len()
    }

    /// The function at a place, counted from 0; `None` exactly where there is none.
    pub fn get(&self, at: usize) -> Option<FunctionRef<'_>>
        ensures { option_map function_seen result ≡ slice_get self.now at }
    {
        let Some(row) = self.rows.get(at) else {
            return None;
        };
        let Some(references) = self.references.get(at) else {
            return None;
        };
        let Some(name) = self.names.get(at) else {
            return None;
        };
        Some(row.with(references, name))
    }

    /// Puts a function at the end. Where memory is refused the list is as before. A
    /// span past 2^32 - 1 is answered as want of memory.
    pub fn push(&mut self, function: FunctionRef<'_>) -> Result<(), OutOfMemory>
        ensures ok { OnOk result (self.new ≡ self.old ++ function_seen function.entry ∷ []) }
        ensures err { OnErr result (self.new ≡ self.old) }
    {
        let span = ShortSpan::of(function.span)?;
        let len = self.rows.len();
        let (is_exported, name) = split(function.export_name);
        self.rows.push(FunctionRow {
            span,
            type_index: function.type_index,
            behind: function.operands.behind,
            is_exported,
        })?;
        if let Err(e) = self.references.push(function.operands.references) {
            self.rows.truncate(len);
            return Err(e);
        }
        match self.names.push(name) {
            Ok(()) => Ok(()),
            Err(e) => {
                self.rows.truncate(len);
                self.references.truncate(len);
                Err(e)
            }
        }
    }

    /// The same list in no more memory than it needs.
    pub fn shrunk(self) -> Self
        ensures { result ≡ self }
    {
        Functions {
            rows: shrunk(self.rows),
            references: self.references.shrunk(),
            names: self.names.shrunk(),
        }
    }
}
