//! What is compared of two entries of a name.
use crate::look::{Look, breaks, clash, mismatches};
use name_entries::{FuncTypeRef, ImportRef, SymbolKind, TypeRef};
use std::test::Fail;
use wasm_types::{GlobalType, ImportKind, ValType};

fn function(params: &'static [ValType]) -> Look<'static> {
    Look {
        kind: SymbolKind::Function,
        of_type: TypeRef::Function(FuncTypeRef {
            params,
            results: &[],
        }),
        explicit: None,
        defines: false,
    }
}

/// A function that names its import itself.
fn imported(module: &'static [u8], field: &'static [u8]) -> Look<'static> {
    Look {
        kind: SymbolKind::Function,
        of_type: function(&[]).of_type,
        explicit: Some(ImportRef {
            module,
            field,
            kind: ImportKind::Function(0),
        }),
        defines: false,
    }
}

fn global(kind: ValType, var: bool) -> Look<'static> {
    Look {
        kind: SymbolKind::GlobalVar,
        of_type: TypeRef::GlobalVar(GlobalType { kind, var }),
        explicit: None,
        defines: false,
    }
}

fn untyped(kind: SymbolKind) -> Look<'static> {
    Look {
        kind,
        of_type: TypeRef::Untyped,
        explicit: None,
        defines: false,
    }
}

/// What is compared of an entry that a letter stands for.
fn look(letter: u8) -> Look<'static> {
    match letter {
        b'f' => function(&[]),
        b'i' => function(&[ValType::I32]),
        b'l' => function(&[ValType::I64]),
        b'e' => imported(b"env", b"f"),
        b'o' => imported(b"other", b"f"),
        b'n' => imported(b"env", b"n"),
        b'g' => global(ValType::I32, false),
        b'v' => global(ValType::I32, true),
        b'd' => untyped(SymbolKind::Datum),
        _ => untyped(SymbolKind::Table),
    }
}

#[test]
fn kinds_types_and_imports_are_compared(rt: HostRuntime) -> Result<(), Fail> {
    for (a, b, wanted) in [
        // kinds
        (b'f', b'd', true),
        (b'd', b't', true),
        (b'd', b'd', false),
        // types
        (b'f', b'f', false),
        (b'f', b'i', true),
        (b'i', b'l', true),
        (b'g', b'v', true),
        (b'v', b'v', false),
        // imports that are named by EXPLICIT_NAME
        (b'e', b'e', false),
        (b'e', b'o', true),
        (b'e', b'n', true),
        (b'e', b'f', false),
    ] {
        assert_eq!(rt; clash(look(a), look(b)), wanted);
        assert_eq!(rt; clash(look(b), look(a)), wanted);
    }
    Ok(())
}

/// The same as a definition.
fn defining(letter: u8) -> Look<'static> {
    let Look {
        kind,
        of_type,
        explicit,
        defines: _,
    } = look(letter);
    Look {
        kind,
        of_type,
        explicit,
        defines: true,
    }
}

#[test]
fn a_function_may_be_called_by_another_type(rt: HostRuntime) -> Result<(), Fail> {
    for (letter, breaking, mismatching) in [
        (b'f', false, false),
        (b'i', false, true),
        (b'd', true, false),
    ] {
        assert_eq!(rt; breaks(defining(b'f'), look(letter)), breaking);
        assert_eq!(rt; mismatches(defining(b'f'), look(letter)), mismatching);
    }
    // two definitions, and none
    assert!(rt; breaks(defining(b'f'), defining(b'i')));
    assert!(rt; breaks(look(b'f'), look(b'i')));
    Ok(())
}
