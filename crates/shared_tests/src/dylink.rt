//! The section is written and read again, and the body of two words.

use dylink_out::{
    Dylink, DylinkError, ExportInfo, ImportInfo, WordPlace, WordReloc, WordValue, apply_body,
    read_dylink, write_dylink,
};
use std::alloc::Global;
use test_kit::name;
use wl_base::{Name, OutOfMemory, Seq};

/// Eight bytes of memory aligned to 4, one slot, a needed module, an export and an import.
const TOLD: [u8; 27] =
    *b"\x01\x04\x08\x02\x01\x00\x02\x03\x01\x01m\x03\x04\x01\x01e\x02\x04\x08\x01\x03env\x01x\x01";

/// The subsection of sizes, twice.
const TWICE: [u8; 12] = [1, 4, 8, 2, 0, 0, 1, 4, 8, 2, 0, 0];

fn needed(alloc: Global) -> Result<Seq<Name>, OutOfMemory> {
    let mut needed = Seq::new(alloc);
    needed.push(name(alloc, "m")?)?;
    Ok(needed)
}

fn exports(alloc: Global) -> Result<Seq<ExportInfo>, OutOfMemory> {
    let mut exports = Seq::new(alloc);
    exports.push(ExportInfo {
        name: name(alloc, "e")?,
        flags: 2,
    })?;
    Ok(exports)
}

fn import(alloc: Global) -> Result<ImportInfo, OutOfMemory> {
    Ok(ImportInfo {
        module: name(alloc, "env")?,
        field: name(alloc, "x")?,
        flags: 1,
    })
}

fn imports(alloc: Global) -> Result<Seq<ImportInfo>, OutOfMemory> {
    let mut imports = Seq::new(alloc);
    imports.push(import(alloc)?)?;
    Ok(imports)
}

/// The value that `TOLD` spells.
fn told(alloc: Global) -> Result<Dylink, OutOfMemory> {
    Ok(Dylink {
        memory_size: 8,
        memory_align: 2,
        table_size: 1,
        table_align: 0,
        needed: needed(alloc)?,
        exports: exports(alloc)?,
        imports: imports(alloc)?,
    })
}

fn is_needed(needed: &[Name]) -> bool {
    match needed {
        [name] => name.as_slice() == b"m".as_slice(),
        _ => false,
    }
}

fn is_exported(exports: &[ExportInfo]) -> bool {
    match exports {
        [export] => export.name.as_slice() == b"e".as_slice() && export.flags == 2,
        _ => false,
    }
}

fn is_imported(imports: &[ImportInfo]) -> bool {
    match imports {
        [import] => {
            import.module.as_slice() == b"env".as_slice()
                && import.field.as_slice() == b"x".as_slice()
                && import.flags == 1
        }
        _ => false,
    }
}

fn is_told(d: &Dylink) -> bool {
    d.memory_size == 8
        && d.memory_align == 2
        && d.table_size == 1
        && d.table_align == 0
        && is_needed(d.needed.as_slice())
        && is_exported(d.exports.as_slice())
        && is_imported(d.imports.as_slice())
}

/// Whether the value is written as `TOLD`.
fn is_written(alloc: Global) -> Option<bool> {
    let d = told(alloc).ok()?;
    let bytes = write_dylink(alloc, &d).ok()?;
    Some(bytes.as_slice() == TOLD.as_slice())
}

/// Whether the value of `TOLD` is read.
fn is_read(alloc: Global) -> Option<bool> {
    let d = read_dylink(alloc, TOLD.as_slice()).ok()?;
    Some(is_told(&d))
}

fn refusal(alloc: Global, payload: &[u8]) -> Option<DylinkError> {
    match read_dylink(alloc, payload) {
        Ok(_) => None,
        Err(refusal) => Some(refusal),
    }
}

/// Whether the words have this body.
fn is_body(alloc: Global, words: &[WordReloc], body: &[u8]) -> Option<bool> {
    let bytes = apply_body(alloc, words).ok()?;
    Some(bytes.as_slice() == body)
}

#[test]
fn the_section_is_written_and_read_again(rt: HostRuntime) {
    assert_eq!(rt; is_written(rt.alloc()), Some(true));
    assert_eq!(rt; is_read(rt.alloc()), Some(true));
}

#[test]
fn a_subsection_comes_once_and_whole(rt: HostRuntime) {
    assert_eq!(rt; refusal(rt.alloc(), &[]), None);
    assert_eq!(rt; refusal(rt.alloc(), &TWICE[..6]), None);
    assert_eq!(rt;
        refusal(rt.alloc(), TWICE.as_slice()),
        Some(DylinkError::NotDylink)
    );
    assert_eq!(rt;
        refusal(rt.alloc(), &TWICE[..5]),
        Some(DylinkError::NotDylink)
    );
}

#[test]
fn words_are_stored_in_their_order(rt: HostRuntime) {
    let words = [
        WordReloc {
            to: WordPlace::Window(4),
            value: WordValue::ForeignDatum {
                global: 3,
                addend: -1,
            },
        },
        WordReloc {
            to: WordPlace::Got(5),
            value: WordValue::OwnFunction(2),
        },
    ];
    let body = b"\x00\
        \x23\x81\x80\x80\x80\x00\x41\x84\x80\x80\x80\x00\x6a\
        \x23\x83\x80\x80\x80\x00\x41\xff\xff\xff\xff\x7f\x6a\x36\x02\x00\
        \x23\x82\x80\x80\x80\x00\x41\x82\x80\x80\x80\x00\x6a\x24\x85\x80\x80\x80\x00\
        \x0b";
    assert_eq!(rt;
        is_body(rt.alloc(), words.as_slice(), body.as_slice()),
        Some(true)
    );
}
