//! What symbols of small objects mean.
ghost use Rattle.name_entries.specs.made_symbols.declared.mode.Mode.TheVariants.{Plain};
ghost use Rattle.name_entries.specs.Fits.{Fits};
ghost use Rattle.name_unresolved.specs.Unresolved.{AreMeant};

use crate::looking::{Look, Seen, look_at};
use crate::objects::grouped;
use made_symbols::Mode;
use name_entries::{Entries, Meaning, Object};
use name_jobs::name_winners;
use name_meanings::{Resolution, resolve};
use name_unresolved::laws::resolved_is_meant;
use std::alloc::Global;
use std::thread::Threads;
use wl_fan::Workers;
use wl_outside::OpenGate;

/// An object that calls `env.f`, and needs it.
fn strong() -> &'static [u8] {
    b"\0asm\x01\0\0\0\x01\x04\x01`\0\0\x02\x09\x01\x03env\x01f\0\0\0\x0f\x07linking\x02\x08\x04\x01\0\x10\0".as_slice()
}

/// The same, WEAK.
fn weak() -> &'static [u8] {
    b"\0asm\x01\0\0\0\x01\x04\x01`\0\0\x02\x09\x01\x03env\x01f\0\0\0\x0f\x07linking\x02\x08\x04\x01\0\x11\0".as_slice()
}

/// The same, by the name `g`, with EXPLICIT_NAME.
fn explicit_g() -> &'static [u8] {
    b"\0asm\x01\0\0\0\x01\x04\x01`\0\0\x02\x09\x01\x03env\x01f\0\0\0\x11\x07linking\x02\x08\x06\x01\0\x50\0\x01g".as_slice()
}

/// The same, by the name `h`.
fn explicit_h() -> &'static [u8] {
    b"\0asm\x01\0\0\0\x01\x04\x01`\0\0\x02\x09\x01\x03env\x01f\0\0\0\x11\x07linking\x02\x08\x06\x01\0\x50\0\x01h".as_slice()
}

/// An object with a function that is `f`, LOCAL.
fn local() -> &'static [u8] {
    b"\0asm\x01\0\0\0\x01\x04\x01`\0\0\x03\x02\x01\0\x0a\x04\x01\x02\0\x0b\0\x11\x07linking\x02\x08\x06\x01\0\x02\0\x01f".as_slice()
}

/// What is meant by the first symbols of the inputs 1 and 2, how many imports there are, and whether the first is of `env`.
#[derive(Clone, Copy)]
pub struct Meant {
    first: Meaning,
    second: Meaning,
    pub imports: u32,
    of_env: bool,
}

/// The first symbol of an input.
fn own(input: u32) -> Meaning {
    Meaning::Here { input, symbol: 0 }
}

/// What is meant by the first symbol of an object.
#[tactic(auto, using(crate::proofs::Meant::first_is_meant))]
fn first_of(resolution: &Resolution, objects: &[Object], at: usize) -> Option<Meaning>
    requires { AreMeant resolution.now.rows objects.now }
{
    let Some(object) = objects.get(at) else {
        return None;
    };
    if object.symbols.len() == 0 {
        return None;
    }
    Some(resolution.meaning(object.input, 0))
}

/// What is compared.
fn summary(resolution: &Resolution, objects: &[Object]) -> Option<Meant>
    requires { AreMeant resolution.now.rows objects.now }
{
    let imports = resolution.imports();
    Some(Meant {
        first: first_of(resolution, objects, 0)?,
        second: first_of(resolution, objects, 1)?,
        imports,
        of_env: imports > 0 && resolution.import(0).0 == b"env".as_slice(),
    })
}

/// What the first symbols mean.
pub fn meant_by<R: Threads + Sync>(
    rt: &R,
    alloc: Global,
    entries: Entries<'_>,
    workers: Workers,
    allow_undefined: bool,
) -> Option<Meant>
    requires { Fits Plain entries }
{
    let Ok(winners) = name_winners(rt, alloc, entries, Mode::Plain, workers, &OpenGate) else {
        return None;
    };
    let Ok(resolution) = resolve(alloc, entries, &winners, allow_undefined, Mode::Plain) else {
        return None;
    };
    resolved_is_meant();
    summary(&resolution, entries.objects)
}

/// Two files, whether undefined names are allowed, what their first symbols mean, and how many imports there are.
type Case = ([&'static [u8]; 2], bool, Meaning, Meaning, u32);

/// Whether both are the same.
fn agree(meant: &Meant, wanted: &Meant) -> bool {
    meant.first == wanted.first
        && meant.second == wanted.second
        && meant.imports == wanted.imports
        && meant.of_env == wanted.of_env
}

/// Whether the symbols of these files mean this.
fn is_meant<R: Threads + Sync>(
    rt: &R,
    alloc: Global,
    files: &[&[u8]],
    allow: bool,
    wanted: &Meant,
) -> bool {
    match look_at(rt, alloc, files, 1, Look::Meanings(allow)) {
        Some(Seen::Meanings(meant)) => agree(&meant, wanted),
        _ => false,
    }
}

/// Whether the symbols mean this in each case.
fn mean<R: Threads + Sync>(rt: &R, alloc: Global, cases: &[Case]) -> bool {
    for (files, allow, first, second, imports) in cases {
        let wanted = Meant {
            first: *first,
            second: *second,
            imports: *imports,
            of_env: *imports > 0,
        };
        if !is_meant(rt, alloc, files, *allow, &wanted) {
            return false;
        }
    }
    true
}

fn undefined_symbols() -> [Case; 4] {
    let first = Meaning::Import(0);
    [
        // a strong function without a definition means nothing, a WEAK one is null
        (
            [strong(), weak()],
            false,
            Meaning::Nothing,
            Meaning::Null,
            0,
        ),
        // both are imported where undefined names are allowed, if one is strong
        ([weak(), strong()], true, first, first, 1),
        ([weak(), weak()], true, Meaning::Null, Meaning::Null, 0),
        // two names of one module and field are one import
        ([explicit_g(), explicit_h()], false, first, first, 1),
    ]
}

/// A definition that isn't kept means the winner, a LOCAL one itself.
fn definitions() -> [Case; 3] {
    [
        ([grouped(), grouped()], false, own(1), own(1), 0),
        ([local(), strong()], false, own(1), Meaning::Nothing, 0),
        ([local(), grouped()], false, own(1), own(2), 0),
    ]
}

#[test]
fn rules_in_their_order(rt: HostRuntime) {
    assert!(rt; mean(&rt, rt.alloc(), &undefined_symbols()));
    assert!(rt; mean(&rt, rt.alloc(), &definitions()));
}
