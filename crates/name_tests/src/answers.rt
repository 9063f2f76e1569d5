//! What the names of two small objects answer: which parts define them, and the least clash and duplicate.
ghost use Rattle.name_entries.specs.made_symbols.declared.mode.Mode.TheVariants.{Plain};
ghost use Rattle.name_entries.specs.Fits.{Fits, FitsObjects};

use crate::looking::{Look, Seen, look_at};
use crate::meanings::meant_by;
use crate::objects::{grouped, strong, weak};
use made_symbols::Mode;
use name_entries::{Entries, PairCase};
use std::alloc::Global;
use std::thread::Threads;
use weak_rules::{first_clash, first_duplicate};
use wl_fan::Workers;

/// An object with a function that is `f`, weak and with a parameter.
fn with_parameter() -> &'static [u8] {
    b"\0asm\x01\0\0\0\x01\x05\x01`\x01\x7f\0\x03\x02\x01\0\x0a\x04\x01\x02\0\x0b\0\x11\x07linking\x02\x08\x06\x01\0\x01\0\x01f".as_slice()
}

/// An object that calls `env.f` by the name `h`, with EXPLICIT_NAME.
fn explicit() -> &'static [u8] {
    b"\0asm\x01\0\0\0\x01\x04\x01`\0\0\x02\x09\x01\x03env\x01f\0\0\0\x11\x07linking\x02\x08\x06\x01\0\x50\0\x01h".as_slice()
}

/// Whether the first symbols of both objects define their names, the inputs of the least clash and of the least duplicate, and how many
/// imports are meant.
#[derive(Clone, Copy, PartialEq, Eq)]
pub struct Answers {
    defines: [bool; 2],
    clash: Option<(u32, u32)>,
    duplicate: Option<(u32, u32)>,
    imports: u32,
}

/// Whether the first symbol of an object defines its name.
fn defines(entries: &Entries<'_>, object: u32) -> bool
    requires { FitsObjects entries.now }
{
    match entries.entry(object, 0) {
        Some(entry) => entry.defines,
        None => false,
    }
}

/// The inputs of a case.
fn inputs_of(case: &Option<PairCase>) -> Option<(u32, u32)> {
    match case {
        Some(case) => Some((case.first, case.other)),
        None => None,
    }
}

/// The inputs of the least clash.
fn clash_of<R: Threads + Sync>(
    rt: &R,
    alloc: Global,
    entries: Entries<'_>,
    workers: Workers,
) -> Option<Option<(u32, u32)>>
    requires { Fits Plain entries }
{
    let case = first_clash(rt, alloc, entries, Mode::Plain, workers).ok()?;
    Some(inputs_of(&case))
}

/// The inputs of the least duplicate.
fn duplicate_of<R: Threads + Sync>(
    rt: &R,
    alloc: Global,
    entries: Entries<'_>,
    workers: Workers,
) -> Option<Option<(u32, u32)>>
    requires { Fits Plain entries }
{
    let case = first_duplicate(rt, alloc, entries, Mode::Plain, workers).ok()?;
    Some(inputs_of(&case))
}

/// What is compared.
pub fn answers_of<R: Threads + Sync>(
    rt: &R,
    alloc: Global,
    entries: Entries<'_>,
    workers: Workers,
) -> Option<Answers>
    requires { Fits Plain entries }
{
    Some(Answers {
        defines: [defines(&entries, 0), defines(&entries, 1)],
        clash: clash_of(rt, alloc, entries, workers)?,
        duplicate: duplicate_of(rt, alloc, entries, workers)?,
        imports: meant_by(rt, alloc, entries, workers, false)?.imports,
    })
}

/// Two files, whether their first symbols define their names, the least clash, the least duplicate, and how many imports there are.
type Case = (
    [&'static [u8]; 2],
    [bool; 2],
    Option<(u32, u32)>,
    Option<(u32, u32)>,
    u32,
);

fn cases() -> [Case; 4] {
    [
        // the function of the group that another input wins defines nothing
        ([grouped(), grouped()], [true, false], None, None, 0),
        // two strong definitions
        ([grouped(), strong()], [true, true], None, Some((1, 2)), 0),
        // two types of one name
        (
            [weak(), with_parameter()],
            [true, true],
            Some((1, 2)),
            None,
            0,
        ),
        // an import by its own name
        ([explicit(), weak()], [false, true], None, None, 1),
    ]
}

/// Whether these files are answered so.
fn is_answered<R: Threads + Sync>(rt: &R, alloc: Global, files: &[&[u8]], wanted: Answers) -> bool {
    match look_at(rt, alloc, files, 2, Look::Answers) {
        Some(Seen::Answers(answers)) => answers == wanted,
        _ => false,
    }
}

/// Whether each case is answered so.
fn are_answered<R: Threads + Sync>(rt: &R, alloc: Global, cases: &[Case]) -> bool {
    for (files, defines, clash, duplicate, imports) in cases {
        let wanted = Answers {
            defines: *defines,
            clash: *clash,
            duplicate: *duplicate,
            imports: *imports,
        };
        if !is_answered(rt, alloc, files, wanted) {
            return false;
        }
    }
    true
}

#[test]
fn kept_parts_define_and_cases_are_the_least(rt: HostRuntime) {
    assert!(rt; are_answered(&rt, rt.alloc(), &cases()));
}
