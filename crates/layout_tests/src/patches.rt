//! Windows that are filled on real threads.
ghost use Rattle.std.specs.Prelude.{IsTrue, All};
ghost use Rattle.reloc_apply.specs.Windows.{IsSum};

use crate::apart::are_apart;
use reloc_apply::{Form, Patch, Patches, Window, fill, values};
use std::alloc::Global;
use std::thread::Threads;
use test_kit::{Meeting, Tally};
use wl_base::{LayoutError, OutOfMemory, Seq, What};
use wl_fan::Workers;
use wl_outside::{Gate, OpenGate, Phase};

fn is_sum(window: &Window) -> bool
    ensures { IsTrue result → IsSum window.now }
{
    window.target.checked_add(window.addend).is_some()
}

// Whether the value of each window is an i64.
#[tactic(auto, using(crate::proofs::Checks::one_more_sum))]
fn are_sums(windows: &[Window]) -> bool
    ensures { IsTrue result → All IsSum windows.now }
{
    for window in windows {
        if !is_sum(window) {
            return false;
        }
    }
    true
}

// Whether this is what was made of windows, or the fault of the first that has no value.
fn is_answer(answer: &Result<Patches, LayoutError>, wanted: Result<&[Patch], LayoutError>) -> bool {
    match (answer, wanted) {
        (Ok(patches), Ok(wanted)) => patches.patches.as_slice() == wanted,
        (Err(fault), Err(wanted)) => *fault == wanted,
        _ => false,
    }
}

// Whether this is written into these windows.
fn are_valued(alloc: Global, windows: &[Window], wanted: Result<&[Patch], LayoutError>) -> bool {
    if !are_sums(windows) {
        return false;
    }
    is_answer(&values(alloc, windows), wanted)
}

// Puts the patches of these windows behind the others.
fn push_all(to: &mut Patches, windows: &[Window]) -> Result<(), LayoutError> {
    for window in windows {
        if !is_sum(window) {
            return Err(LayoutError::OutOfMemory);
        }
        to.push(window)?;
    }
    Ok(())
}

// What is written into these windows, where each is put behind the others.
fn pushed(alloc: Global, windows: &[Window]) -> Result<Patches, LayoutError> {
    let mut patches = Patches::with_capacity(alloc, windows.len())?;
    push_all(&mut patches, windows)?;
    Ok(patches)
}

// Whether this is written into these windows, in both ways.
fn are_written(alloc: Global, windows: &[Window], wanted: Result<&[Patch], LayoutError>) -> bool {
    are_valued(alloc, windows, wanted) && is_answer(&pushed(alloc, windows), wanted)
}

// So many bytes FF with these windows filled, where they lie apart.
fn filled<G: Gate, R: Threads + Sync>(
    rt: &R,
    alloc: Global,
    patches: &Patches,
    len: usize,
    workers: Workers,
    gate: &G,
) -> Option<Vec<u8>> {
    let mut out = vec![in alloc; 0xffu8; len].ok()?;
    if !are_apart(patches.patches.as_slice(), out.len()) {
        return None;
    }
    fill(rt, patches, out.as_mut_slice(), workers, gate);
    Some(out)
}

// Whether so many bytes FF with these windows filled begin and end so.
fn fills<G: Gate, R: Threads + Sync>(
    rt: &R,
    alloc: Global,
    patches: &Patches,
    (len, front, back): (usize, &[u8], &[u8]),
    workers: u32,
    gate: &G,
) -> bool {
    let Some(workers) = Workers::new(workers) else {
        return false;
    };
    match filled(rt, alloc, patches, len, workers, gate) {
        Some(out) => out.as_slice().starts_with(front) && out.as_slice().ends_with(back),
        None => false,
    }
}

fn window(form: Form, target: i64, addend: i64) -> Window {
    Window {
        place: 7,
        form,
        target,
        addend,
    }
}

fn patch(place: u64, form: Form, value: u32) -> Patch {
    Patch { place, form, value }
}

// The values of windows are those of their targets and addends.
fn sums_are_written(alloc: Global) -> bool {
    let windows = [
        window(Form::Unsigned5, 1, 0),
        window(Form::Unsigned5, 0xffff_ffff, 0),
        window(Form::Unsigned5, 1024, 4),
        window(Form::Signed5, 0, -1),
        window(Form::Signed5, 0x8000_0000, 0),
        window(Form::Signed5, 0xffff_ffff, 0),
        window(Form::Word4, 258, 0),
        window(Form::Word4, 1024, -0x8000_0400),
    ];
    let wanted = [
        patch(7, Form::Unsigned5, 1),
        patch(7, Form::Unsigned5, 0xffff_ffff),
        patch(7, Form::Unsigned5, 1028),
        patch(7, Form::Signed5, 0xffff_ffff),
        patch(7, Form::Signed5, 0x8000_0000),
        patch(7, Form::Signed5, 0xffff_ffff),
        patch(7, Form::Word4, 258),
        patch(7, Form::Word4, 0x8000_0000),
    ];
    are_written(alloc, &windows, Ok(&wanted))
}

#[test]
fn values_are_targets_and_addends(rt: HostRuntime) {
    assert!(rt; sums_are_written(rt.alloc()));
    assert!(rt; are_written(rt.alloc(), &[], Ok(&[])));
}

// Whether each of these windows is out of range, by this value, behind one that isn't.
fn are_out_of_range(alloc: Global, cases: &[(Window, i64)]) -> bool {
    let fine = window(Form::Word4, 1, 0);
    let low = window(Form::Unsigned5, 1, -2);
    for (wrong, needed) in cases {
        let fault = LayoutError::Overflow {
            what: What::Reference,
            needed: *needed,
        };
        if !are_written(alloc, &[fine, *wrong, low], Err(fault)) {
            return false;
        }
    }
    true
}

#[test]
fn the_first_value_out_of_range_is_answered(rt: HostRuntime) {
    let cases = [
        (window(Form::Unsigned5, 1, -2), -1),
        (window(Form::Unsigned5, 0xffff_ffff, 1), 0x1_0000_0000),
        (window(Form::Signed5, 0x1_0000_0000, 0), 0x1_0000_0000),
        (window(Form::Word4, 0x1_0000_0000, 0), 0x1_0000_0000),
        (window(Form::Signed5, 0, -0x8000_0001), -0x8000_0001),
        (window(Form::Word4, 0, -0x8000_0001), -0x8000_0001),
    ];
    assert!(rt; are_out_of_range(rt.alloc(), &cases));
}

// These patches.
fn patches_of(alloc: Global, patches: &[Patch]) -> Option<Patches> {
    let patches = Seq::from_slice(alloc, patches).ok()?;
    Some(Patches { patches })
}

// Whether bytes FF become these, whoever works.
fn are_filled<R: Threads + Sync>(rt: &R, alloc: Global, patches: &[Patch], bytes: &[u8]) -> bool {
    let Some(patches) = patches_of(alloc, patches) else {
        return false;
    };
    let wanted = (bytes.len(), bytes, bytes);
    fills(rt, alloc, &patches, wanted, 1, &OpenGate)
        && fills(rt, alloc, &patches, wanted, 2, &OpenGate)
        && fills(rt, alloc, &patches, wanted, 64, &OpenGate)
}

// Windows with bytes between them, and the bytes with them filled.
fn apart() -> [Patch; 2] {
    [patch(1, Form::Unsigned5, 1), patch(8, Form::Word4, 258)]
}

const APART_FILLED: [u8; 12] = *b"\xff\x81\x80\x80\x80\x00\xff\xff\x02\x01\x00\x00";

// Windows that lie beside one another.
fn beside<R: Threads + Sync>(rt: &R, alloc: Global) -> bool {
    let patches = [
        patch(0, Form::Signed5, 0xffff_ffff),
        patch(5, Form::Signed5, 0x8000_0000),
    ];
    let bytes = b"\xff\xff\xff\xff\x7f\x80\x80\x80\x80\x78".as_slice();
    are_filled(rt, alloc, &patches, bytes)
}

// Windows of which the second begins at an odd place.
fn shifted<R: Threads + Sync>(rt: &R, alloc: Global) -> bool {
    let patches = [
        patch(0, Form::Word4, 0x0403_0201),
        patch(5, Form::Signed5, 1024),
    ];
    let bytes = b"\x01\x02\x03\x04\xff\x80\x88\x80\x80\x00\xff".as_slice();
    are_filled(rt, alloc, &patches, bytes)
}

#[test]
fn windows_alone_are_filled(rt: HostRuntime) {
    assert!(rt; are_filled(&rt, rt.alloc(), &apart(), &APART_FILLED));
    assert!(rt; beside(&rt, rt.alloc()));
    assert!(rt; shifted(&rt, rt.alloc()));
    assert!(rt; are_filled(&rt, rt.alloc(), &[], b"\xff\xff\xff".as_slice()));
    assert!(rt; are_filled(&rt, rt.alloc(), &[], b"".as_slice()));
}

const MANY: u32 = 200_000;

// The patches of windows that begin at each sixth byte.
fn add_many(to: &mut Seq<Patch>) -> Result<(), OutOfMemory> {
    for k in 0..MANY {
        let form = match k % 3 {
            0 => Form::Unsigned5,
            1 => Form::Signed5,
            _ => Form::Word4,
        };
        to.push(patch(u64::from(k) * 6, form, k))?;
    }
    Ok(())
}

// Whether they are filled by so many workers, each once.
fn are_divided<R: Threads + Sync>(
    rt: &R,
    alloc: Global,
    patches: &Patches,
    workers: u32,
    greatest: u64,
) -> bool {
    let gate = Tally::new(Phase::Fill);
    let front = b"\x80\x80\x80\x80\x00\xff\x81\x80\x80\x80\x00\xff".as_slice();
    let back = b"\xbf\x9a\x8c\x80\x00\xff".as_slice();
    let wanted = (6 * MANY as usize, front, back);
    fills(rt, alloc, patches, wanted, workers, &gate)
        && gate.jobs() == Some(u64::from(MANY))
        && gate.sum() == 19_999_900_000
        && gate.greatest_worker() == greatest
}

fn many_are_divided<R: Threads + Sync>(rt: &R, alloc: Global) -> bool {
    let mut patches = Seq::new(alloc);
    if add_many(&mut patches).is_err() {
        return false;
    }
    let patches = Patches { patches };
    are_divided(rt, alloc, &patches, 1, 0)
        && are_divided(rt, alloc, &patches, 2, 1)
        && are_divided(rt, alloc, &patches, 64, 2)
}

#[test]
fn many_windows_are_divided(rt: HostRuntime) {
    assert!(rt; many_are_divided(&rt, rt.alloc()));
}

// Whether two of so many workers meet, and the bytes are the same.
fn meet<R: Threads + Sync>(rt: &R, alloc: Global, workers: u32) -> bool {
    let Some(patches) = patches_of(alloc, &apart()) else {
        return false;
    };
    let gate = Meeting::new(Phase::Fill);
    let bytes = APART_FILLED.as_slice();
    fills(
        rt,
        alloc,
        &patches,
        (bytes.len(), bytes, bytes),
        workers,
        &gate,
    ) && gate.was_met()
}

#[test]
fn two_workers_fill_at_once(rt: HostRuntime) {
    assert!(rt; meet(&rt, rt.alloc(), 2));
    assert!(rt; meet(&rt, rt.alloc(), 64));
}
