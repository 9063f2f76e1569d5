//! Going over the instructions at the front of code that are quick to tell: most of a body.
//!
//! The pass goes by an index and plain numbers, and leaves what it doesn't tell to the slower one
//! (`scanning`).
ghost use Rattle.std.specs.Prelude.{◌≡◌, ℕ, ◌+◌, ◌<◌, ◌≤◌, ◌^◌, length, IfOk, IfSome};
ghost use Rattle.wasm_instr.specs.Bodies.{Nest};
ghost use Rattle.body_windows.specs.Merging.{State, walked};
ghost use Rattle.body_windows.specs.Quick.{IsFree, EndsIn, Stands, Goes};

use crate::course::Course;
use crate::free::pass_free;
use crate::immediate::ImmediateKind::{Constant, FunctionIndex, GlobalIndex, MemoryOffset};
use crate::merging::Merger;
use crate::named::{pass_number, pass_window};
use crate::opcodes::{is_access, is_branch, is_call, is_constant, is_global, is_local, is_numeric};
use crate::shapes::is_short;
use wasm_grammar::place;
use wl_base::{OutOfMemory, Seq};

/// How many bytes the longest instruction has that [`pass_short`] goes past.
const SHORT: usize = 3;

/// Goes past one of the shortest instructions, whose immediates have one byte each and are no window.
#[inline(always)]
fn pass_short(bytes: &[u8], course: Course) -> Option<Course>
    requires whole { course.at + 3 ≤ length bytes.now }
    requires few { course.numbers < 2 ^ 32 }
    ensures onward { IfSome result (λ there. course.at < there.at) }
    ensures goes { (from : ℕ) (s : State) (nest : Nest) → Stands s from bytes.now course → 0 < length nest → IfSome result (λ there. Goes from bytes.now s nest course s nest there) }
{
    let at = course.at;
    let op = bytes[at];
    if is_local(op) && is_short(bytes, at + 1) {
        return Some(course.moved(at + 2));
    }
    if is_numeric(op) {
        return Some(course.moved(at + 1));
    }
    if is_constant(op) && at + 1 < course.next && is_short(bytes, at + 1) {
        return Some(course.counted(at + 2));
    }
    if is_access(op) && at + 2 < course.next && is_short(bytes, at + 1) && is_short(bytes, at + 2) {
        return Some(course.counted(at + 3));
    }
    if is_branch(op) && is_short(bytes, at + 1) {
        return Some(course.moved(at + 2));
    }
    None
}

/// Goes past the instruction at the course's place. Where it isn't quick to tell, the course is as before.
#[inline(always)]
fn pass_one(
    merger: &mut Merger,
    opens: &mut Seq<bool>,
    from: usize,
    bytes: &[u8],
    course: Course,
) -> Course
    requires stands { Stands merger.old from bytes.now course }
    requires opened { 0 < length opens.old }
    requires whole { course.at + 3 ≤ length bytes.now }
    requires room { merger.old.base + (from + length bytes.now) < 2 ^ 32 }
    ensures { Goes from bytes.now merger.old opens.old course merger.new opens.new result }
{
    let at = course.at;
    let op = bytes[at];
    if is_constant(op) {
        return pass_number(merger, from, bytes, at + 1, Constant, course);
    }
    if is_access(op) {
        if !is_short(bytes, at + 1) {
            return course;
        }
        return pass_number(merger, from, bytes, at + 2, MemoryOffset, course);
    }
    if is_call(op) {
        return pass_window(merger, from, bytes, at + 1, FunctionIndex, course);
    }
    if is_global(op) {
        return pass_window(merger, from, bytes, at + 1, GlobalIndex, course);
    }
    pass_free(opens, bytes, course)
}

/// Goes past the instructions at the front that are quick to tell, up to the first that isn't or comes
/// close to the end: the bytes from there on. The bytes reach to the body's end.
#[inline(never)]
pub fn pass_quick<'a>(
    merger: &mut Merger,
    opens: &mut Seq<bool>,
    end: usize,
    bytes: &'a [u8],
) -> Result<&'a [u8], OutOfMemory>
    requires within { length bytes.now ≤ end }
    requires room { merger.old.base + end < 2 ^ 32 }
    requires opened { 0 < length opens.old }
    ensures within { IfOk result (λ rest. length rest.now ≤ length bytes.now) }
    ensures base { IfOk result (λ rest. merger.new.base ≡ merger.old.base) }
    ensures opened { IfOk result (λ rest. 0 < length opens.new) }
    ensures same { IfOk result (λ rest. walked merger.old end opens.old bytes.now ≡ walked merger.new end opens.new rest.now) }
{
    let len = bytes.len();
    if len < SHORT || !merger.is_on() {
        return Ok(bytes);
    }
    let last = len - SHORT;
    let from = place(end, bytes);
    let mut course = Course {
        at: 0,
        numbers: 0,
        next: merger.clear(from),
    };
    while course.at <= last {
        if let Some(there) = pass_short(bytes, course) {
            course = there;
            continue;
        }
        let at = course.at;
        course = pass_one(merger, opens, from, bytes, course);
        if course.at == at {
            break;
        }
    }
    merger.push_numbers(course.numbers)?;
    Ok(&bytes[course.at..])
}
