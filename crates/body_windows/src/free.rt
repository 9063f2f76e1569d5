//! Going past instructions of which no immediate can be a reference.
//!
//! Where one isn't quick to tell, the course is as before.
ghost use Rattle.std.specs.Prelude.{◌≡◌, ℕ, ◌+◌, ◌<◌, ◌≤◌, false, List, length, Some, IsTrue};
ghost use Rattle.wasm_instr.specs.Skimming.{outline_step};
ghost use Rattle.body_windows.specs.Merging.{State};
ghost use Rattle.body_windows.specs.Quick.{IsFree, Stands, Goes};

use crate::course::Course;
use crate::opcodes::{is_block, is_else, is_end};
use crate::shapes::{is_short_kind, plain_len};
use wasm_instr::{Outline, outline_step};
use wl_base::Seq;

/// Opens and closes the blocks of an instruction of this outline, where one is still open behind it:
/// whether it did. Where it didn't, nothing changes.
#[inline(always)]
fn turn_blocks(opens: &mut Seq<bool>, outline: Outline) -> bool
    ensures done { IsTrue result → outline_step opens.old outline ≡ Some opens.new }
    ensures opened { 0 < length opens.old → 0 < length opens.new }
    ensures left { result ≡ false → opens.new ≡ opens.old }
{
    if matches!(outline, Outline::End) && opens.len() < 2 {
        return false;
    }
    outline_step(opens, 0, outline).is_ok()
}

/// Goes past an instruction of this outline that ends at the place `to`, where a block is still open
/// behind it.
#[inline(always)]
fn pass_block(opens: &mut Seq<bool>, outline: Outline, course: Course, to: usize) -> Course
    ensures { (from : ℕ) (bytes : List ℕ) (s : State) → Stands s from bytes course → 0 < length opens.old → IsFree bytes course.at outline to → Goes from bytes s opens.old course s opens.new result }
{
    if turn_blocks(opens, outline) {
        course.moved(to)
    } else {
        course
    }
}

/// Goes past an instruction of which no immediate can be a reference.
#[inline(always)]
pub fn pass_free(opens: &mut Seq<bool>, bytes: &[u8], course: Course) -> Course
    requires { course.at + 3 ≤ length bytes.now }
    ensures { (from : ℕ) (s : State) → Stands s from bytes.now course → 0 < length opens.old → Goes from bytes.now s opens.old course s opens.new result }
{
    let at = course.at;
    let op = bytes[at];
    if is_end(op) {
        return pass_block(opens, Outline::End, course, at + 1);
    }
    if is_block(op) {
        if !is_short_kind(bytes[at + 1]) {
            return course;
        }
        let outline = Outline::Block {
            may_else: op == 0x04,
            index: false,
        };
        return pass_block(opens, outline, course, at + 2);
    }
    if is_else(op) {
        return pass_block(opens, Outline::Else, course, at + 1);
    }
    course.moved(at + plain_len(bytes, at))
}
