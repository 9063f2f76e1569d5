//! Going past instructions whose last immediate can be a reference, by a symbol.
//!
//! Where one isn't quick to tell, the course is as before. The code begins at the place `from` of its
//! body.
ghost use Rattle.std.specs.Prelude.{◌≡◌, ◌+◌, ◌<◌, ◌≤◌, ◌^◌, length};
ghost use Rattle.wasm_instr.specs.Bodies.{Nest};
ghost use Rattle.body_windows.specs.Quick.{EndsIn, IsNamed, IsCounted, Stands, Goes};

use crate::course::Course;
use crate::immediate::{Immediate, ImmediateKind};
use crate::merging::Merger;
use crate::shapes::{is_window, number_len};

/// Goes past an instruction that ends in a window at the place `mid`.
#[inline(always)]
pub fn pass_window(
    merger: &mut Merger,
    from: usize,
    bytes: &[u8],
    mid: usize,
    kind: ImmediateKind,
    course: Course,
) -> Course
    requires stands { Stands merger.old from bytes.now course }
    requires whole { mid < length bytes.now }
    requires behind { course.at ≤ mid }
    requires ends { EndsIn bytes.now course.at mid kind }
    requires named { IsNamed kind }
    requires room { merger.old.base + (from + length bytes.now) < 2 ^ 32 }
    ensures { (nest : Nest) → 0 < length nest → Goes from bytes.now merger.old nest course merger.new nest result }
{
    if !is_window(bytes, mid) {
        return course;
    }
    let immediate = Immediate {
        kind,
        place: (from + mid) as u32,
        len: 5,
    };
    if !merger.take(course.numbers, immediate) {
        return course;
    }
    Course {
        at: mid + 5,
        numbers: 0,
        next: merger.clear(from),
    }
}

/// Goes past an instruction that ends in a number at the place `mid`, or in a window.
#[inline(always)]
pub fn pass_number(
    merger: &mut Merger,
    from: usize,
    bytes: &[u8],
    mid: usize,
    kind: ImmediateKind,
    course: Course,
) -> Course
    requires stands { Stands merger.old from bytes.now course }
    requires whole { mid < length bytes.now }
    requires behind { course.at < mid }
    requires ends { EndsIn bytes.now course.at mid kind }
    requires counted { IsCounted kind }
    requires room { merger.old.base + (from + length bytes.now) < 2 ^ 32 }
    ensures { (nest : Nest) → 0 < length nest → Goes from bytes.now merger.old nest course merger.new nest result }
{
    if mid >= course.next {
        return pass_window(merger, from, bytes, mid, kind, course);
    }
    let len = number_len(bytes, mid);
    if len == 0 {
        return course;
    }
    course.counted(mid + len)
}
