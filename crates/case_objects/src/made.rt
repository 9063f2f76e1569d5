//! The generated case.
ghost use Rattle.std.specs.Prelude.{◌≡◌, ◌≤◌, IfOk, length};
ghost use Rattle.case_objects.specs.Objects.{objects};

use crate::object::CaseObject;
use std::alloc::Global;
use wl_base::{OutOfMemory, Seq};

/// The objects of a case of n, which is 1 to 20,000, in their order.
///
/// Object k defines the functions `fK` and `w` and the datum `dK`, where K is k in decimal. `fK` calls
/// the next object's, where there is one, and `w`, which stands in a COMDAT group of its name.
#[tactic(auto, using(crate::proofs::Count::objects_count))]
pub fn make_case(alloc: Global, n: u32) -> Result<Seq<Seq<u8>>, OutOfMemory>
    requires some { 1 ≤ n }
    requires most { n ≤ 20000 }
    ensures files { IfOk result (λ files. files ≡ objects n) }
    ensures count { IfOk result (λ files. length files ≡ n) }
{
    let mut files = Seq::new(alloc);
    for number in 0..n {
        let more = number + 1 < n;
        files.push(CaseObject { number, more }.bytes(alloc)?)?;
    }
    Ok(files)
}
