//! Keys no two of which are equal. A set for a few keys costs more than to compare them in pairs.
ghost use Rattle.std.specs.Prelude.{◌≡◌, nat_eq, map, IfOk};
ghost use Rattle.std.specs.List.{list_any};
ghost use Rattle.std.specs.Str.{bytes_eq};
ghost use Rattle.object_rules.specs.Differ.{all_differ};

use indexmap::IndexSet;
use std::alloc::Global;
use wl_base::OutOfMemory;

/// So many keys at most are compared in pairs.
pub const FEW: usize = 8;

/// Whether the number is one of these.
fn is_among(numbers: &[u64], number: u64) -> bool
    ensures { result ≡ list_any (nat_eq number) numbers.now }
{
    numbers.iter().any(|other| number == *other)
}

/// Whether no two of a few numbers are equal.
fn pairs_differ(numbers: &[u64]) -> bool
    ensures { result ≡ all_differ nat_eq numbers.now }
{
    let mut left = numbers;
    while let [number, behind @ ..] = left {
        if is_among(behind, *number) {
            return false;
        }
        left = behind;
    }
    true
}

/// Whether no two of these numbers are equal.
pub fn numbers_differ(alloc: Global, numbers: &[u64]) -> Result<bool, OutOfMemory>
    ensures { IfOk result (λ differ. differ ≡ all_differ nat_eq numbers.now) }
{
    if numbers.len() <= FEW {
        return Ok(pairs_differ(numbers));
    }
    let mut seen = IndexSet::new(alloc);
    for number in numbers {
        if !seen.insert(*number)? {
            return Ok(false);
        }
    }
    Ok(true)
}
