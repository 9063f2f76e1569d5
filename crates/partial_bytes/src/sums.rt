//! Sums that 64 bits hold. That they don't can't happen, and is answered as want of memory.
ghost use Rattle.std.specs.Prelude.{◌≡◌, ◌+◌, ℕ, IfOk};
ghost use Rattle.image_emit.specs.Put.{capped};

use wl_base::OutOfMemory;

/// The sum.
pub fn sum(a: u64, b: u64) -> Result<u64, OutOfMemory>
    ensures { IfOk result (λ n. n ≡ a + b) }
{
    match a.checked_add(b) {
        Some(n) => Ok(n),
        None => Err(OutOfMemory),
    }
}

/// What is known as far as 64 bits hold it.
pub fn exact(n: u64) -> Result<u64, OutOfMemory>
    ensures { IfOk result (λ k. (x : ℕ) → n ≡ capped x → k ≡ x) }
{
    if n == u64::MAX {
        return Err(OutOfMemory);
    }
    Ok(n)
}

/// A number of 32 bits.
pub fn short(n: u64) -> Result<u32, OutOfMemory>
    ensures { IfOk result (λ k. k ≡ n) }
{
    match u32::try_from(n) {
        Ok(k) => Ok(k),
        Err(_) => Err(OutOfMemory),
    }
}
