//! Calls that are counted, of which some are listed.
ghost use Rattle.std.specs.Prelude.{◌≡◌, ◌↔◌, Contains, IsTrue};
ghost use Rattle.wl_outside.specs.Counts.{raised};

// Counts a call, and tells whether it is listed. A count that stands at its last value is in no list.
pub fn next_is_listed(calls: &mut u64, listed: &[u32]) -> bool
    ensures counted { calls.new ≡ raised calls.old }
    ensures listed { IsTrue result ↔ Contains listed.now calls.new }
{
    *calls = calls.saturating_add(1);
    let call = *calls;
    listed.iter().any(|number| u64::from(*number) == call)
}
