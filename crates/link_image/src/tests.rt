//! Pages of a shared output's memory; all else is tested on links.

use crate::shared::shared_memory;

#[test]
fn pages_hold_the_data(rt: HostRuntime) {
    assert!(rt; shared_memory(0).min == 0);
    assert!(rt; shared_memory(1).min == 1);
    assert!(rt; shared_memory(65_536).min == 1);
    assert!(rt; shared_memory(65_537).min == 2);
    assert!(rt; shared_memory(u32::MAX).min == 65_536);
}
