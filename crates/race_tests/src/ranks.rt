//! Ranks by hand.

use symbol_race::rank;

#[test]
fn ranks_go_by_class_then_input_then_symbol(rt: HostRuntime) {
    assert_eq!(rt; rank(0, 0, 9), 9);
    assert_eq!(rt; rank(0, 1, 2), 0x1_0000_0002);
    assert_eq!(rt; rank(1, 0xF_FFFF, u32::MAX), 0x010F_FFFF_FFFF_FFFF);
    assert_eq!(rt; rank(2, 0, 0), 0x0200_0000_0000_0000);
}
