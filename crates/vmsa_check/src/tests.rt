//! The tests of a VMSA at their borders.
use super::*;
use svsm_types::Vmpl;

#[test]
fn level_svme_and_features_decide(rt: HostRuntime) {
    let vmpl = Vmpl(2);
    assert!(rt; check(0xffff_ffff_ff02_ffff, 0x1000, 5, vmpl, 5));
    assert!(rt; check(0x2_0000, 0xffff_ffff_ffff_ffff, 0, vmpl, 0));
    assert!(rt; !check(0x1_0000, 0x1000, 5, vmpl, 5));
    assert!(rt; !check(0x200_0002, 0x1000, 5, vmpl, 5));
    assert!(rt; !check(0x2_0000, 0xffff_ffff_ffff_efff, 5, vmpl, 5));
    assert!(rt; !check(0x2_0000, 0x1000, 4, vmpl, 5));
}
