//! The bits of the layout, one by one.
use crate::RmpWord;
use svsm_types::{PageState, Perms};

const NO_RIGHTS: [Perms; 3] = [Perms(0), Perms(0), Perms(0)];

fn page(assigned: bool, validated: bool, vmsa: bool, rights: [Perms; 3]) -> PageState {
    PageState {
        assigned,
        validated,
        rights,
        vmsa,
    }
}

#[test]
fn each_field_has_its_bits(rt: HostRuntime) {
    for (bits, state) in [
        (0x0, page(false, false, false, NO_RIGHTS)),
        (0x1, page(true, false, false, NO_RIGHTS)),
        (0x2, page(false, true, false, NO_RIGHTS)),
        (0x4, page(false, false, true, NO_RIGHTS)),
        (
            0xF0,
            page(false, false, false, [Perms(15), Perms(0), Perms(0)]),
        ),
        (
            0xB00,
            page(false, false, false, [Perms(0), Perms(11), Perms(0)]),
        ),
        (
            0x8000,
            page(false, false, false, [Perms(0), Perms(0), Perms(8)]),
        ),
        (
            0x1247,
            page(true, true, true, [Perms(4), Perms(2), Perms(1)]),
        ),
    ] {
        assert_eq!(rt; RmpWord(bits).unpack(), Some(state), "{bits}");
        assert_eq!(rt; RmpWord(bits).state(), state, "{bits}");
    }
}

#[test]
fn a_state_is_packed(rt: HostRuntime) {
    let state = PageState {
        assigned: true,
        validated: true,
        rights: [Perms(4), Perms(2), Perms(1)],
        vmsa: true,
    };
    assert_eq!(rt; RmpWord::pack(&state), RmpWord(0x1247));
}

#[test]
fn a_bit_outside_the_layout_is_refused(rt: HostRuntime) {
    for bit in [3, 16, 17, 40, 63] {
        assert_eq!(rt; RmpWord(1 << bit).unpack(), None, "{bit}");
    }
}
