//! The packed word of a page: bit 0 assigned, bit 1 validated, bit 2 VMSA, bits 7:4, 11:8 and 15:12 the rights of VMPL 1, 2 and 3.
#![tactic(auto)]

ghost use Rattle.std.specs.Prelude.{◌≡◌, ◌<◌, ⊤, codes, [], ◌∷◌, Some, IfSome};
ghost use Rattle.svsm_types.specs.Hardware.{has_bit, is_usable};
ghost use Rattle.rmp_word.specs.Packed.{as_bit, packed, state_of, unpacked, HasRights, right_in};

use bitflags::{Flag, Flags, bitflag_items};
use svsm_types::{PageState, Perms};

/// The state of a page in one word. Bit 3 and bits 63:16 are outside the layout.
#[derive(Clone, Copy, PartialEq, Eq, Debug)]
pub struct RmpWord(pub u64);

bitflag_items! {
    impl RmpWord: u64 {
        const ASSIGNED = 1;
        const VALIDATED = 2;
        const VMSA = 4;
        const RIGHTS_1 = 0xF0;
        const RIGHTS_2 = 0xF00;
        const RIGHTS_3 = 0xF000;
    }
}

impl Flags for RmpWord {
    type Bits = u64;

    ghost exact = { ⊤ };

    ghost table = { (codes "ASSIGNED", 1) ∷ (codes "VALIDATED", 2) ∷ (codes "VMSA", 4) ∷ (codes "RIGHTS_1", 240) ∷ (codes "RIGHTS_2", 3840) ∷ (codes "RIGHTS_3", 61440) ∷ [] };

    ghost set_of = { λ p. p.0 };

    fn flags<'a>() -> &'a [Flag<RmpWord>] {
        RmpWord::FLAGS
    }

    fn bits(&self) -> u64 {
        self.0
    }

    fn from_bits_retain(bits: u64) -> RmpWord {
        RmpWord(bits)
    }
}

/// A truth as a bit.
fn as_bit(on: bool) -> u64
    ensures { result ≡ as_bit on }
{
    if on { 1 } else { 0 }
}

/// The right whose lowest bit has this value.
fn right_in(unit: u64, word: u64) -> Perms
    requires { 0 < unit }
    ensures { result ≡ right_in unit word }
{
    Perms((word / unit % 16) as u8)
}

/// The bits of a state.
#[tactic(auto, unfolding(crate::specs::Packed::packed))]
fn packed(state: &PageState) -> u64
    requires { HasRights state.now }
    ensures { result ≡ packed state.now }
{
    let [first, second, third] = state.rights;
    as_bit(state.assigned)
        + 2 * as_bit(state.validated)
        + 4 * as_bit(state.vmsa)
        + 16 * u64::from(first.0)
        + 256 * u64::from(second.0)
        + 4096 * u64::from(third.0)
}

impl RmpWord {
    #[tactic(auto, using(crate::proofs::PackedLemmas::bit_0))]
    fn is_assigned(self) -> bool
        ensures { result ≡ has_bit 1 self.0 }
    {
        self.contains(RmpWord::ASSIGNED)
    }

    #[tactic(auto, using(crate::proofs::PackedLemmas::bit_1))]
    fn is_validated(self) -> bool
        ensures { result ≡ has_bit 2 self.0 }
    {
        self.contains(RmpWord::VALIDATED)
    }

    #[tactic(auto, using(crate::proofs::PackedLemmas::bit_2))]
    fn is_vmsa(self) -> bool
        ensures { result ≡ has_bit 4 self.0 }
    {
        self.contains(RmpWord::VMSA)
    }

    /// Whether the page is assigned and validated.
    #[inline(always)]
    #[tactic(auto, using(crate::proofs::PackedLemmas::both_low))]
    pub fn is_usable(self) -> bool
        ensures { result ≡ is_usable (state_of self.0) }
    {
        self.0 % 4 == 3
    }

    /// The word of a state.
    pub fn pack(state: &PageState) -> RmpWord
        requires { HasRights state.now }
        ensures value { result.0 ≡ packed state.now }
        ensures back { unpacked result.0 ≡ Some state.now }
    {
        RmpWord(packed(state))
    }

    /// The state that the bits of the layout stand for, whatever the other bits are.
    #[tactic(auto, unfolding(crate::specs::Packed::state_of))]
    pub fn state(self) -> PageState
        ensures value { result ≡ state_of self.0 }
        ensures rights { HasRights result }
    {
        PageState {
            assigned: self.is_assigned(),
            validated: self.is_validated(),
            rights: [
                right_in(16, self.0),
                right_in(256, self.0),
                right_in(4096, self.0),
            ],
            vmsa: self.is_vmsa(),
        }
    }

    /// The state; None exactly where a bit outside the layout is set: bit 3, or one of 63:16.
    pub fn unpack(self) -> Option<PageState>
        ensures value { result ≡ unpacked self.0 }
        ensures back { IfSome result (λ page. packed page ≡ self.0) }
        ensures rights { IfSome result HasRights }
    {
        if self.0 / 8 % 2 == 0 && self.0 < 65536 {
            Some(self.state())
        } else {
            None
        }
    }
}

#[cfg(test)]
mod tests;
