//! The three tests of a VMSA, after the AMD64 manual, volume 2.
ghost use Rattle.std.specs.Prelude.{◌≡◌};
ghost use Rattle.svsm_steps.specs.Words.{is_vmsa};

use svsm_types::Vmpl;

/// Whether the words of a page at 0xC8, 0xD0 and 0x3B0 admit it as a VMSA: its VMPL, the byte at 0xCA, is the caller's; SVME,
/// bit 12 of EFER at 0xD0, is set; and SEV_FEATURES at 0x3B0 equals `features`.
pub fn check(word_c8: u64, word_d0: u64, word_3b0: u64, vmpl: Vmpl, features: u64) -> bool
    ensures { result ≡ is_vmsa vmpl.0 features word_c8 word_d0 word_3b0 }
{
    word_c8 / 0x1_0000 % 0x100 == vmpl.0 as u64 && word_d0 / 0x1000 % 2 == 1 && word_3b0 == features
}
