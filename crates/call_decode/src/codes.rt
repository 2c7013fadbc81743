// The result codes of the core protocol (AMD 58019), as a reply has them in RAX.
ghost use Rattle.std.specs.Prelude.{◌≡◌};
ghost use Rattle.svsm_calls.specs.Codes.{pvalidate_code};

use svsm_types::Code;

/// All was done.
pub const SUCCESS: Code = Code(0);
/// A list was stopped, and goes on when the call is made again.
pub const INCOMPLETE: Code = Code(0x8000_0000);
/// The protocol is none that is built.
pub const UNSUPPORTED_PROTOCOL: Code = Code(0x8000_0001);
/// The protocol has no call of this number.
pub const UNSUPPORTED_CALL: Code = Code(0x8000_0002);
/// An address is outside the map, or may not be used so.
pub const INVALID_ADDRESS: Code = Code(0x8000_0003);
/// A parameter is not of its form, or does not fit what stands.
pub const INVALID_PARAMETER: Code = Code(0x8000_0005);
/// The vCPU runs.
pub const BUSY: Code = Code(0x8000_0007);
/// The page's validity was as asked.
pub const PAGE_UNCHANGED: Code = Code(0x8000_1010);

/// PVALIDATE answered this code.
pub fn pvalidate_code(code: u8) -> Code
    ensures { result.0 ≡ pvalidate_code code }
{
    Code(0x8000_1000 + code as u64)
}
