//! The fields of an exit.
ghost use Rattle.std.specs.Prelude.{◌≡◌, length};
ghost use Rattle.ghcb_page.specs.Fields.{with_exit, begun_exit, begun_ap, ended_exit, says_nothing};

use crate::HostSaid;
use crate::bytes::{put_bytes, put_u16, put_u32, put_u64, u64_at};

const RAX: usize = 0x1F8;

const EXIT_CODE: usize = 0x390;

const INFO1: usize = 0x398;

const INFO2: usize = 0x3A0;

const SCRATCH: usize = 0x3A8;

const BITMAP: usize = 0x3F0;

const VERSION: usize = 0xFFA;

const USAGE: usize = 0xFFC;

// The exit that creates a vCPU.
const CREATION: u64 = 0x8000_0013;

// Writes the fields of an exit, of which the bitmap `valid` says which are valid.
fn put_exit(bytes: &mut [u8], valid: &[u8; 16], code: u64, info1: u64, info2: u64, scratch: u64)
    requires { length bytes.old ≡ 4096 }
    ensures { bytes.new ≡ with_exit valid.now code info1 info2 scratch bytes.old }
{
    put_u64(bytes, EXIT_CODE, code);
    put_u64(bytes, INFO1, info1);
    put_u64(bytes, INFO2, info2);
    put_u64(bytes, SCRATCH, scratch);
    put_bytes(bytes, BITMAP, valid);
    put_u16(bytes, VERSION, 2);
    put_u32(bytes, USAGE, 0);
}

/// Begins an exit.
#[tactic(auto, unfolding(crate::specs::Fields::exit_bitmap))]
pub(crate) fn begin(bytes: &mut [u8], code: u64, info1: u64, info2: u64, scratch: u64)
    requires { length bytes.old ≡ 4096 }
    ensures { bytes.new ≡ begun_exit code info1 info2 scratch bytes.old }
{
    let valid = [0, 0, 0, 0, 0, 0, 0, 0, 0, 0, 0, 0, 0, 0, 0x3C, 0];
    put_exit(bytes, &valid, code, info1, info2, scratch);
}

/// Begins the exit that creates a vCPU.
#[tactic(auto, unfolding(crate::specs::Fields::ap_bitmap))]
pub(crate) fn begin_creation(bytes: &mut [u8], rax: u64, info1: u64, info2: u64)
    requires { length bytes.old ≡ 4096 }
    ensures { bytes.new ≡ begun_ap rax info1 info2 bytes.old }
{
    let valid = [0, 0, 0, 0, 0, 0, 0, 0x80, 0, 0, 0, 0, 0, 0, 0x3C, 0];
    put_exit(bytes, &valid, CREATION, info1, info2, 0);
    put_u64(bytes, RAX, rax);
}

fn is_quiet(info1: u64, info2: u64) -> bool
    ensures { result ≡ says_nothing info1 info2 }
{
    info1 % 0x1_0000_0000 == 0 && info2 == 0
}

/// Ends an exit.
pub(crate) fn end(bytes: &[u8]) -> Result<u64, HostSaid>
    requires { length bytes.now ≡ 4096 }
    ensures { result ≡ ended_exit bytes.now }
{
    let info1 = u64_at(bytes, INFO1);
    let info2 = u64_at(bytes, INFO2);
    if is_quiet(info1, info2) {
        Ok(info1)
    } else {
        Err(HostSaid { info1, info2 })
    }
}
