//! Numbers in bytes, the least byte first.
ghost use Rattle.std.specs.Prelude.{◌≡◌, ◌+◌, ◌≤◌, length};
ghost use Rattle.ghcb_page.specs.Bytes.{with_bytes, with_u16, with_u32, with_u64, u16_at, u64_at};

/// Writes bytes from the offset `at` on.
#[tactic(auto, unfolding(crate::specs::Bytes::with_bytes))]
pub fn put_bytes(bytes: &mut [u8], at: usize, new: &[u8])
    requires { at + length new.now ≤ length bytes.old }
    ensures { bytes.new ≡ with_bytes at new.now bytes.old }
{
    bytes[at..at + new.len()].copy_from_slice(new);
}

/// Writes a number into 2 bytes from the offset `at` on.
pub fn put_u16(bytes: &mut [u8], at: usize, number: u16)
    requires { at + 2 ≤ length bytes.old }
    ensures { bytes.new ≡ with_u16 at number bytes.old }
{
    put_bytes(bytes, at, &number.to_le_bytes());
}

/// Writes a number into 4 bytes from the offset `at` on.
pub fn put_u32(bytes: &mut [u8], at: usize, number: u32)
    requires { at + 4 ≤ length bytes.old }
    ensures { bytes.new ≡ with_u32 at number bytes.old }
{
    put_bytes(bytes, at, &number.to_le_bytes());
}

/// Writes a number into 8 bytes from the offset `at` on.
pub fn put_u64(bytes: &mut [u8], at: usize, number: u64)
    requires { at + 8 ≤ length bytes.old }
    ensures { bytes.new ≡ with_u64 at number bytes.old }
{
    put_bytes(bytes, at, &number.to_le_bytes());
}

/// The number in the 2 bytes from the offset `at` on.
#[tactic(auto, unfolding(crate::specs::Bytes::u16_at))]
pub fn u16_at(bytes: &[u8], at: usize) -> u16
    requires { at + 2 ≤ length bytes.now }
    ensures { result ≡ u16_at at bytes.now }
{
    let place = &bytes[at..at + 2];
    u16::from_le_bytes([place[0], place[1]])
}

/// The number in the 8 bytes from the offset `at` on.
#[tactic(auto, unfolding(crate::specs::Bytes::u64_at))]
pub fn u64_at(bytes: &[u8], at: usize) -> u64
    requires { at + 8 ≤ length bytes.now }
    ensures { result ≡ u64_at at bytes.now }
{
    let place = &bytes[at..at + 8];
    u64::from_le_bytes([
        place[0], place[1], place[2], place[3], place[4], place[5], place[6], place[7],
    ])
}
