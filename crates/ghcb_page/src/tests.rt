use super::*;
use crate::bytes::{put_u64, u16_at, u64_at};
use std::test::Fail;

// What a page of sevens has after an exit was begun: its fields, and sevens elsewhere.
fn is_begun(bytes: &[u8], code: u64, scratch: u64, byte_7: u8) -> bool {
    if bytes.len() != 4096 {
        return false;
    }
    let valid = [0, 0, 0, 0, 0, 0, 0, byte_7, 0, 0, 0, 0, 0, 0, 0x3C, 0];
    u64_at(bytes, 0x390) == code
        && u64_at(bytes, 0x398) == 1
        && u64_at(bytes, 0x3A0) == 2
        && u64_at(bytes, 0x3A8) == scratch
        && &bytes[0x3F0..0x400] == valid.as_slice()
        && bytes[0x38F] == 7
        && bytes[0x3B0] == 7
        && bytes[0x3EF] == 7
        && bytes[0x400] == 7
        && bytes[0xFF9] == 7
        && u16_at(bytes, 0xFFA) == 2
        && bytes[0xFFC..] == [0, 0, 0, 0]
}

#[test]
fn an_exit_has_its_fields_and_no_more(rt: HostRuntime) -> Result<(), Fail> {
    let mut page = GhcbPage::new(rt.alloc())?;
    assert!(rt; page.bytes().iter().all(|byte| *byte == 0));
    page.bytes_mut().fill(7);
    page.begin_exit(0x8000_0010, 1, 2, 0x5800);
    assert!(rt; is_begun(page.bytes(), 0x8000_0010, 0x5800, 0));
    page.begin_ap(9, 1, 2);
    assert!(rt; is_begun(page.bytes(), 0x8000_0013, 0, 0x80));
    assert_eq!(rt; u64_at(page.bytes(), 0x1F8), 9);
    Ok(())
}

#[test]
fn an_exit_ends_quietly_or_with_what_the_host_said(rt: HostRuntime) -> Result<(), Fail> {
    let mut page = GhcbPage::new(rt.alloc())?;
    for (info1, info2, is_quiet) in [
        (0, 0, true),
        (0xffff_ffff_0000_0000, 0, true),
        (1, 0, false),
        (0, 0x1_0000_0000, false),
    ] {
        put_u64(page.bytes_mut(), 0x398, info1);
        put_u64(page.bytes_mut(), 0x3A0, info2);
        let said = Err(HostSaid { info1, info2 });
        assert_eq!(rt; page.end_exit(), if is_quiet { Ok(info1) } else { said });
    }
    Ok(())
}
