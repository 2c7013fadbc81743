use super::*;
use std::alloc::Global;
use std::test::Fail;

fn printed(alloc: Global, value: u64) -> Result<Vec<u8>, Fail> {
    let mut out = Vec::new(alloc);
    put_hex(&mut out, value)?;
    Ok(out)
}

#[test]
fn numbers_are_read_in_either_case(rt: HostRuntime) -> Result<(), Fail> {
    assert_eq!(rt; read_hex(b"0x0"), Some(0));
    assert_eq!(rt; read_hex(b"0x00aBcD"), Some(0xabcd));
    assert_eq!(rt; read_hex(b"0xffffffffffffffff"), Some(u64::MAX));
    Ok(())
}

#[test]
fn other_bytes_are_no_number(rt: HostRuntime) -> Result<(), Fail> {
    assert_eq!(rt; read_hex(b""), None);
    assert_eq!(rt; read_hex(b"0x"), None);
    assert_eq!(rt; read_hex(b"0X1"), None);
    assert_eq!(rt; read_hex(b"1"), None);
    assert_eq!(rt; read_hex(b"0x1g"), None);
    assert_eq!(rt; read_hex(b"0x00000000000000001"), None);
    Ok(())
}

#[test]
fn numbers_are_printed_without_leading_zeros(rt: HostRuntime) -> Result<(), Fail> {
    let alloc = rt.alloc();
    let zero = printed(alloc, 0)?;
    let word = printed(alloc, 0x0AB0)?;
    assert_eq!(rt; zero.as_slice(), b"0x0".as_slice());
    assert_eq!(rt; word.as_slice(), b"0xab0".as_slice());
    Ok(())
}

#[test]
fn numbers_are_printed_as_format_prints_them(rt: HostRuntime) -> Result<(), Fail> {
    let alloc = rt.alloc();
    let values = [
        0,
        1,
        0xf,
        0x10,
        0xff,
        0xfff,
        0xffff,
        0xf_ffff,
        0xff_ffff,
        0xfff_ffff,
        0xffff_ffff,
        0x1_0000_0000,
        0xf_ffff_ffff,
        0xff_ffff_ffff,
        0xfff_ffff_ffff,
        0xffff_ffff_ffff,
        0xf_ffff_ffff_ffff,
        0xff_ffff_ffff_ffff,
        0xfff_ffff_ffff_ffff,
        0x0123_4567_89ab_cdef,
        0xfedc_ba98_7654_3210,
        u64::MAX,
    ];
    for value in values {
        let put = printed(alloc, value)?;
        let formatted = format!(in alloc; "0x{value:x}")?;
        assert_eq!(rt; put.as_slice(), formatted.as_str().as_bytes());
    }
    Ok(())
}

#[test]
fn the_last_line_may_lack_its_newline(rt: HostRuntime) -> Result<(), Fail> {
    assert_eq!(rt; next_line(b"ab\n\nc", 0), Some((2, 3)));
    assert_eq!(rt; next_line(b"ab\n\nc", 3), Some((3, 4)));
    assert_eq!(rt; next_line(b"ab\n\nc", 4), Some((5, 5)));
    assert_eq!(rt; next_line(b"ab\n\nc", 5), None);
    Ok(())
}

#[test]
fn a_space_at_an_end_makes_an_empty_field(rt: HostRuntime) -> Result<(), Fail> {
    let alloc = rt.alloc();
    let fields = fields_of(alloc, b" large  0x1 ")?;
    assert_eq!(rt; fields.len(), 4);
    assert_eq!(rt; fields[0], b"".as_slice());
    assert_eq!(rt; fields[1], b"large".as_slice());
    assert_eq!(rt; fields[2], b"0x1".as_slice());
    assert_eq!(rt; fields[3], b"".as_slice());
    Ok(())
}
