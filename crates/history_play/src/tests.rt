use super::*;
use std::test::Fail;

#[test]
fn the_first_byte_that_differs_is_found(rt: HostRuntime) -> Result<(), Fail> {
    let texts = [
        ("end\n", "end\n", None),
        ("end\n", "and\n", Some(0)),
        ("end\n", "end", Some(3)),
        ("", "end\n", Some(0)),
    ];
    for (one, other, at) in texts {
        assert_eq!(rt; first_difference(one.as_bytes(), other.as_bytes()), at);
    }
    Ok(())
}
