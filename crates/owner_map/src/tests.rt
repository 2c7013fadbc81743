//! The table of one region.
use super::*;
use std::test::Fail;
use svsm_types::{Owner, Size};

#[test]
fn in_2m_all_pages_are_meant_and_in_4k_one(rt: HostRuntime) -> Result<(), Fail> {
    let mut map = OwnerMap::new(rt.alloc(), &[Owner::Guest; 512], &[false; 512])?;
    map.set_owner(511, Size::Small, Owner::Vmsa);
    assert_eq!(rt; map.owner(511), Owner::Vmsa);
    assert_eq!(rt; map.owner(510), Owner::Guest);
    assert!(rt; !map.all_are(0, Size::Large, Owner::Guest));
    assert!(rt; map.all_are(0, Size::Small, Owner::Guest));
    assert_eq!(rt;
        map.first_other(0, Size::Large, Owner::Guest),
        Some(Owner::Vmsa)
    );
    assert_eq!(rt; map.first_other(0, Size::Small, Owner::Guest), None);
    map.set_owner(0, Size::Large, Owner::Pool);
    assert!(rt; map.all_are(0, Size::Large, Owner::Pool));
    map.set_recorded(3, Size::Small, true);
    assert!(rt; map.recorded(3) && !map.recorded(4));
    assert!(rt;
        !map.all_recorded(0, Size::Large, true) && !map.all_recorded(0, Size::Large, false)
    );
    map.set_recorded(0, Size::Large, true);
    assert!(rt; map.all_recorded(0, Size::Large, true) && map.recorded(511));
    Ok(())
}
