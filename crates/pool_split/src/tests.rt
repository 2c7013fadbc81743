//! A few pops by hand, and pseudo-random pushes and pops against a plain list.
ghost use Rattle.std.specs.Prelude.{◌≡◌, ◌%◌};
ghost use Rattle.svsm_types.specs.declared.platform.Size.TheVariants.{Large};

mod draw;
mod listed;

use crate::SplitPool;
use draw::Draw;
use listed::Listed;
use std::test::Fail;
use svsm_types::{Page, Size};

fn pushed(pool: &mut SplitPool, page: u64, size: Size) -> Result<u64, Fail>
    requires { size ≡ Large → page % 512 ≡ 0 }
{
    pool.reserve()?;
    Ok(pool.push(Page(page), size))
}

#[test]
fn splits_the_last_large_block(rt: HostRuntime) -> Result<(), Fail> {
    let mut pool = SplitPool::new(rt.alloc());
    assert_eq!(rt; pool.pop(Size::Small), None);
    assert_eq!(rt; pushed(&mut pool, 0x200, Size::Large)?, 1);
    assert_eq!(rt; pushed(&mut pool, 0x10, Size::Small)?, 2);
    assert_eq!(rt; pushed(&mut pool, 0x400, Size::Large)?, 3);
    assert_eq!(rt; pool.pop(Size::Small), Some(Page(0x10)));
    assert_eq!(rt; pool.pop(Size::Small), Some(Page(0x400)));
    assert_eq!(rt; pool.left(), 512);
    assert_eq!(rt; pushed(&mut pool, 0x11, Size::Small)?, 513);
    assert_eq!(rt; pool.pop(Size::Small), Some(Page(0x11)));
    assert_eq!(rt; pool.pop(Size::Small), Some(Page(0x401)));
    assert_eq!(rt; pool.pop(Size::Large), Some(Page(0x200)));
    assert_eq!(rt; pool.pop(Size::Large), None);
    assert_eq!(rt; pool.left(), 510);
    Ok(())
}

#[test]
fn lists_what_is_left_of_a_split_block(rt: HostRuntime) -> Result<(), Fail> {
    let mut pool = SplitPool::new(rt.alloc());
    let _ = pushed(&mut pool, 0x200, Size::Large)?;
    let _ = pool.pop(Size::Small);
    let _ = pushed(&mut pool, 0x400, Size::Large)?;
    let _ = pushed(&mut pool, 0x10, Size::Small)?;
    let blocks = pool.blocks(rt.alloc())?;
    assert_eq!(rt; blocks.len(), 513);
    assert_eq!(rt; blocks[0], (Page(0x3ff), Size::Small));
    assert_eq!(rt; blocks[510], (Page(0x201), Size::Small));
    assert_eq!(rt; blocks[511], (Page(0x400), Size::Large));
    assert_eq!(rt; blocks[512], (Page(0x10), Size::Small));
    Ok(())
}

#[test]
fn agrees_with_a_plain_list_over_pseudo_random_moves(rt: HostRuntime) -> Result<(), Fail> {
    let mut draw = Draw { seed: 58019 };
    let mut pool = SplitPool::new(rt.alloc());
    let mut listed = Listed::new(rt.alloc());
    for count in 0..300_u64 {
        let page = draw.below(4096);
        match draw.below(8) {
            0 => {
                listed.push(512 * page, Size::Large)?;
                let _ = pushed(&mut pool, 512 * page, Size::Large)?;
            }
            1 => {
                listed.push(page, Size::Small)?;
                let _ = pushed(&mut pool, page, Size::Small)?;
            }
            2 => assert_eq!(rt;
                pool.pop(Size::Large),
                listed.pop(Size::Large)?,
                "move {count}"
            ),
            _ => assert_eq!(rt;
                pool.pop(Size::Small),
                listed.pop(Size::Small)?,
                "move {count}"
            ),
        }
        assert_eq!(rt; pool.left(), listed.left(), "after move {count}");
    }
    Ok(())
}
