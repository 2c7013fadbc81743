//! A pool that splits: 2M blocks go into deposit and come back in 4K.
ghost use Rattle.std.specs.Prelude.{◌<◌};

use super::agree::agree;
use super::texts::{LIST, Record, SPLIT, call, list_call, write};
use run_core_top::OpenGate;
use std::alloc::Global;
use std::test::Fail;

const CORES: u64 = 16;

const RUNS: u64 = 4;

// Pages 0x20 on are the calling areas, pages 0x30 on the lists, and each core has a region held as one 2M entry.
const HEAD: &str =
    "svsm-image 1\nregions 0x11\nvmpl 0x2\nfeatures 0x1\nghcb 0x5\nrange 0x0 0x5 module valid 0x0\nrange 0x5 0x1 module assigned 0x0\nrange 0x6 0xa module valid 0x0\nrange 0x10 0x10 vmsa valid 0x0\nrange 0x20 0x1e0 guest valid 0xf0\nrange 0x200 0x2000 guest valid 0xf0\npool split\n";

fn image_of(alloc: Global) -> Result<String, Fail> {
    let mut image = String::from_str(alloc, HEAD)?;
    for core in 0..CORES {
        let page = core * 0x1000;
        let vmsa = 0x1_0000 + page;
        let area = 0x2_0000 + page;
        let region = core + 1;
        let line = format!(in alloc;
            "core {core:#x} vmsa {vmsa:#x} caa {area:#x}\nlarge {region:#x}\n"
        )?;
        image.push_str(&line)?;
    }
    Ok(image)
}

// The core deposits its region, and withdraws a page.
fn script_of(core: u64) -> [Record; 6]
    requires { core < 16 }
{
    let list = 0x3_0000 + core * 0x1000;
    let region = (core + 1) * 0x20_0000;
    [
        write(list, 0x1),
        write(list + 8, region + 1),
        call(4, list),
        write(list, 0x1),
        write(list + 8, 0x0),
        call(5, list),
    ]
}

// Each page that was put in is in the pool or was given back, whoever took it.
#[test]
fn sixteen_cores_split_what_they_put_in(rt: HostRuntime) -> Result<(), Fail> {
    let alloc = rt.alloc();
    let image = image_of(alloc)?;
    let mut scripts = Vec::new(alloc);
    for core in 0..CORES {
        scripts.push(script_of(core))?;
    }
    let mut all = Vec::new(alloc);
    for script in scripts.iter() {
        all.push(script.as_slice())?;
    }
    for _ in 0..RUNS {
        let told = agree(&rt, alloc, &image, &all, &OpenGate)?;
        assert_eq!(rt; told.text()?.matches(" reply 0x0 0x1 ").count(), 16);
        assert_eq!(rt; (told.status, told.pooled), (0, 0x2000 - 16));
    }
    Ok(())
}

// A list of 511 withdrawals is stopped after three hundred, and goes on.
#[test]
fn a_block_is_withdrawn_page_by_page(rt: HostRuntime) -> Result<(), Fail> {
    let script = [
        write(LIST, 0x1),
        write(LIST + 8, 0x20_0001),
        list_call(4),
        write(LIST, 0x1ff),
        write(LIST + 8, 0x0),
        [2 + (300 << 32), 5, LIST, 0, 0, 0],
        list_call(5),
    ];
    let told = agree(&rt, rt.alloc(), SPLIT, &[&script], &OpenGate)?;
    let text = told.text()?;
    assert!(rt; text.contains("request 0x5 reply 0x80000000 0x12c "));
    assert!(rt; text.contains("request 0x6 reply 0x0 0xd3 "));
    assert!(rt; text.contains("rmp 0x3ff 0x1 pool recorded valid 0x0 plain small\n"));
    Ok(())
}
