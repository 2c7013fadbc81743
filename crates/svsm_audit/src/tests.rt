//! The report of a run of the small image, and others.
use super::*;
use image_reader::read_image;
use script_reader::read_script;
use std::test::Fail;
use svsm_types::Sequence;

const IMAGE: &str = concat!(
    "svsm-image 1\nregions 0x2\nvmpl 0x2\nfeatures 0x1\nghcb 0x5\n",
    "range 0x0 0x5 module valid 0x0\nrange 0x5 0x1 module assigned 0x0\n",
    "range 0x6 0xa module valid 0x0\nrange 0x10 0x1 vmsa valid 0x0\n",
    "range 0x11 0x1ef guest valid 0xf0\nrange 0x200 0x200 guest assigned 0x0\n",
    "core 0x0 vmsa 0x10000 caa 0x20000\ncore 0x1 parked\n"
);

// The core that starts calls for the protocols once.
const SCRIPT: [u8; 48] = [
    2, 0, 0, 0, 0, 0, 0, 0, 6, 0, 0, 0, 0, 0, 0, 0, 1, 0, 0, 0, 0, 0, 0, 0, 0, 0, 0, 0, 0, 0, 0, 0,
    0, 0, 0, 0, 0, 0, 0, 0, 0, 0, 0, 0, 0, 0, 0, 0,
];

// A report with so many entries, this word taken, this last entry, and this size of the first pages.
macro_rules! first_report {
    ($count:literal, $word:literal, $last:literal, $size:literal) => {
        concat!(
            "svsm-run 1\ncore 0x0 request 0x0 reply 0x0 0x200000001 0x0 0x0 0x0\n",
            "core 0x0 done\ncore 0x1 unstarted\nhistory ",
            $count,
            "\nstep 0x0 0x0 0x3 enter 0x0 -> seen 0x10 0x20000\n",
            "step 0x1 0x0 0x0 pend 0x2 0x20000 -> done\n",
            "step 0x2 0x0 0x0 take 0x2 0x20000 -> word ",
            $word,
            $last,
            "\nrmp 0x0 0x5 module recorded valid 0x0 plain ",
            $size,
            "\nrmp 0x5 0x1 module unrecorded shared 0x0 plain small\n",
            "rmp 0x6 0xa module recorded valid 0x0 plain small\n",
            "rmp 0x10 0x1 vmsa recorded valid 0x0 vmsa small\n",
            "rmp 0x11 0x1ef guest recorded valid 0xf0 plain small\n",
            "rmp 0x200 0x200 guest unrecorded assigned 0x0 plain small\nend\n"
        )
    };
}

#[test]
fn the_report_of_a_run_is_told_from_others(rt: HostRuntime) -> Result<(), Fail> {
    let alloc = rt.alloc();
    let Ok(image) = read_image(alloc, IMAGE.as_bytes()) else {
        panic!(&rt; "the text is an image")
    };
    let Ok(script) = read_script(alloc, &SCRIPT) else {
        panic!(&rt; "the bytes are a script")
    };
    let scripts = [Sequence::from_vec(script)];
    let rows = [
        (
            first_report!(
                "0x4",
                "0x1",
                "\nstep 0x3 0x0 0x3 leave 0x0 -> done",
                "small"
            ),
            Ok(()),
        ),
        ("", Err(AuditError::Report { line: 0 })),
        (
            first_report!("0x4", "0x1", "\nstep 0x3 0x0 0x3 leave 0x0 -> do", "small"),
            Err(AuditError::Report { line: 9 }),
        ),
        (
            first_report!(
                "0x4",
                "0x0",
                "\nstep 0x3 0x0 0x3 leave 0x0 -> done",
                "small"
            ),
            Err(AuditError::Play { ticket: 2 }),
        ),
        (
            first_report!("0x3", "0x1", "", "small"),
            Err(AuditError::Order { ticket: 3 }),
        ),
        (
            first_report!(
                "0x4",
                "0x1",
                "\nstep 0x3 0x0 0x3 leave 0x0 -> done",
                "large"
            ),
            Err(AuditError::Text { at: 0x146 }),
        ),
    ];
    for (report, told) in rows {
        let audited = audit(alloc, &image, &scripts, report.as_bytes());
        assert_eq!(rt; audited, told);
    }
    Ok(())
}
