use super::*;
use std::alloc::Global;
use std::test::Fail;
use svsm_steps::{Answer, Entry, Step};
use svsm_types::{Gpa, Vmpl};

fn read(alloc: Global, report: &str) -> Result<Vec<Entry>, HistoryError> {
    read_history(alloc, 2, report.as_bytes())
}

#[test]
fn the_entries_of_a_history_are_read(rt: HostRuntime) -> Result<(), Fail> {
    let text =
        "svsm-run 1\nhistory 0x2\nstep 0x0 0x0 0x3 enter 0x0 -> seen 0x10 0x20000\nstep 0x1 0x1 0x0 pend 0x2 0x20000 -> done\nend\n";
    let Ok(entries) = read(rt.alloc(), text) else {
        return Err("no history".into());
    };
    assert_eq!(rt; entries.len(), 2);
    let second = Entry {
        ticket: 1,
        core: 1,
        place: 0,
        step: Step::GuestPend {
            vmpl: Vmpl(2),
            gpa: Gpa(0x2_0000),
        },
        answer: Answer::Done,
    };
    assert_eq!(rt; entries[1], second);
    Ok(())
}

#[test]
fn the_first_line_that_fails_is_told(rt: HostRuntime) -> Result<(), Fail> {
    let texts = [
        ("svsm-run 1\nend\n", 0),
        ("history\n", 0),
        ("history 0x02\n", 1),
        ("a\nhistory 0x2\nstep 0x0 0x0 0x3 enter 0x0 -> unknown\n", 4),
        (
            "a\nhistory 0x1\nstep 0x0  0x0 0x3 enter 0x0 -> unknown\n",
            3,
        ),
        (
            "a\nhistory 0x1\nstep 0x00 0x0 0x3 enter 0x0 -> unknown\n",
            3,
        ),
        ("a\nhistory 0x1\nstep 0x0 0x0 0x0 share 0x400 -> done\n", 3),
    ];
    for (text, line) in texts {
        assert!(rt; matches!(read(rt.alloc(), text), Err(HistoryError::Line(at)) if at == line));
    }
    Ok(())
}
