use super::*;
use std::alloc::Global;
use std::test::Fail;

// The words of a line, with one space between two.
fn words(alloc: Global, line: &str) -> Result<Vec<String>, Fail> {
    let mut all = Vec::new(alloc);
    for word in line.split(' ') {
        all.push(String::from_str(alloc, word)?)?;
    }
    Ok(all)
}

#[test]
fn a_run_has_an_image_scripts_and_a_flag(rt: HostRuntime) -> Result<(), Fail> {
    let alloc = rt.alloc();
    let given = words(alloc, "run image --brief a b")?;
    let Some(Command::Run(run)) = command_of(alloc, &given)? else {
        panic!(&rt; "the words ask for a run")
    };
    assert!(rt; run.brief);
    assert_eq!(rt; run.image, "image");
    assert_eq!(rt; run.scripts.as_slice(), ["a", "b"].as_slice());
    Ok(())
}

#[test]
fn two_dashes_end_the_flags(rt: HostRuntime) -> Result<(), Fail> {
    let alloc = rt.alloc();
    let given = words(alloc, "run -- --brief -- run")?;
    let Some(Command::Run(run)) = command_of(alloc, &given)? else {
        panic!(&rt; "the words ask for a run")
    };
    assert!(rt; !run.brief);
    assert_eq!(rt; run.image, "--brief");
    assert_eq!(rt; run.scripts.as_slice(), ["--", "run"].as_slice());
    Ok(())
}

#[test]
fn an_empty_word_is_a_name(rt: HostRuntime) -> Result<(), Fail> {
    let alloc = rt.alloc();
    let given = words(alloc, "run  a")?;
    let Some(Command::Run(run)) = command_of(alloc, &given)? else {
        panic!(&rt; "the words ask for a run")
    };
    assert_eq!(rt; run.image, "");
    Ok(())
}

// These words, and so many names behind them.
fn with_names(alloc: Global, line: &str, count: usize) -> Result<Vec<String>, Fail> {
    let mut all = words(alloc, line)?;
    for _ in 0..count {
        all.push(String::from_str(alloc, "script")?)?;
    }
    Ok(all)
}

#[test]
fn sixty_four_scripts_are_taken(rt: HostRuntime) -> Result<(), Fail> {
    let alloc = rt.alloc();
    let given = with_names(alloc, "run image", 64)?;
    let Some(Command::Run(run)) = command_of(alloc, &given)? else {
        panic!(&rt; "the words ask for a run")
    };
    assert_eq!(rt; run.scripts.len(), 64);
    Ok(())
}

#[test]
fn sixty_five_scripts_are_refused(rt: HostRuntime) -> Result<(), Fail> {
    let alloc = rt.alloc();
    for line in ["run image", "save image", "audit image report"] {
        let given = with_names(alloc, line, 65)?;
        assert!(rt; command_of(alloc, &given)?.is_none());
    }
    Ok(())
}

#[test]
fn a_save_has_an_image_and_scripts(rt: HostRuntime) -> Result<(), Fail> {
    let alloc = rt.alloc();
    let given = words(alloc, "save image  a")?;
    let Some(Command::Save(save)) = command_of(alloc, &given)? else {
        panic!(&rt; "the words ask for a save")
    };
    assert_eq!(rt; save.image, "image");
    assert_eq!(rt; save.scripts.as_slice(), ["", "a"].as_slice());
    Ok(())
}

#[test]
fn an_audit_has_an_image_a_report_and_scripts(rt: HostRuntime) -> Result<(), Fail> {
    let alloc = rt.alloc();
    let given = words(alloc, "audit image  a b")?;
    let Some(Command::Audit(audit)) = command_of(alloc, &given)? else {
        panic!(&rt; "the words ask for an audit")
    };
    assert_eq!(rt; audit.image, "image");
    assert_eq!(rt; audit.report, "");
    assert_eq!(rt; audit.scripts.as_slice(), ["a", "b"].as_slice());
    Ok(())
}

#[test]
fn other_words_are_refused(rt: HostRuntime) -> Result<(), Fail> {
    let alloc = rt.alloc();
    let lines = [
        "",
        "run",
        "run image",
        "help",
        "-h",
        "--help",
        "run -h a b",
        "run --help a b",
        "run - a b",
        "run a b --brief --brief",
        "run a b --brief=1",
        "-- run a b",
        "--brief run a b",
        "Run a b",
        "save image",
        "save image a --brief",
        "audit image report",
        "audit image report a --brief",
    ];
    for line in lines {
        let given = words(alloc, line)?;
        assert!(rt; command_of(alloc, &given)?.is_none());
    }
    assert!(rt; command_of(alloc, &[])?.is_none());
    Ok(())
}

// The numbers of generated scripts, where the words of the line ask for them.
fn numbers(alloc: Global, line: &str) -> Result<Option<GenWords>, Fail> {
    let given = words(alloc, line)?;
    match command_of(alloc, &given)? {
        Some(Command::Gen(numbers)) => Ok(Some(numbers)),
        _ => Ok(None),
    }
}

fn of(cores: u32, requests: u64, number: u64) -> Option<GenWords> {
    Some(GenWords {
        cores,
        requests,
        number,
    })
}

#[test]
fn generated_scripts_have_three_numbers(rt: HostRuntime) -> Result<(), Fail> {
    let alloc = rt.alloc();
    assert_eq!(rt; numbers(alloc, "gen 4 64 7")?, of(4, 64, 7));
    assert_eq!(rt; numbers(alloc, "gen 1 1 0")?, of(1, 1, 0));
    assert_eq!(rt;
        numbers(alloc, "gen 16 128 18446744073709551615")?,
        of(16, 128, u64::MAX)
    );
    assert_eq!(rt;
        numbers(alloc, "gen 0016 00000000000000000000000000128 00")?,
        of(16, 128, 0)
    );
    assert_eq!(rt; numbers(alloc, "gen 4 -- 64 7")?, of(4, 64, 7));
    Ok(())
}

#[test]
fn other_words_of_gen_are_refused(rt: HostRuntime) -> Result<(), Fail> {
    let alloc = rt.alloc();
    let lines = [
        "gen",
        "gen 1 1",
        "gen 1 1 1 1",
        "gen 0 1 1",
        "gen 17 1 1",
        "gen 1 0 1",
        "gen 1 129 1",
        "gen 1 1 18446744073709551616",
        "gen 1 1 ",
        "gen 1 1 +1",
        "gen 1 1 0x1",
        "gen 1 1 a",
        "gen --brief 1 1 1",
        "gen - 1 1",
        "gen -1 1 1",
        "gen 1 1 -- --",
        "gen 1 1 1 -- --",
        "gen -- 1 -- 1",
        "-- gen 1 1 1",
        "Gen 1 1 1",
        "generate 1 1 1",
    ];
    for line in lines {
        let given = words(alloc, line)?;
        assert!(rt; command_of(alloc, &given)?.is_none());
    }
    Ok(())
}
