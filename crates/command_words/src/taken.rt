//! The words, taken apart.
ghost use Rattle.std.specs.Prelude.{◌≡◌, IfOk, OnErr, IsSome, Some, map, option_map, string_bytes};
ghost use Rattle.clap.specs.Words.{app_of, with_subcommand, HasMatchesOf};
ghost use Rattle.command_words.specs.App.{run_shape, plain_shape, words_app};
ghost use Rattle.command_words.specs.Words.{run_in, gen_in, save_in, audit_in, IsPlain, IsOfForm, plain_words};
ghost use Rattle.command_words.specs.Seen.{run_seen, run_asked, gen_asked, save_seen, save_asked, audit_seen, audit_asked};

use crate::admitted::{is_audit, is_gen, is_run, is_save};
use crate::asked::{AuditWords, Command, GenWords, RunWords, SaveWords};
use crate::decimal::numbers_of;
use clap::error::ErrorKind;
use clap::{Arg, ArgAction, ArgMatches, Command as App};
use std::alloc::{AllocError, Global};
use svsm_types::NoMemory;

// With the command of a run.
fn with_run<'a>(alloc: Global, top: App<'a>) -> Result<App<'a>, AllocError>
    ensures { IfOk result (λ c. app_of c ≡ with_subcommand (app_of top.entry) run_shape) }
{
    let brief = Arg::new(alloc, "brief")
        .long("brief")
        .action(ArgAction::SetTrue);
    let image = Arg::new(alloc, "image")
        .required(true)
        .action(ArgAction::Set);
    let scripts = Arg::new(alloc, "scripts")
        .required(true)
        .action(ArgAction::Append);
    let run = App::new(alloc, "run").arg(brief)?.arg(image)?.arg(scripts)?;
    top.subcommand(run)
}

// With a command without flags.
fn with_plain<'a>(alloc: Global, top: App<'a>, name: &'a str) -> Result<App<'a>, AllocError>
    ensures { IfOk result (λ c. app_of c ≡ with_subcommand (app_of top.entry) (plain_shape name.entry.now)) }
{
    let words = Arg::new(alloc, "words")
        .required(true)
        .action(ArgAction::Append);
    let plain = App::new(alloc, name).arg(words)?;
    top.subcommand(plain)
}

// All commands.
fn command<'a>(alloc: Global) -> Result<App<'a>, AllocError>
    ensures { IfOk result (λ c. app_of c ≡ words_app) }
{
    let top = App::new(alloc, "svsm_run").no_binary_name(true);
    let run = with_run(alloc, top)?;
    let generated = with_plain(alloc, run, "gen")?;
    let saved = with_plain(alloc, generated, "save")?;
    with_plain(alloc, saved, "audit")
}

// The words, parsed. Words that are admitted are refused only for want of memory.
fn parsed<'a>(alloc: Global, words: &'a [String]) -> Result<ArgMatches<'a>, NoMemory>
    requires { IsOfForm (map string_bytes words.now) }
    ensures { IfOk result (λ m. HasMatchesOf words_app (map string_bytes words.entry.now) m) }
{
    match command(alloc)?.try_get_matches_from(words) {
        Ok(matches) => Ok(matches),
        Err(error) => match error.kind() {
            ErrorKind::OutOfMemory => Err(NoMemory),
            _ => unreachable!(),
        },
    }
}

// The run that these words ask for.
fn run_of<'a>(alloc: Global, words: &'a [String]) -> Result<RunWords<'a>, NoMemory>
    requires { IsSome (run_in (map string_bytes words.now)) }
    ensures { IfOk result (λ r. run_in (map string_bytes words.entry.now) ≡ Some (run_seen r)) }
{
    let matches = parsed(alloc, words)?;
    let Some((_, found)) = matches.subcommand() else {
        unreachable!()
    };
    let Some(image) = found.get_str("image") else {
        unreachable!()
    };
    let Some(names) = found.get_raw("scripts") else {
        unreachable!()
    };
    let mut scripts = Vec::new(alloc);
    scripts.extend_from_slice(names)?;
    Ok(RunWords {
        brief: found.get_flag("brief"),
        image,
        scripts,
    })
}

// The words of a command without flags, but for its name.
fn plain_words<'a>(alloc: Global, words: &'a [String]) -> Result<Vec<&'a str>, NoMemory>
    requires { IsPlain (map string_bytes words.now) }
    ensures { IfOk result (λ plain. map (λ word. word.now) plain.items ≡ plain_words (map string_bytes words.entry.now)) }
{
    let matches = parsed(alloc, words)?;
    let Some((_, found)) = matches.subcommand() else {
        unreachable!()
    };
    let Some(given) = found.get_raw("words") else {
        unreachable!()
    };
    let mut plain = Vec::new(alloc);
    plain.extend_from_slice(given)?;
    Ok(plain)
}

// The generated scripts that these words ask for.
fn gen_of(alloc: Global, words: &[String]) -> Result<GenWords, NoMemory>
    requires { IsSome (gen_in (map string_bytes words.now)) }
    ensures { IfOk result (λ asked. gen_in (map string_bytes words.now) ≡ Some asked) }
{
    let plain = plain_words(alloc, words)?;
    let Some(asked) = numbers_of(&plain) else {
        unreachable!()
    };
    Ok(asked)
}

// The run to be saved that these words ask for.
fn save_of<'a>(alloc: Global, words: &'a [String]) -> Result<SaveWords<'a>, NoMemory>
    requires { IsSome (save_in (map string_bytes words.now)) }
    ensures { IfOk result (λ save. save_in (map string_bytes words.entry.now) ≡ Some (save_seen save)) }
{
    let plain = plain_words(alloc, words)?;
    let Some((image, names)) = plain.split_first() else {
        unreachable!()
    };
    let mut scripts = Vec::new(alloc);
    scripts.extend_from_slice(names)?;
    Ok(SaveWords {
        image: *image,
        scripts,
    })
}

// The audit that these words ask for.
fn audit_of<'a>(alloc: Global, words: &'a [String]) -> Result<AuditWords<'a>, NoMemory>
    requires { IsSome (audit_in (map string_bytes words.now)) }
    ensures { IfOk result (λ audit. audit_in (map string_bytes words.entry.now) ≡ Some (audit_seen audit)) }
{
    let plain = plain_words(alloc, words)?;
    let Some((image, others)) = plain.split_first() else {
        unreachable!()
    };
    let Some((report, names)) = others.split_first() else {
        unreachable!()
    };
    let mut scripts = Vec::new(alloc);
    scripts.extend_from_slice(names)?;
    Ok(AuditWords {
        image: *image,
        report: *report,
        scripts,
    })
}

/// The command that the words ask for, where they are of a form. Only words that are can want memory.
pub fn command_of<'a>(alloc: Global, words: &'a [String]) -> Result<Option<Command<'a>>, NoMemory>
    ensures run { IfOk result (λ command. run_asked command ≡ run_in (map string_bytes words.entry.now)) }
    ensures generated { IfOk result (λ command. gen_asked command ≡ gen_in (map string_bytes words.entry.now)) }
    ensures save { IfOk result (λ command. save_asked command ≡ save_in (map string_bytes words.entry.now)) }
    ensures audit { IfOk result (λ command. audit_asked command ≡ audit_in (map string_bytes words.entry.now)) }
    ensures memory { OnErr result (IsOfForm (map string_bytes words.entry.now)) }
{
    if is_run(words) {
        return Ok(Some(Command::Run(run_of(alloc, words)?)));
    }
    if is_gen(words) {
        return Ok(Some(Command::Gen(gen_of(alloc, words)?)));
    }
    if is_save(words) {
        return Ok(Some(Command::Save(save_of(alloc, words)?)));
    }
    if is_audit(words) {
        return Ok(Some(Command::Audit(audit_of(alloc, words)?)));
    }
    Ok(None)
}
