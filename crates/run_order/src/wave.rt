//! One wave.
ghost use Rattle.std.specs.Prelude.{◌≡◌, ◌≢◌, ◌≤◌, ◌<◌, ◌↔◌, [], All, IsTrue, IfOk, IfNone, IfSome, length, map, max, min};
ghost use Rattle.std.specs.List.{Any};
ghost use Rattle.svsm_steps.specs.Requests.{AreScripts};
ghost use Rattle.svsm_calls.specs.Run.{caller_of, script_of};
ghost use Rattle.svsm_calls.specs.Waves.{apic_of, vmpl_of};
ghost use Rattle.svsm_types.specs.declared.address.Gpa.{Gpa};
ghost use Rattle.svsm_steps.specs.Sound.{IsSound};
ghost use Rattle.run_trees.specs.Begun.{GivesAnswers};
ghost use Rattle.run_order.specs.WaveReads.{AreOnce, WaveReads};
ghost use Rattle.run_order.specs.Finds.{AreInMap};
ghost use Rattle.run_order.specs.Wave.{IsRead, end_of, IsEndOfAll, break_of, IsFirstBreak, IsOwn, EachIsOwn, IsForeign, IsEnterOf, AreEntered, EnteringEnds, HasEnd, HasStopped, IsRunOfOne, CoresRead};

use crate::core_read::{CoreRead, read_core};
use crate::reader::{CoreEntries, Stop, same_step};
use std::alloc::Global;
use svsm_steps::{Answer, Caller, CoreRun, Entry, Step};
use svsm_types::{Gpa, Image, NoMemory, Request, Sequence, Vmpl};

/// How far the entries of a wave go.
#[derive(Drop)]
pub enum WaveRead {
    /// It is over behind so many entries, and its cores gave this.
    Over { count: usize, runs: Vec<CoreRun> },
    /// The entry with this index, from the wave's begin, may not stand there.
    Breaks(usize),
    /// The entries end before the wave does.
    UnderWay,
}

/// How a core of a wave was read.
#[derive(Drop)]
struct Member {
    caller: Caller,
    /// The index behind its last entry that was read.
    behind: usize,
    read: CoreRead,
}

fn script_of(scripts: &[Sequence<Request>], core: u32) -> &[Request]
    ensures { result.now ≡ script_of scripts.now core }
{
    match scripts.get(core as usize) {
        Some(script) => script.as_slice(),
        None => &[],
    }
}

fn apic_of(image: &Image, core: u32) -> u32
    requires { core < length image.now.cores }
    ensures { result ≡ apic_of image.now core }
{
    image.cores.as_slice()[core as usize].apic
}

fn vmpl_of(image: &Image, core: u32) -> Vmpl
    ensures { result ≡ vmpl_of image.now core }
{
    match image.cores.as_slice().get(core as usize) {
        Some(line) => line.vmpl,
        None => image.vmpl,
    }
}

fn caller_of(image: &Image, core: u32, caa: Gpa) -> Caller
    requires { core < length image.now.cores }
    ensures { result ≡ caller_of image.now core caa }
{
    Caller {
        core,
        apic: apic_of(image, core),
        vmpl: vmpl_of(image, core),
        caa,
        regions: image.regions,
        features: image.features,
    }
}

// The calling area that a core sees as it enters by this entry.
fn entered(image: &Image, core: u32, entry: &Entry) -> Option<Gpa>
    requires { core < length image.now.cores }
    ensures some { IfSome result (IsEnterOf image.now core entry.now) }
    ensures none { IfNone result ((caa : Gpa) → IsEnterOf image.now core entry.now caa → ⊥) }
{
    let step = Step::Enter {
        apic: apic_of(image, core),
    };
    if entry.core != core || !same_step(&entry.step, &step) {
        return None;
    }
    match entry.answer {
        Answer::Seen { caa, .. } => Some(caa),
        _ => None,
    }
}

// The cores of a wave enter: what those are that do.
fn enter_all(
    alloc: Global,
    image: &Image,
    cores: &[u32],
    entries: &[Entry],
) -> Result<Vec<Caller>, NoMemory>
    requires { All (λ core. core < length image.now.cores) cores.now }
    ensures entered { IfOk result (λ callers. AreEntered image.now cores.now entries.now callers.items) }
    ensures ends { IfOk result (λ callers. EnteringEnds image.now cores.now entries.now (length callers.items)) }
{
    let mut callers = Vec::new(alloc);
    for core in cores {
        let at = callers.len();
        if at >= entries.len() {
            return Ok(callers);
        }
        match entered(image, *core, &entries[at]) {
            Some(caa) => callers.push(caller_of(image, *core, caa))?,
            None => return Ok(callers),
        }
    }
    Ok(callers)
}

// Reads a core that has entered, in the entries behind the Enters.
fn read_member(
    alloc: Global,
    image: &Image,
    scripts: &[Sequence<Request>],
    caller: Caller,
    entries: &[Entry],
) -> Result<Member, NoMemory>
    requires scripts { AreScripts scripts.now }
    requires regions { caller.regions ≤ 512 }
    requires in_map { AreInMap entries.now }
    ensures read { IfOk result (IsRead image.now scripts.now entries.now) }
    ensures caller { IfOk result (λ member. member.caller ≡ caller) }
{
    let core = caller.core;
    let source = CoreEntries { core, entries };
    let mut behind = 0;
    let script = script_of(scripts, core);
    let lines = image.host.as_slice();
    let read = read_core(alloc, &source, &mut behind, lines, caller, script)?;
    Ok(Member {
        caller,
        behind,
        read,
    })
}

// Reads each core that has entered.
fn read_all(
    alloc: Global,
    image: &Image,
    scripts: &[Sequence<Request>],
    callers: &[Caller],
    entries: &[Entry],
) -> Result<Vec<Member>, NoMemory>
    requires scripts { AreScripts scripts.now }
    requires regions { All (λ caller. caller.regions ≤ 512) callers.now }
    requires in_map { AreInMap entries.now }
    ensures read { IfOk result (λ members. All (IsRead image.now scripts.now entries.now) members.items) }
    ensures callers { IfOk result (λ members. map (λ member. member.caller) members.items ≡ callers.now) }
{
    let mut members = Vec::new(alloc);
    for caller in callers {
        members.push(read_member(alloc, image, scripts, *caller, entries)?)?;
    }
    Ok(members)
}

fn larger(a: usize, b: usize) -> usize
    ensures { result ≡ max a b }
{
    if a < b { b } else { a }
}

fn lesser(a: usize, b: usize) -> usize
    ensures { result ≡ min a b }
{
    if a < b { a } else { b }
}

// The index behind the last entry that a core makes in the wave; where it does not end, it is that of all entries.
fn end_of(member: &Member, entries: usize) -> usize
    ensures { result ≡ end_of member.now entries }
{
    match member.read {
        CoreRead::Ended { .. } => member.behind,
        CoreRead::Stopped(_) => entries,
    }
}

// The index behind the wave, where it ends.
fn end_of_all(members: &[Member], entries: usize) -> usize
    ensures { IsEndOfAll members.now entries result }
{
    let mut end = 0;
    for member in members {
        end = larger(end, end_of(member, entries));
    }
    end
}

// Whether a core does not end in the wave.
fn some_stopped(members: &[Member]) -> bool
    ensures { IsTrue result ↔ Any HasStopped members.now }
{
    members.iter().any(has_stopped)
}

fn has_stopped(member: &Member) -> bool
    ensures { IsTrue result ↔ HasStopped member.now }
{
    match member.read {
        CoreRead::Ended { .. } => false,
        CoreRead::Stopped(_) => true,
    }
}

// The index of the entry that is another step than a core asks for; without one that of all entries.
fn break_of(member: &Member, entries: usize) -> usize
    ensures { result ≡ break_of member.now entries }
{
    match member.read {
        CoreRead::Stopped(Stop::Breaks(at)) => at,
        _ => entries,
    }
}

// The least of these indices.
fn first_break(members: &[Member], entries: usize) -> usize
    ensures { IsFirstBreak members.now entries result }
{
    let mut first = entries;
    for member in members {
        first = lesser(first, break_of(member, entries));
    }
    first
}

// Whether an entry is one of a core of the wave, before its end.
fn is_own(members: &[Member], entries: usize, entry: &Entry, at: usize) -> bool
    ensures { IsTrue result ↔ IsOwn members.now entries entry.now at }
{
    members
        .iter()
        .any(|member| is_of(member, entries, entry.core, at))
}

fn is_of(member: &Member, entries: usize, core: u32, at: usize) -> bool
    ensures { IsTrue result ↔ (member.now.caller.core ≡ core) × (at < end_of member.now entries) }
{
    member.caller.core == core && at < end_of(member, entries)
}

// The index of the first entry before this one that is of no core of the wave, or behind its core's end.
fn first_foreign(members: &[Member], entries: &[Entry], end: usize) -> Option<usize>
    requires { end ≤ length entries.now }
    ensures none { IfNone result (EachIsOwn members.now entries.now end) }
    ensures some { IfSome result (IsForeign members.now entries.now end) }
{
    let mut at = 0;
    'seek: while at < end {
        if !is_own(members, entries.len(), &entries[at], at) {
            return Some(at);
        }
        at += 1;
    }
    None
}

// What the cores gave, where each was read to its end.
fn runs_of(alloc: Global, members: Vec<Member>) -> Result<Vec<CoreRun>, NoMemory>
    requires { All HasEnd members.items }
    ensures cores { IfOk result (λ runs. map (λ run. run.core) runs.items ≡ map (λ member. member.caller.core) members.items) }
    ensures runs { IfOk result (λ runs. All (IsRunOfOne members.items) runs.items) }
{
    let mut runs = Vec::new(alloc);
    'members: for member in members {
        let Member { caller, read, .. } = member;
        let core = caller.core;
        if let CoreRead::Ended { outcomes, end } = read {
            runs.push(CoreRun {
                core,
                outcomes,
                end,
            })?;
        }
    }
    Ok(runs)
}

// Reads a wave behind its Enters.
fn read_cores(
    alloc: Global,
    image: &Image,
    scripts: &[Sequence<Request>],
    callers: &[Caller],
    entries: &[Entry],
) -> Result<WaveRead, NoMemory>
    requires scripts { AreScripts scripts.now }
    requires regions { All (λ caller. caller.regions ≤ 512) callers.now }
    requires in_map { AreInMap entries.now }
    requires once { AreOnce (map (λ caller. caller.core) callers.now) }
    ensures { IfOk result (CoresRead image.now scripts.now callers.now entries.now) }
{
    let members = read_all(alloc, image, scripts, callers, entries)?;
    let end = end_of_all(&members, entries.len());
    let limit = lesser(end, first_break(&members, entries.len()));
    if let Some(at) = first_foreign(&members, entries, limit) {
        return Ok(WaveRead::Breaks(at));
    }
    if !some_stopped(&members) {
        let runs = runs_of(alloc, members)?;
        return Ok(WaveRead::Over { count: end, runs });
    }
    if limit < entries.len() {
        return Ok(WaveRead::Breaks(limit));
    }
    Ok(WaveRead::UnderWay)
}

/// Reads a wave of these cores, from its first entry on.
pub fn read_wave(
    alloc: Global,
    image: &Image,
    scripts: &[Sequence<Request>],
    cores: &[u32],
    entries: &[Entry],
) -> Result<WaveRead, NoMemory>
    requires sound { IsSound image.now }
    requires scripts { AreScripts scripts.now }
    requires in_map { AreInMap entries.now }
    requires answers { GivesAnswers entries.now }
    requires some { cores.now ≢ [] }
    requires low { All (λ core. core < length image.now.cores) cores.now }
    requires once { AreOnce cores.now }
    ensures { IfOk result (WaveReads image.now scripts.now cores.now entries.now) }
{
    let callers = enter_all(alloc, image, cores, entries)?;
    let first = callers.len();
    if first < cores.len() {
        if first < entries.len() {
            return Ok(WaveRead::Breaks(first));
        }
        return Ok(WaveRead::UnderWay);
    }
    let behind = &entries[first..];
    match read_cores(alloc, image, scripts, &callers, behind)? {
        WaveRead::Over { count, runs } => {
            let count = first + count;
            Ok(WaveRead::Over { count, runs })
        }
        WaveRead::Breaks(at) => Ok(WaveRead::Breaks(first + at)),
        WaveRead::UnderWay => Ok(WaveRead::UnderWay),
    }
}
