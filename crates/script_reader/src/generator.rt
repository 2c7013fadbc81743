//! The image and the scripts that are generated from three numbers.
ghost use Rattle.std.specs.Prelude.{◌≡◌, ◌≤◌, ◌<◌, ◌+◌, ◌++◌, [], ◌∷◌, IfOk, OnOk, map, flat_map};
ghost use Rattle.std.specs.List.{range_with_len};
ghost use Rattle.svsm_steps.specs.Requests.{AreScripts};
ghost use Rattle.svsm_steps.specs.Sound.{IsSound};
ghost use Rattle.script_reader.specs.Generated.{pages_from, first_page, module_ranges, generated_vmsa_page, vmsa_range, guest_ranges, generated_core, generated_image, next_value, value_after, list_at, guest_writes, generated_entry, request_by, generated_script, generated_scripts};

use std::alloc::Global;
use svsm_types::{
    CoreLine, Gpa, HwState, Image, NoMemory, Owner, Page, Range, Regs, Request, Sequence, Vmpl,
};

const MULTIPLIER: u64 = 6364136223846793005;

const INCREMENT: u64 = 1442695040888963407;

fn pages_from(first: u64, count: u64, owner: Owner, state: HwState, rights: u16) -> Range
    ensures { result ≡ pages_from first count owner state rights }
{
    Range {
        first: Page(first),
        count,
        owner,
        state,
        rights,
    }
}

fn first_page(core: u32) -> u64
    ensures { result ≡ first_page core }
{
    512 * (u64::from(core) + 1)
}

fn vmsa_page(core: u32) -> u64
    ensures { result ≡ generated_vmsa_page core }
{
    0x10 + u64::from(core)
}

fn push_module(ranges: &mut Sequence<Range>) -> Result<(), NoMemory>
    ensures { OnOk result (ranges.new ≡ ranges.old ++ module_ranges) }
{
    ranges.push(pages_from(0x0, 0x5, Owner::Module, HwState::Valid, 0x0))?;
    ranges.push(pages_from(0x5, 0x1, Owner::Module, HwState::Assigned, 0x0))?;
    ranges.push(pages_from(0x6, 0xa, Owner::Module, HwState::Valid, 0x0))
}

fn push_vmsas(ranges: &mut Sequence<Range>, cores: u32) -> Result<(), NoMemory>
    ensures { OnOk result (ranges.new ≡ ranges.old ++ map vmsa_range (range_with_len 0 cores)) }
{
    for core in 0..cores {
        ranges.push(pages_from(vmsa_page(core), 0x1, Owner::Vmsa, HwState::Valid, 0x0))?;
    }
    Ok(())
}

fn push_guest(ranges: &mut Sequence<Range>, core: u32) -> Result<(), NoMemory>
    ensures { OnOk result (ranges.new ≡ ranges.old ++ guest_ranges core) }
{
    let first = first_page(core);
    ranges.push(pages_from(first, 16, Owner::Guest, HwState::Valid, 0xf0))?;
    ranges.push(pages_from(first + 16, 496, Owner::Guest, HwState::Assigned, 0x0))
}

fn push_guests(ranges: &mut Sequence<Range>, cores: u32) -> Result<(), NoMemory>
    ensures { OnOk result (ranges.new ≡ ranges.old ++ flat_map guest_ranges (range_with_len 0 cores)) }
{
    for core in 0..cores {
        push_guest(ranges, core)?;
    }
    Ok(())
}

fn ranges_of(alloc: Global, cores: u32) -> Result<Sequence<Range>, NoMemory>
    ensures { IfOk result (λ ranges. ranges ≡ module_ranges ++ map vmsa_range (range_with_len 0 cores) ++ flat_map guest_ranges (range_with_len 0 cores)) }
{
    let mut ranges = Sequence::new(alloc);
    push_module(&mut ranges)?;
    push_vmsas(&mut ranges, cores)?;
    push_guests(&mut ranges, cores)?;
    Ok(ranges)
}

fn generated_core(core: u32) -> CoreLine
    ensures { result ≡ generated_core core }
{
    CoreLine {
        apic: core,
        seat: Some((Page(vmsa_page(core)), Gpa(4096 * first_page(core)))),
        vmpl: Vmpl(2),
    }
}

fn cores_of(alloc: Global, cores: u32) -> Result<Sequence<CoreLine>, NoMemory>
    ensures { IfOk result (λ lines. lines ≡ map generated_core (range_with_len 0 cores)) }
{
    let mut lines = Sequence::new(alloc);
    for core in 0..cores {
        lines.push(generated_core(core))?;
    }
    Ok(lines)
}

fn image_of(alloc: Global, cores: u32) -> Result<Image, NoMemory>
    ensures { IfOk result (λ image. image ≡ generated_image cores) }
{
    Ok(Image {
        regions: u64::from(cores) + 1,
        vmpl: Vmpl(2),
        second: None,
        features: 1,
        ghcb: Page(0x5),
        ranges: ranges_of(alloc, cores)?,
        large: Sequence::new(alloc),
        accepts: Sequence::new(alloc),
        cores: cores_of(alloc, cores)?,
        fills: Sequence::new(alloc),
        faults: Sequence::new(alloc),
        host: Sequence::new(alloc),
        split: false,
        blocks: Sequence::new(alloc),
        announce: false,
    })
}

fn next_value(x: u64) -> u64
    ensures { result ≡ next_value x }
{
    x.wrapping_mul(MULTIPLIER).wrapping_add(INCREMENT)
}

fn list_at(core: u32) -> u64
    ensures { result ≡ list_at core }
{
    4096 * (first_page(core) + 1)
}

fn generated_entry(core: u32, x: u64) -> u64
    ensures { result ≡ generated_entry core x }
{
    let page = first_page(core) + (16 + (x >> 33) % 496);
    4096 * page + 4 * ((x >> 20) % 2) + 8
}

fn guest_writes(address: u64, word: u64) -> Request
    ensures { result ≡ guest_writes address word }
{
    Request::Write {
        vmpl: Vmpl(2),
        gpa: Gpa(address),
        word,
    }
}

fn request_by(core: u32, x: u64, number: u64) -> Request
    ensures { result ≡ request_by core x number }
{
    let list = list_at(core);
    match number % 3 {
        0 => guest_writes(list, 1),
        1 => guest_writes(list + 8, generated_entry(core, x)),
        _ => Request::Call {
            regs: Regs {
                rax: 1,
                rcx: list,
                rdx: 0,
                r8: 0,
                r9: 0,
            },
            poll: 0,
        },
    }
}

fn generated_script(
    alloc: Global,
    core: u32,
    requests: u64,
    number: u64,
) -> Result<Sequence<Request>, NoMemory>
    ensures { IfOk result (λ script. script ≡ generated_script core requests number) }
{
    let mut script = Sequence::new(alloc);
    let mut x = number.wrapping_add(u64::from(core));
    for next in 0..requests {
        if next % 3 == 1 {
            x = next_value(x);
        }
        script.push(request_by(core, x, next))?;
    }
    Ok(script)
}

fn generated_scripts(
    alloc: Global,
    cores: u32,
    requests: u64,
    number: u64,
) -> Result<Vec<Sequence<Request>>, NoMemory>
    ensures { IfOk result (λ scripts. scripts.items ≡ generated_scripts cores requests number) }
{
    let mut scripts = Vec::new(alloc);
    for core in 0..cores {
        scripts.push(generated_script(alloc, core, requests, number)?)?;
    }
    Ok(scripts)
}

/// An image with so many cores, and for each core a script of so many requests, by a congruence that begins with the number.
pub fn generate(
    alloc: Global,
    cores: u32,
    requests: u64,
    number: u64,
) -> Result<(Image, Vec<Sequence<Request>>), NoMemory>
    requires some_cores { 1 ≤ cores }
    requires few_cores { cores ≤ 16 }
    requires some_requests { 1 ≤ requests }
    requires few_requests { requests ≤ 128 }
    ensures image { IfOk result (λ generated. generated.0 ≡ generated_image cores) }
    ensures scripts { IfOk result (λ generated. generated.1.items ≡ generated_scripts cores requests number) }
    ensures sound { IfOk result (λ generated. IsSound generated.0) }
    ensures formed { IfOk result (λ generated. AreScripts generated.1.items) }
{
    let image = image_of(alloc, cores)?;
    let scripts = generated_scripts(alloc, cores, requests, number)?;
    Ok((image, scripts))
}
