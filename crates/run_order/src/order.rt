//! Whole histories.
ghost use Rattle.std.specs.Prelude.{◌≡◌, ◌≢◌, ◌<◌, ◌≤◌, ◌++◌, ◌∷◌, [], length, map, cond, not, ◌&&◌, All, IfOk, OnOk, None, drop, take};
ghost use Rattle.std.specs.List.{list_any, range_with_len};
ghost use Rattle.svsm_types.specs.declared.vcpu.RowState.TheVariants as RowState;
ghost use Rattle.svsm_steps.specs.Registry.{of_apic_in};
ghost use Rattle.svsm_steps.specs.Sound.{IsSound};
ghost use Rattle.svsm_steps.specs.Requests.{AreScripts};
ghost use Rattle.svsm_steps.specs.Formed.{AreWellFormed};
ghost use Rattle.svsm_steps.specs.Machine.{IsRunFrom, kind};
ghost use Rattle.svsm_steps.specs.Image.{booted, constants_of};
ghost use Rattle.svsm_calls.specs.Waves.{is_among, apic_of, ready_cores};
ghost use Rattle.run_order.specs.WaveReads.{WaveReads};
ghost use Rattle.run_order.specs.declared.wave.WaveRead.TheVariants as WaveRead;
ghost use Rattle.run_order.specs.Orders.{Orders};
ghost use Rattle.run_order.specs.Registered.{rows_by, rows_over};
ghost use Rattle.run_order.specs.Behind.{unstarted, put_all, WavesStand, cores_next, AfterWave};

use crate::exits::Told;
use crate::wave::{WaveRead, read_wave};
use ap_start::ApExit;
use std::alloc::Global;
use svsm_steps::{CoreEnd, CoreRun, Entry, Step};
use svsm_types::{Image, NoMemory, Request, Row, RowState, Sequence};
use vcpu_registry::Registry;

/// What a whole history gives.
#[derive(Drop)]
pub struct WholeOrder {
    /// What each core gave, in their order.
    pub cores: Sequence<CoreRun>,
    /// The exits by which the host learned of the vCPUs, up to the one that it refused.
    pub exits: Sequence<ApExit>,
    /// Both info values of the refused one.
    pub refused: Option<(u64, u64)>,
}

/// Whether a history is in order.
#[derive(Drop)]
pub enum Order {
    /// It is.
    Whole(WholeOrder),
    /// The entry with this index may not stand there, or so many entries are no whole run.
    Breaks(u64),
}

fn is_among(core: u32, ran: &[u32]) -> bool
    ensures { result ≡ is_among core ran.now }
{
    ran.iter().any(|other| *other == core)
}

fn is_ready_row(apic: u32, row: &Row) -> bool
    ensures { result ≡ of_apic_in RowState.Ready apic row.now }
{
    row.apic == apic && matches!(row.state, RowState::Ready)
}

fn is_ready(apic: u32, rows: &[Row]) -> bool
    ensures { result ≡ list_any (of_apic_in RowState.Ready apic) rows.now }
{
    rows.iter().any(|row| is_ready_row(apic, row))
}

// A core did not run, and its vCPU is ready.
fn is_next(image: &Image, ran: &[u32], rows: &[Row], core: u32) -> bool
    requires { core < length image.now.cores }
    ensures { result ≡ (not (is_among core ran.now)
        && list_any (of_apic_in RowState.Ready (apic_of image.now core)) rows.now) }
{
    let apic = image.cores.as_slice()[core as usize].apic;
    !is_among(core, ran) && is_ready(apic, rows)
}

fn push_if(cores: &mut Vec<u32>, next: bool, core: u32) -> Result<(), NoMemory>
    ensures { OnOk result (cores.new.items ≡ cores.old.items ++ cond next (core ∷ []) []) }
{
    if next {
        cores.push(core)?;
    }
    Ok(())
}

// The cores that did not run and whose vCPU is ready, in order.
fn next_cores(alloc: Global, image: &Image, ran: &[u32], rows: &[Row]) -> Result<Vec<u32>, NoMemory>
    requires { IsSound image.now }
    ensures { IfOk result (λ cores. cores.items ≡ ready_cores image.now ran.now rows.now) }
{
    let mut cores = Vec::new(alloc);
    for core in 0..image.cores.len() as u32 {
        push_if(&mut cores, is_next(image, ran, rows, core), core)?;
    }
    Ok(cores)
}

// Keeps the rows of the vCPUs over an entry.
fn keep_rows(registry: &mut Registry, entry: &Entry) -> Result<(), NoMemory>
    ensures cores { OnOk result (registry.new.cores ≡ registry.old.cores) }
    ensures rows { OnOk result (registry.new.rows ≡ rows_by (kind entry.now.step) registry.old.cores registry.old.rows entry.now) }
{
    match entry.step {
        Step::Reserve { .. } => {
            registry.reserve()?;
            let _ = registry.act(entry.core, &entry.step);
        }
        Step::Commit { .. }
        | Step::Cancel { .. }
        | Step::Retire { .. }
        | Step::Remap { .. }
        | Step::Enter { .. }
        | Step::Leave { .. } => {
            let _ = registry.act(entry.core, &entry.step);
        }
        _ => {}
    }
    Ok(())
}

fn keep_all(registry: &mut Registry, entries: &[Entry]) -> Result<(), NoMemory>
    ensures cores { OnOk result (registry.new.cores ≡ registry.old.cores) }
    ensures rows { OnOk result (registry.new.rows ≡ rows_over registry.old.cores registry.old.rows entries.now) }
{
    for entry in entries {
        keep_rows(registry, entry)?;
    }
    Ok(())
}

// Before the first wave no core has started.
fn unstarted(alloc: Global, image: &Image) -> Result<Vec<CoreRun>, NoMemory>
    requires { IsSound image.now }
    ensures { IfOk result (λ runs. runs.items ≡ map unstarted (range_with_len 0 (length image.now.cores))) }
{
    let mut runs = Vec::new(alloc);
    for core in 0..image.cores.len() as u32 {
        let outcomes = Sequence::new(alloc);
        let end = CoreEnd::Unstarted;
        runs.push(CoreRun {
            core,
            outcomes,
            end,
        })?;
    }
    Ok(runs)
}

// Puts what each core gave at its number.
fn put_runs(cores: &mut Vec<CoreRun>, runs: Vec<CoreRun>)
    requires { All (λ run. run.core < length cores.old.items) runs.items }
    ensures { cores.new.items ≡ put_all cores.old.items runs.items }
{
    'runs: for run in runs {
        let core = run.core as usize;
        cores[core] = run;
    }
}

/// The waves of a history so far.
#[derive(Drop)]
struct Waves {
    registry: Registry,
    /// The cores that ran.
    ran: Vec<u32>,
    /// What each core gave.
    cores: Vec<CoreRun>,
    told: Told,
    /// The index behind the last wave.
    behind: usize,
}

impl Waves {
    fn new(alloc: Global, image: &Image) -> Result<Waves, NoMemory>
        requires { IsSound image.now }
        ensures { IfOk result (λ waves. (scripts : _) (entries : _) → WavesStand image.now scripts entries waves) }
    {
        Ok(Waves {
            registry: Registry::new(alloc, image.cores.as_slice())?,
            ran: Vec::new(alloc),
            cores: unstarted(alloc, image)?,
            told: Told {
                exits: Vec::new(alloc),
                refused: None,
            },
            behind: 0,
        })
    }

    // The cores that enter next: none where the host refused an exit.
    fn next(&self, alloc: Global, image: &Image) -> Result<Vec<u32>, NoMemory>
        requires { IsSound image.now }
        ensures { IfOk result (λ cores. cores.items ≡ cores_next image.now self.now) }
    {
        if self.told.refused.is_some() {
            return Ok(Vec::new(alloc));
        }
        next_cores(alloc, image, &self.ran, self.registry.rows())
    }

    // A wave of these cores is over, behind so many entries more.
    fn add(
        &mut self,
        alloc: Global,
        image: &Image,
        scripts: &[Sequence<Request>],
        cores: &[u32],
        entries: &[Entry],
        count: usize,
        runs: Vec<CoreRun>,
    ) -> Result<(), NoMemory>
        requires sound { IsSound image.now }
        requires formed { AreWellFormed image.now.regions entries.now }
        requires legal { IsRunFrom (constants_of image.now) 0 (booted image.now) entries.now }
        requires stands { WavesStand image.now scripts.now entries.now self.old }
        requires next { cores.now ≡ cores_next image.now self.old }
        requires some { cores.now ≢ [] }
        requires over { WaveReads image.now scripts.now cores.now (drop self.old.behind entries.now) (WaveRead.Over count runs) }
        ensures { OnOk result (AfterWave image.now scripts.now entries.now cores.now self.old self.new None) }
    {
        let before = Vec::from_slice(alloc, self.registry.rows())?;
        let behind = self.behind + count;
        keep_all(&mut self.registry, &entries[self.behind..behind])?;
        self.told.tell(alloc, image, &before, self.registry.rows())?;
        put_runs(&mut self.cores, runs);
        self.ran.extend_from_slice(cores)?;
        self.behind = behind;
        Ok(())
    }

    // Reads a wave of these cores: the index at which the order breaks.
    fn read(
        &mut self,
        alloc: Global,
        image: &Image,
        scripts: &[Sequence<Request>],
        cores: &[u32],
        entries: &[Entry],
    ) -> Result<Option<u64>, NoMemory>
        requires sound { IsSound image.now }
        requires scripts { AreScripts scripts.now }
        requires formed { AreWellFormed image.now.regions entries.now }
        requires legal { IsRunFrom (constants_of image.now) 0 (booted image.now) entries.now }
        requires stands { WavesStand image.now scripts.now entries.now self.old }
        requires next { cores.now ≡ cores_next image.now self.old }
        requires some { cores.now ≢ [] }
        ensures { IfOk result (AfterWave image.now scripts.now entries.now cores.now self.old self.new) }
    {
        let from = self.behind;
        match read_wave(alloc, image, scripts, cores, &entries[from..])? {
            WaveRead::Over { count, runs } => {
                self.add(alloc, image, scripts, cores, entries, count, runs)?;
                Ok(None)
            }
            WaveRead::Breaks(at) => Ok(Some((from + at) as u64)),
            WaveRead::UnderWay => Ok(Some(entries.len() as u64)),
        }
    }

    // No wave follows.
    fn end(self, image: &Image, scripts: &[Sequence<Request>], entries: &[Entry]) -> Order
        requires formed { AreWellFormed image.now.regions entries.now }
        requires legal { IsRunFrom (constants_of image.now) 0 (booted image.now) entries.now }
        requires sound { IsSound image.now }
        requires stands { WavesStand image.now scripts.now entries.now self }
        requires none { cores_next image.now self ≡ [] }
        ensures { Orders image.now scripts.now entries.now result }
    {
        let Waves {
            cores,
            told,
            behind,
            ..
        } = self;
        if behind < entries.len() {
            return Order::Breaks(behind as u64);
        }
        let Told { exits, refused } = told;
        Order::Whole(WholeOrder {
            cores: Sequence::from_vec(cores),
            exits: Sequence::from_vec(exits),
            refused,
        })
    }
}

/// Whether a history of the machine of an image is in order: its entries are waves, and those of each core its run of its script.
pub fn order_of(
    alloc: Global,
    image: &Image,
    scripts: &[Sequence<Request>],
    entries: &[Entry],
) -> Result<Order, NoMemory>
    requires sound { IsSound image.now }
    requires scripts { AreScripts scripts.now }
    requires formed { AreWellFormed image.now.regions entries.now }
    requires legal { IsRunFrom (constants_of image.now) 0 (booted image.now) entries.now }
    ensures { IfOk result (Orders image.now scripts.now entries.now) }
{
    let mut waves = Waves::new(alloc, image)?;
    'waves: loop {
        let cores = waves.next(alloc, image)?;
        if cores.is_empty() {
            return Ok(waves.end(image, scripts, entries));
        }
        if let Some(at) = waves.read(alloc, image, scripts, &cores, entries)? {
            return Ok(Order::Breaks(at));
        }
    }
}
