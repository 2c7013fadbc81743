//! The image so far, with its tables.
ghost use Rattle.std.specs.Prelude.{◌≡◌, ◌≤◌, ◌<◌, ◌*◌, ◌==◌, ◌&&◌, false, IsTrue, IfOk, OnOk};
ghost use Rattle.std.specs.List.{list_any};
ghost use Rattle.svsm_text.specs.Lines.{fields};
ghost use Rattle.svsm_steps.specs.Sound.{is_range_in_map, is_sound_span, has_lawful_rights, is_valid_where_held, is_accepted, has_vmsa};
ghost use Rattle.image_grammar.specs.Told.{TellsAfter};
ghost use Rattle.image_grammar.specs.Grammar.{is_any_page, has_range, seat_taken, core_taken, overlaps, is_lawful, with_item, item_told, line_told};
ghost use Rattle.image_reader.specs.Marked.{AreMarked};
ghost use Rattle.image_reader.specs.SoFar.{AreLevels, is_in_place};
ghost use Rattle.image_grammar.specs.Image.{image_with};
ghost use Rattle.image_reader.specs.Draft.{IsDraft};

use crate::item::item_line;
use crate::tables::{mark, mark_range};
use image_grammar::{ImageKind, Item, Levels, LineError};
use std::alloc::Global;
use svsm_text::few_fields_of;
use svsm_types::{CoreLine, HwState, Image, NoMemory, Owner, Page, Range, Sequence, Span};

const PAGES: u64 = 512;

const MOST_CORES: usize = 64;

/// The image so far. Each accepted line marks its pages once, so that later lines and the end find them at once.
#[derive(Drop)]
pub struct Draft {
    pub image: Image,
    // the range of each page of the map
    pub ranges: Vec<Option<Range>>,
    // whether each page of the map is accepted
    pub accepts: Vec<bool>,
    // whether each region is held as 2M
    pub large: Vec<bool>,
}

// An image of which the first five lines are read.
fn image_with(alloc: Global, regions: u64, levels: Levels, features: u64, ghcb: Page) -> Image
    ensures { result ≡ image_with regions levels features ghcb.0 }
{
    Image {
        regions,
        vmpl: levels.first,
        second: levels.second,
        features,
        ghcb,
        ranges: Sequence::new(alloc),
        large: Sequence::new(alloc),
        accepts: Sequence::new(alloc),
        cores: Sequence::new(alloc),
        fills: Sequence::new(alloc),
        faults: Sequence::new(alloc),
        host: Sequence::new(alloc),
        split: false,
        blocks: Sequence::new(alloc),
        announce: false,
    }
}

// Owner, state and rights of a range go together.
fn is_lawful_range(range: &Range) -> bool
    ensures { result ≡ has_lawful_rights range.now && is_valid_where_held range.now }
{
    let is_valid = range.state == HwState::Valid;
    let is_free = range.rights == 0 || (range.owner == Owner::Guest && is_valid);
    let is_held = range.owner == Owner::Pool || range.owner == Owner::Vmsa;
    range.rights <= 0xfff && is_free && (!is_held || is_valid)
}

fn is_lawful_item(item: &Item) -> bool
    ensures { result ≡ is_lawful item.now }
{
    match item {
        Item::Range(range) => is_lawful_range(range),
        _ => true,
    }
}

fn has_apic(cores: &[CoreLine], apic: u32) -> bool
    ensures { result ≡ list_any (λ (core : CoreLine). core.apic == apic) cores.now }
{
    cores.iter().any(|core| core.apic == apic)
}

fn has_vmsa(core: &CoreLine, page: Page) -> bool
    ensures { result ≡ has_vmsa page.0 core.now }
{
    match core.seat {
        None => false,
        Some((vmsa, _)) => vmsa == page,
    }
}

/// Whether the vCPU of a core has its VMSA in this page.
pub fn is_seat(cores: &[CoreLine], page: Page) -> bool
    ensures { result ≡ list_any (has_vmsa page.0) cores.now }
{
    cores.iter().any(|core| has_vmsa(core, page))
}

fn seat_taken(cores: &[CoreLine], core: &CoreLine) -> bool
    ensures { result ≡ seat_taken cores.now core.now.seat }
{
    match core.seat {
        None => false,
        Some((vmsa, _)) => is_seat(cores, vmsa),
    }
}

fn core_taken(cores: &[CoreLine], core: &CoreLine) -> bool
    ensures { result ≡ core_taken cores.now core.now }
{
    has_apic(cores, core.apic) || seat_taken(cores, core) || cores.len() >= MOST_CORES
}

impl Draft {
    /// A draft without lines behind the first five.
    pub fn new(
        alloc: Global,
        regions: u64,
        levels: Levels,
        features: u64,
        ghcb: Page,
    ) -> Result<Draft, NoMemory>
        requires regions_least { 1 ≤ regions }
        requires regions_most { regions ≤ 512 }
        requires levels { AreLevels levels }
        requires ghcb { ghcb.0 < 512 * regions }
        ensures image { IfOk result (λ draft. draft.image ≡ image_with regions levels features ghcb.0) }
        ensures whole { IfOk result IsDraft }
    {
        let pages = (PAGES * regions) as usize;
        let mut ranges = Vec::new(alloc);
        ranges.resize(pages, None)?;
        let mut accepts = Vec::new(alloc);
        accepts.resize(pages, false)?;
        let mut large = Vec::new(alloc);
        large.resize(regions as usize, false)?;
        Ok(Draft {
            image: image_with(alloc, regions, levels, features, ghcb),
            ranges,
            accepts,
            large,
        })
    }

    // Whether a page of the range stands in an earlier one.
    fn has_range(&self, range: &Range) -> bool
        requires whole { IsDraft self.now }
        requires within { IsTrue (is_range_in_map self.now.image.regions range.now) }
        ensures { result ≡ is_any_page (has_range self.now.image) range.now.first.0 range.now.count }
    {
        let first = range.first.0 as usize;
        let end = first + range.count as usize;
        self.ranges[first..end].iter().any(|page| page.is_some())
    }

    // Whether a page of the span stands in an earlier one.
    fn has_accept(&self, span: &Span) -> bool
        requires whole { IsDraft self.now }
        requires within { IsTrue (is_sound_span self.now.image.regions span.now) }
        ensures { result ≡ is_any_page (is_accepted self.now.image) span.now.first.0 span.now.count }
    {
        let first = span.first.0 as usize;
        let end = first + span.count as usize;
        self.accepts[first..end].iter().any(|page| *page)
    }

    // Whether something of the item stood before.
    fn overlaps(&self, item: &Item) -> bool
        requires whole { IsDraft self.now }
        requires within { IsTrue (is_in_place self.now.image item.now) }
        ensures { result ≡ overlaps self.now.image item.now }
    {
        match item {
            Item::Range(range) => self.has_range(range),
            Item::Accept(span) => self.has_accept(span),
            Item::Core(core) => core_taken(self.image.cores.as_slice(), core),
            _ => false,
        }
    }

    fn put_range(&mut self, range: Range) -> Result<(), NoMemory>
        requires whole { IsDraft self.old }
        requires within { IsTrue (is_range_in_map self.old.image.regions range) }
        requires free { overlaps self.old.image (Item.Range range) ≡ false }
        ensures image { OnOk result (self.new.image ≡ with_item self.old.image (Item.Range range)) }
        ensures marked { OnOk result (AreMarked self.new.image self.new.ranges.items self.new.accepts.items self.new.large.items) }
    {
        self.image.ranges.push(range)?;
        mark_range(&mut self.ranges, range);
        Ok(())
    }

    fn put_large(&mut self, region: u64) -> Result<(), NoMemory>
        requires whole { IsDraft self.old }
        requires within { region < self.old.image.regions }
        ensures image { OnOk result (self.new.image ≡ with_item self.old.image (Item.Large region)) }
        ensures marked { OnOk result (AreMarked self.new.image self.new.ranges.items self.new.accepts.items self.new.large.items) }
    {
        self.image.large.push(region)?;
        mark(&mut self.large, region, 1);
        Ok(())
    }

    fn put_accept(&mut self, span: Span) -> Result<(), NoMemory>
        requires whole { IsDraft self.old }
        requires within { IsTrue (is_sound_span self.old.image.regions span) }
        ensures image { OnOk result (self.new.image ≡ with_item self.old.image (Item.Accept span)) }
        ensures marked { OnOk result (AreMarked self.new.image self.new.ranges.items self.new.accepts.items self.new.large.items) }
    {
        self.image.accepts.push(span)?;
        mark(&mut self.accepts, span.first.0, span.count);
        Ok(())
    }

    // Adds an item that may stand here.
    fn put(&mut self, item: Item) -> Result<(), NoMemory>
        requires whole { IsDraft self.old }
        requires within { IsTrue (is_in_place self.old.image item) }
        requires free { overlaps self.old.image item ≡ false }
        ensures image { OnOk result (self.new.image ≡ with_item self.old.image item) }
        ensures marked { OnOk result (AreMarked self.new.image self.new.ranges.items self.new.accepts.items self.new.large.items) }
    {
        match item {
            Item::Range(range) => self.put_range(range),
            Item::Large(region) => self.put_large(region),
            Item::Accept(span) => self.put_accept(span),
            Item::Core(core) => self.image.cores.push(core),
            Item::Bytes(fill) => self.image.fills.push(fill),
            Item::Fault(fault) => self.image.faults.push(fault),
            Item::Host(line) => self.image.host.push(line),
            Item::Split => {
                self.image.split = true;
                Ok(())
            }
            Item::Block(block) => self.image.blocks.push(block),
            Item::Announce => {
                self.image.announce = true;
                Ok(())
            }
        }
    }

    // Adds an item, where it may stand here.
    fn add(&mut self, item: Item) -> Result<(), LineError>
        requires whole { IsDraft self.old }
        requires within { IsTrue (is_in_place self.old.image item) }
        ensures told { TellsAfter (item_told self.old.image item) self.new.image result }
        ensures whole { OnOk result (IsDraft self.new) }
    {
        if self.overlaps(&item) {
            return Err(LineError::Bad(ImageKind::Overlap));
        }
        if !is_lawful_item(&item) {
            return Err(LineError::Bad(ImageKind::State));
        }
        self.put(item)?;
        Ok(())
    }

    /// Adds what a line tells.
    pub fn add_line(&mut self, alloc: Global, line: &[u8]) -> Result<(), LineError>
        requires whole { IsDraft self.old }
        ensures told { TellsAfter (line_told self.old.image (fields line.now)) self.new.image result }
        ensures whole { OnOk result (IsDraft self.new) }
    {
        let Some(few) = few_fields_of(line) else {
            return Err(LineError::Bad(ImageKind::Line));
        };
        let fields = few.0;
        let item = item_line(alloc, &self.image, &fields[..few.1])?;
        self.add(item)
    }
}
