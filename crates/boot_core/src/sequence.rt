//! The boot.
ghost use Rattle.std.specs.Prelude.{◌≡◌, ◌⊎◌, ◌*◌, ◌<◌, ◌≤◌, ◌^◌, List, All, OnOk, length};
ghost use Rattle.svsm_types.specs.Pages.{region_of};
ghost use Rattle.svsm_steps.specs.Image.{image_state, booted, booted_numbers};
ghost use Rattle.svsm_steps.specs.Sound.{IsSound};
ghost use Rattle.region_core.specs.Accepts.{Shares};
ghost use Rattle.region_core.specs.Stands.{seen, Each, IsPlaced, Stands, Tells, fresh_numbers};
ghost use Rattle.psc_batch.specs.Host.{HostEvent, Leads};
ghost use Rattle.boot_core.specs.Entries.{decoded_entry};
ghost use Rattle.boot_core.specs.Regions.{ChangesOne, CountsBy, TellsStill};
ghost use Rattle.boot_core.specs.Goes.{GoesBoot};
ghost use Rattle.boot_core.specs.Boots.{SaidBy, SaidAsDue, BootEnds, BootEndsInOneWay};
ghost use Rattle.boot_core.specs.Worked.{WorkedBoots};

use crate::asks::{ask_first, ask_last};
use crate::batches::run_batches;
use crate::{BootError, HostSim};
use ghcb_page::GhcbPage;
use platform_trait::Scene;
use psc_batch::{Batch, Host};
use region_core::Region;
use std::alloc::Global;
use svsm_types::{Gpa, Image, Page, Vmpl};

// The host shares a page in its region.
fn share<R: Scene>(regions: &mut [Region<R>], page: Page)
    requires within { region_of page.0 < length regions.old }
    requires placed { Each (λ r. seen (R.known r.scene) r.owners) regions.old IsPlaced }
    ensures changes { ChangesOne (λ r. seen (R.known r.scene) r.owners) (region_of page.0) (Shares page.0) regions.old regions.new }
    ensures placed { Each (λ r. seen (R.known r.scene) r.owners) regions.new IsPlaced }
{
    let at = (page.0 / 512) as usize;
    regions[at].host_share(page);
}

// The boot with a GHCB page and batches that were made.
fn run<H: Host, R: Scene>(
    host: &mut H,
    regions: &mut [Region<R>],
    announce: bool,
    ghcb: Page,
    vmpl: Vmpl,
    page: &mut GhcbPage,
    batches: &mut [Batch],
) -> Result<(), BootError>
    requires within { All (λ batch. All (λ word. region_of (decoded_entry word).0 < length regions.old) batch) batches.old }
    requires ghcb { region_of ghcb.0 < length regions.old }
    requires low { ghcb.0 < 2 ^ 40 }
    requires placed { Each (λ r. seen (R.known r.scene) r.owners) regions.old IsPlaced }
    ensures { (events : List HostEvent) × Leads H.answers H.returns host.old events host.new
        × GoesBoot (λ r. seen (R.known r.scene) r.owners) announce ghcb.0 vmpl.0 batches.old page.old events result regions.old regions.new }
{
    if let Err(error) = ask_first(host, announce, ghcb) {
        return Err(error);
    }
    share(regions, ghcb);
    if let Err(error) = ask_last(host, announce, ghcb) {
        return Err(error);
    }
    let buffer = Gpa(ghcb.0 * 0x1000 + 0x800);
    run_batches(host, page, buffer, regions, vmpl, batches)
}

/// Boots an image against any host, over any platforms: sends the requests, shares the GHCB page, and has the image's accept spans
/// exchanged and accepted. The regions stand as the image has them before the boot; after an error they are given up.
pub fn boot<H: Host, R: Scene>(
    alloc: Global,
    host: &mut H,
    regions: &mut [Region<R>],
    image: &Image,
) -> Result<(), BootError>
    requires sound { IsSound image.now }
    requires count { length regions.old ≡ image.now.regions }
    requires stand { Each (λ r. seen (R.known r.scene) r.owners) regions.old (Stands (image_state image.now) (fresh_numbers image.now)) }

    // What was said is the boot sequence up to the first refusal or fault, and it ends so.
    ensures said { (events : List HostEvent) × Leads H.answers H.returns host.old events host.new × SaidBy image.now events result }
    ensures counts { CountsBy (λ r. seen (R.known r.scene) r.owners) regions.old regions.new result }

    // Where all platforms tell the numbers of their operations, faults come just where they are due.
    ensures due { Each (λ r. seen (R.known r.scene) r.owners) regions.old Tells
        → (events : List HostEvent) × Leads H.answers H.returns host.old events host.new × SaidAsDue image.now events result }

    ensures booted { OnOk result (
        Each (λ r. seen (R.known r.scene) r.owners) regions.new (Stands (booted image.now) (booted_numbers image.now))) }
    ensures tells { OnOk result (TellsStill (λ r. seen (R.known r.scene) r.owners) regions.old regions.new) }
{
    let mut page = GhcbPage::new(alloc)?;
    let mut batches = Batch::of_spans(alloc, image.accepts.as_slice())?;
    run(
        host,
        regions,
        image.announce,
        image.ghcb,
        image.vmpl,
        &mut page,
        &mut batches,
    )
}

/// Boots an image against the host of its host lines, over platforms that tell the numbers of their operations.
pub fn boot_image<R: Scene>(
    alloc: Global,
    regions: &mut [Region<R>],
    image: &Image,
) -> Result<(), BootError>
    requires sound { IsSound image.now }
    requires count { length regions.old ≡ image.now.regions }
    requires stand { Each (λ r. seen (R.known r.scene) r.owners) regions.old (Stands (image_state image.now) (fresh_numbers image.now)) }
    requires tells { Each (λ r. seen (R.known r.scene) r.owners) regions.old Tells }

    // It ends as the image alone says.
    ensures ends { (result ≡ Err BootError.NoMemory) ⊎ BootEnds image.now result }
    ensures counts { CountsBy (λ r. seen (R.known r.scene) r.owners) regions.old regions.new result }
    ensures booted { OnOk result (
        Each (λ r. seen (R.known r.scene) r.owners) regions.new (Stands (booted image.now) (booted_numbers image.now))) }
    ensures tells { OnOk result (TellsStill (λ r. seen (R.known r.scene) r.owners) regions.old regions.new) }
{
    let mut host = HostSim::new(alloc, image)?;
    boot(alloc, &mut host, regions, image)
}

/// The boot of an image against the host of its host lines ends in one way.
pub fn boot_ends_in_one_way()
    ensures { BootEndsInOneWay }
{}

/// Worked boots of an image that accepts a page: two that end well, one of them where the host stores past the end of its batch, and
/// three that the host refuses, by computation.
pub fn worked_boots()
    ensures { WorkedBoots }
{}
