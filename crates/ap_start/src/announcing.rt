//! The exits, as they are made.
ghost use Rattle.std.specs.Prelude.{◌≡◌, ◌+◌, ◌<◌, ◌≤◌, ◌^◌, All, List};
ghost use Rattle.psc_batch.specs.Host.{HostEvent, Leads};
ghost use Rattle.ap_start.specs.Exits.{exit_info, exit_address, IsLow};
ghost use Rattle.ap_start.specs.Announced.{IsAnnounced};

use crate::{ApError, ApExit};
use ghcb_page::GhcbPage;
use psc_batch::Host;

fn info_of(exit: &ApExit) -> u64
    requires { IsLow exit.now }
    ensures { result ≡ exit_info exit.now }
{
    let kind = if exit.create { 1 } else { 2 };
    u64::from(exit.apic) * 0x1_0000_0000 + (u64::from(exit.vmpl.0) * 0x1_0000 + kind)
}

/// The address of the VMSA of an exit.
pub(crate) fn address_of(exit: &ApExit) -> u64
    requires { IsLow exit.now }
    ensures { result ≡ exit_address exit.now }
{
    exit.page.0 * 0x1000
}

/// Makes the exits in order, and stops at the first that the host refuses. The page is left as the host left it.
pub fn announce<H: Host>(
    page: &mut GhcbPage,
    host: &mut H,
    features: u64,
    exits: &[ApExit],
) -> Result<(), ApError>
    requires { All IsLow exits.now }

    // The exits that were made are those of the list up to the first that was refused.
    ensures made { (events : List HostEvent) × Leads H.answers H.returns host.old events host.new × IsAnnounced features exits.now page.old events result page.new }
{
    'exits: for (index, exit) in exits.iter().enumerate() {
        page.begin_ap(features, info_of(exit), address_of(exit));
        host.exit(page);
        if let Err(said) = page.end_exit() {
            return Err(ApError::Said {
                index: index as u64,
                info1: said.info1,
                info2: said.info2,
            });
        }
    }
    Ok(())
}
