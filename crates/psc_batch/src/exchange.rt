//! The exchange of a batch with the host.
ghost use Rattle.std.specs.Prelude.{◌≡◌, ◌+◌, ◌*◌, ◌≤◌, ◌<◌, List, length};
ghost use Rattle.psc_batch.specs.Host.{HostEvent, Leads};
ghost use Rattle.psc_batch.specs.Exchange.{IsExchange, ending, stalls_after};

use crate::buffer::{cur_of, prepare, refusal};
use crate::{Batch, Host, PscError};
use ghcb_page::GhcbPage;
use svsm_types::Gpa;

// So many exits in a row may bring no advance before the exchange is given up.
const PATIENCE: u8 = 64;

// How many exits in a row came back with the index that they sent.
fn stalls_after(page: &GhcbPage, cur: u16, stalls: u8) -> u8
    requires { stalls < 64 }
    ensures { result ≡ stalls_after cur stalls page.now }
{
    if cur_of(page) == cur { stalls + 1 } else { 0 }
}

// How the exchange ends with the exit that came back; None where it goes on.
fn ending(page: &GhcbPage, entries: &[u64], cur: u16, stalls: u8) -> Option<Result<(), PscError>>
    requires some { 1 ≤ length entries.now }
    requires most { length entries.now ≤ 253 }
    requires stalls { stalls < 64 }
    ensures { result ≡ ending entries.now cur stalls page.now }
{
    if let Some(error) = refusal(page, entries, cur) {
        return Some(Err(error));
    }
    if cur_of(page) as usize == entries.len() {
        return Some(Ok(()));
    }
    if stalls_after(page, cur, stalls) == PATIENCE {
        return Some(Err(PscError::Stalled { cur }));
    }
    None
}

impl Batch {
    /// Has the host carry out the entries, in as many exits as it wants, with the shared buffer of the page at this guest-physical
    /// address. The page is left as the host left it.
    pub fn exchange<H: Host>(
        &mut self,
        page: &mut GhcbPage,
        buffer: Gpa,
        host: &mut H,
    ) -> Result<(), PscError>
        ensures entries { self.new ≡ self.old }

        // The exits that were made are an exchange of these entries, and at most 64 for each.
        ensures made { (events : List HostEvent) × Leads H.answers H.returns host.old events host.new × IsExchange buffer.0 self.old page.old events result page.new × (length events ≤ 64 * length self.old) }
    {
        let entries = self.entries();
        let mut cur = 0;
        let mut stalls = 0;
        'exits: loop {
            prepare(page, entries, cur, buffer.0);
            host.exit(page);
            if let Some(result) = ending(page, entries, cur, stalls) {
                return result;
            }
            stalls = stalls_after(page, cur, stalls);
            cur = cur_of(page);
        }
    }
}
