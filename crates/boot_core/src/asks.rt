//! The requests of a boot in the GHCB MSR.
ghost use Rattle.std.specs.Prelude.{◌≡◌, ◌^◌, ◌<◌, ◌≤◌, List, [], ◌∷◌, All};
ghost use Rattle.ghcb_msr.specs.Msr.{FitsBits};
ghost use Rattle.psc_batch.specs.Host.{HostEvent, Leads};
ghost use Rattle.boot_core.specs.Asks.{is_met, is_right, Terminates, Asks, first_asks, last_asks};

use crate::BootError;
use ghcb_msr::{MsrReply, MsrRequest, put, read};
use psc_batch::Host;
use svsm_types::Page;

/// A request, and the reason that Terminate gives where its answer is refused.
#[derive(Clone, Copy)]
pub(crate) struct Ask {
    pub(crate) request: MsrRequest,
    pub(crate) reason: u8,
    /// The image announces its vCPUs.
    pub(crate) announce: bool,
}

/// Tells the host that the module ends, with a reason of set 0.
pub(crate) fn terminate<H: Host>(host: &mut H, reason: u8)
    ensures { (events : List HostEvent) × Leads H.answers H.returns host.old events host.new × Terminates reason events }
{
    let sent = put(&MsrRequest::Terminate { set: 0, reason });
    host.msr(sent);
}

// Whether it is a reply that the module boots with.
fn is_met(announce: bool, reply: MsrReply) -> bool
    ensures { result ≡ is_met announce reply }
{
    match reply {
        MsrReply::Info {
            greatest,
            least,
            ..
        } => least <= 2 && 2 <= greatest,
        MsrReply::Features(features) => {
            features % 2 == 1 && features / 32 % 2 == 1 && (!announce || features / 2 % 2 == 1)
        }
        MsrReply::Registered | MsrReply::Changed | MsrReply::Ran => true,
    }
}

// Whether an answer is right, and one that the module boots with.
fn is_right(ask: &Ask, got: u64) -> bool
    requires { FitsBits ask.now.request }
    ensures { result ≡ is_right ask.now got }
{
    match read(&ask.request, got) {
        Ok(reply) => is_met(ask.announce, reply),
        Err(_) => false,
    }
}

// Sends one request; where its answer is not right, Terminate follows.
fn send<H: Host>(host: &mut H, ask: &Ask) -> Result<(), BootError>
    requires { FitsBits ask.now.request }
    ensures { (events : List HostEvent) × Leads H.answers H.returns host.old events host.new × Asks (ask.now ∷ []) events result }
{
    let sent = put(&ask.request);
    let got = host.msr(sent);
    if !is_right(ask, got) {
        terminate(host, ask.reason);
        return Err(BootError::Msr { sent, got });
    }
    Ok(())
}

// Sends the requests in order, up to the first whose answer is not right.
fn send_all<H: Host>(host: &mut H, asks: &[Ask]) -> Result<(), BootError>
    requires { All (λ ask. FitsBits ask.request) asks.now }
    ensures { (events : List HostEvent) × Leads H.answers H.returns host.old events host.new × Asks asks.now events result }
{
    'all: for ask in asks {
        if let Err(error) = send(host, ask) {
            return Err(error);
        }
    }
    Ok(())
}

/// Sends the requests up to the change of the GHCB page.
pub(crate) fn ask_first<H: Host>(host: &mut H, announce: bool, ghcb: Page) -> Result<(), BootError>
    requires { ghcb.0 < 2 ^ 40 }
    ensures { (events : List HostEvent) × Leads H.answers H.returns host.old events host.new × Asks (first_asks announce ghcb.0) events result }
{
    let asks = [
        Ask {
            request: MsrRequest::Info,
            reason: 1,
            announce,
        },
        Ask {
            request: MsrRequest::Features,
            reason: 2,
            announce,
        },
        Ask {
            request: MsrRequest::Change {
                page: ghcb,
                operation: 2,
            },
            reason: 0,
            announce,
        },
    ];
    send_all(host, &asks)
}

/// Sends the last request: the registration of the GHCB page.
pub(crate) fn ask_last<H: Host>(host: &mut H, announce: bool, ghcb: Page) -> Result<(), BootError>
    requires { ghcb.0 < 2 ^ 40 }
    ensures { (events : List HostEvent) × Leads H.answers H.returns host.old events host.new × Asks (last_asks announce ghcb.0) events result }
{
    let asks = [Ask {
        request: MsrRequest::Register(ghcb),
        reason: 0,
        announce,
    }];
    send_all(host, &asks)
}
