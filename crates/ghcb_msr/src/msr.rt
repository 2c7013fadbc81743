//! What is sent, and what comes back.
ghost use Rattle.std.specs.Prelude.{◌≡◌, ◌<◌, ◌≤◌, ◌+◌, ◌^◌};
ghost use Rattle.std.specs.Option.{ok_or};
ghost use Rattle.ghcb_msr.specs.Msr.{sent as sent_of, bits as bits_of, reply_to, FitsBits};

use crate::{MsrReply, MsrRequest, Wrong};

/// The value that is sent for a request.
pub fn put(request: &MsrRequest) -> u64
    requires { FitsBits request.now }
    ensures { result ≡ sent_of request.now }
{
    match *request {
        MsrRequest::Info => 0x002,
        MsrRequest::Features => 0x080,
        MsrRequest::Register(page) => 0x012 + page.0 * 0x1000,
        MsrRequest::Change { page, operation } => {
            0x014 + (page.0 * 0x1000 + operation as u64 * 0x10_0000_0000_0000)
        }
        MsrRequest::Run(vmpl) => 0x016 + vmpl.0 as u64 * 0x1_0000_0000,
        MsrRequest::Terminate { set, reason } => {
            0x100 + (set as u64 * 0x1000 + reason as u64 * 0x1_0000)
        }
    }
}

fn reply_to(request: &MsrRequest, got: u64) -> Option<MsrReply>
    ensures { result ≡ reply_to request.now got }
{
    let info = got % 0x1000;
    let value = got / 0x1000;
    let error = got / 0x1_0000_0000;
    match *request {
        MsrRequest::Info if info == 0x001 => Some(MsrReply::Info {
            greatest: (error / 0x1_0000) as u16,
            least: (error % 0x1_0000) as u16,
            cbit: (got / 0x100_0000 % 0x100) as u8,
        }),
        MsrRequest::Features if info == 0x081 => Some(MsrReply::Features(value)),
        MsrRequest::Register(page) if info == 0x013 && value == page.0 => {
            Some(MsrReply::Registered)
        }
        MsrRequest::Change { .. } if info == 0x015 && error == 0 => Some(MsrReply::Changed),
        MsrRequest::Run(_) if info == 0x017 && error == 0 => Some(MsrReply::Ran),
        _ => None,
    }
}

/// Reads an answer to a request. It is wrong exactly where it is no right answer to it; no answer to `Terminate` is right.
pub fn read(request: &MsrRequest, got: u64) -> Result<MsrReply, Wrong>
    requires { FitsBits request.now }
    ensures { result ≡ ok_or (reply_to request.now got) (record { sent = sent_of request.now; got = got }) }
{
    match reply_to(request, got) {
        Some(reply) => Ok(reply),
        None => Err(Wrong {
            sent: put(request),
            got,
        }),
    }
}
