ghost use Rattle.ghcb_msr.specs.Msr.{FitsBits};

use super::*;
use std::process::Abort;
use svsm_types::{Page, Vmpl};

// What is sent, a right answer, and an answer that is just not right.
fn tries(rt: &impl Abort, request: MsrRequest, sent: u64, right: u64, reply: MsrReply, wrong: u64)
    requires { FitsBits request }
{
    assert_eq!(rt; put(&request), sent);
    assert_eq!(rt; read(&request, right), Ok(reply));
    let got = wrong;
    assert_eq!(rt; read(&request, wrong), Err(Wrong { sent, got }));
}

#[test]
fn values_are_those_of_the_protocol(rt: HostRuntime) {
    let info = MsrReply::Info {
        greatest: 2,
        least: 1,
        cbit: 0x33,
    };
    let page = Page(5);
    let operation = 2;
    let change = MsrRequest::Change { page, operation };
    tries(
        &rt,
        MsrRequest::Info,
        0x2,
        0x0002_0001_33ab_c001,
        info,
        0x0002_0001_33ab_c002,
    );
    tries(
        &rt,
        MsrRequest::Features,
        0x80,
        0x23081,
        MsrReply::Features(0x23),
        0x23080,
    );
    tries(
        &rt,
        MsrRequest::Register(page),
        0x5012,
        0x5013,
        MsrReply::Registered,
        0xffff_ffff_ffff_f013,
    );
    tries(
        &rt,
        change,
        0x0020_0000_0000_5014,
        0x5015,
        MsrReply::Changed,
        0x1_0000_0015,
    );
    tries(
        &rt,
        MsrRequest::Run(Vmpl(2)),
        0x2_0000_0016,
        0xffff_f017,
        MsrReply::Ran,
        0x1_0000_0017,
    );
}

#[test]
fn no_answer_to_terminate_is_right(rt: HostRuntime) {
    let set = 0;
    for (reason, sent) in [(0, 0x100), (1, 0x10100), (2, 0x20100)] {
        let request = MsrRequest::Terminate { set, reason };
        assert_eq!(rt; put(&request), sent);
        assert_eq!(rt; read(&request, 0x100), Err(Wrong { sent, got: 0x100 }));
    }
}
