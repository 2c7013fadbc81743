//! The page that is shared with the host.
ghost use Rattle.std.specs.Prelude.{◌≡◌, IfOk, length, replicate};
ghost use Rattle.std.specs.Borrow.{sem};
ghost use Rattle.ghcb_page.specs.Fields.{begun_exit, begun_ap, ended_exit};
ghost use Rattle.ghcb_page.specs.Lending.{LendsBytes};

use crate::exit::{begin, begin_creation, end};
use std::alloc::Global;
use std::marker::Model;
use svsm_types::NoMemory;

/// What the host said where it refused an exit: both info values.
#[derive(Clone, Copy, Debug, PartialEq, Eq)]
pub struct HostSaid {
    pub info1: u64,
    pub info2: u64,
}

/// The GHCB page. A contract sees its 4,096 bytes.
#[derive(Drop)]
pub struct GhcbPage {
    bytes: Vec<u8>,
}

impl Model for GhcbPage {
    ghost use Rattle.std.specs.Prelude.{◌≡◌, List, ℕ, length};

    ghost Value = { List ℕ };

    ghost view = { λ p. p.bytes.items };

    ghost invariant = { λ p. length p.bytes.items ≡ 4096 };
}

impl GhcbPage {
    /// A page of zeros.
    pub fn new(alloc: Global) -> Result<GhcbPage, NoMemory>
        ensures { IfOk result (λ page. page ≡ replicate 4096 0) }
    {
        Ok(GhcbPage {
            bytes: vec![in alloc; 0; 4096]?,
        })
    }

    /// All its bytes.
    pub fn bytes(&self) -> &[u8]
        ensures value { result.now ≡ self.now }
        ensures sized { length self.now ≡ 4096 }
    {
        &self.bytes
    }

    /// All its bytes, to be written.
    pub fn bytes_mut(&mut self) -> &mut [u8]
        ensures* lends { sem 𝓛 (LendsBytes self.entry result) }
        ensures value { result.now ≡ self.old }
        ensures sized { length result.now ≡ 4096 }
    {
        self.bytes.as_mut_slice()
    }

    /// Begins an exit: its code, its two info values and the guest-physical address of its scratch area.
    pub fn begin_exit(&mut self, code: u64, info1: u64, info2: u64, scratch: u64)
        ensures { self.new ≡ begun_exit code info1 info2 scratch self.old }
    {
        begin(&mut self.bytes, code, info1, info2, scratch);
    }

    /// Begins the exit that creates a vCPU, with the features of its VMSA in RAX.
    pub fn begin_ap(&mut self, rax: u64, info1: u64, info2: u64)
        ensures { self.new ≡ begun_ap rax info1 info2 self.old }
    {
        begin_creation(&mut self.bytes, rax, info1, info2);
    }

    /// Ends an exit, with the first info value.
    pub fn end_exit(&self) -> Result<u64, HostSaid>
        ensures { result ≡ ended_exit self.now }
    {
        end(&self.bytes)
    }
}
