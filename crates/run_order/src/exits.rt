//! What the host was told of the vCPUs, by the rows before and after a wave.
ghost use Rattle.std.specs.Prelude.{◌≡◌, ◌+◌, ◌++◌, ◌<◌, ◌^◌, [], List, All, None, IfSome, OnOk, length};
ghost use Rattle.svsm_steps.specs.Announced.{Announced, ap_error};
ghost use Rattle.svsm_steps.specs.Sound.{IsSound};
ghost use Rattle.ap_start.specs.Exits.{IsLow, before_refused};
ghost use Rattle.run_order.specs.Told.{AreRegistered, IsTold, told_between, error_in, refused_of, said_from};

use ap_start::{ApExit, differences};
use std::alloc::Global;
use svsm_types::{HostLine, Image, NoMemory, Row};

/// The exits so far.
#[derive(Drop)]
pub struct Told {
    /// Those that the host took.
    pub exits: Vec<ApExit>,
    /// Both info values of the one that it refused.
    pub refused: Option<(u64, u64)>,
}

fn error_in(number: u64, line: HostLine) -> Option<u64>
    ensures { result ≡ error_in number line }
{
    match line {
        HostLine::Ap {
            number: other,
            error,
        } => { if other == number { Some(error) } else { None } }
        _ => None,
    }
}

// The error that the exit with this number returns, from 0 over the whole run.
fn ap_error(lines: &[HostLine], number: u64) -> u64
    ensures { result ≡ ap_error lines.now number }
{
    'all: for line in lines {
        if let Some(error) = error_in(number, *line) {
            return error;
        }
    }
    0
}

// How many of so many exits, the first with this number, the host takes before it refuses one.
fn refused_of(lines: &[HostLine], number: u64, count: u64) -> Option<u64>
    requires { number + count < 2 ^ 64 }
    ensures is { result ≡ refused_of lines.now number count }
    ensures within { IfSome result (λ at. at < count) }
{
    'exits: for at in 0..count {
        if ap_error(lines, number + at) != 0 {
            return Some(at);
        }
    }
    None
}

impl Told {
    // Adds these exits up to the one that is refused.
    fn take(&mut self, lines: &[HostLine], news: &[ApExit]) -> Result<(), NoMemory>
        requires { self.old.refused ≡ None }
        ensures exits { OnOk result (self.new.exits.items ≡ self.old.exits.items
            ++ before_refused (refused_of lines.now (length self.old.exits.items) (length news.now)) news.now) }
        ensures refused { OnOk result (self.new.refused
            ≡ said_from lines.now (length self.old.exits.items) (refused_of lines.now (length self.old.exits.items) (length news.now))) }
    {
        let number = self.exits.len() as u64;
        let Some(at) = refused_of(lines, number, news.len() as u64) else {
            self.exits.extend_from_slice(news)?;
            return Ok(());
        };
        self.exits.extend_from_slice(&news[..at as usize])?;
        self.refused = Some((0, ap_error(lines, number + at)));
        Ok(())
    }

    /// Adds the exits of a wave up to the one that is refused, in an image that announces its vCPUs.
    pub fn tell(
        &mut self,
        alloc: Global,
        image: &Image,
        before: &[Row],
        after: &[Row],
    ) -> Result<(), NoMemory>
        requires sound { IsSound image.now }
        requires before { AreRegistered image.now before.now }
        requires after { AreRegistered image.now after.now }
        requires taken { self.old.refused ≡ None }
        requires low { All IsLow self.old.exits.items }
        ensures told { OnOk result ((told : List Announced) → IsTold image.now told self.old.exits.items None
            → IsTold image.now (told ++ told_between image.now before.now after.now) self.new.exits.items self.new.refused) }
        ensures low { OnOk result (All IsLow self.new.exits.items) }
    {
        if !image.announce {
            return Ok(());
        }
        let news = differences(alloc, image.cores.as_slice(), before, after)?;
        self.take(image.host.as_slice(), &news)
    }
}
