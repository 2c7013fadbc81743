//! A whole text goes to a sink.
ghost use Rattle.std.specs.Prelude.{OnOk, OnErr};
ghost use Rattle.svsm_outside.specs.Outside.{IsWritten, IsWrittenInPart};

use crate::Sink;
use svsm_types::Faulted;

/// Appends all of the text. Where a write fails, a proper front of it was appended.
pub fn append_all<W: Sink>(out: &mut W, text: &[u8]) -> Result<(), Faulted>
    ensures whole { OnOk result (IsWritten (W.seen out.old) (W.seen out.new) text.now) }
    ensures part { OnErr result (IsWrittenInPart (W.seen out.old) (W.seen out.new) text.now) }
{
    let mut done = 0;
    while done < text.len() {
        done += out.write(&text[done..])?;
    }
    Ok(())
}
