//! Where text goes.
ghost use Rattle.std.specs.Prelude.{◌≡◌, ◌<◌, ◌≤◌, length, IfOk, OnOk, OnErr};
ghost use Rattle.std.specs.Io.KnownBytes.{WriteAppends};
ghost use Rattle.svsm_outside.specs.Views.{SinkView};
ghost use Rattle.svsm_outside.specs.Outside.{Rose};

use svsm_types::Faulted;

/// A stream that bytes are appended to.
pub trait Sink {
    ghost seen: { Self → SinkView };

    /// Appends a front of the piece, and tells its length.
    fn write(&mut self, bytes: &[u8]) -> Result<usize, Faulted>
        requires { 0 < length bytes.now }
        ensures some { IfOk result (λ n. 0 < n) }
        ensures within { IfOk result (λ n. n ≤ length bytes.now) }
        ensures appends { WriteAppends (seen self.old).written (seen self.new).written result bytes.now }
        ensures calm { OnOk result ((seen self.new).faults ≡ (seen self.old).faults) }
        ensures fault { OnErr result (Rose (seen self.old).faults (seen self.new).faults) };
}
