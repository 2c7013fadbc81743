//! The host, as the module meets it.
use ghcb_page::GhcbPage;

/// A host. Nothing is promised of what comes back: its two relations are whatever an implementation says.
pub trait Host {
    ghost use Rattle.std.specs.Prelude.{ℕ, List};

    /// The host before, the value that was sent, its answer, the host after.
    ghost answers: { Self → ℕ → ℕ → Self → Type 0 };

    /// The host before, the page as it was sent, the page as it came back, the host after.
    ghost returns: { Self → List ℕ → List ℕ → Self → Type 0 };

    /// Sends a value in the GHCB MSR, and gives the answer.
    fn msr(&mut self, sent: u64) -> u64
        ensures { answers self.old sent result self.new };

    /// Exits with the GHCB page, which the host may rewrite.
    fn exit(&mut self, page: &mut GhcbPage)
        ensures { returns self.old page.old page.new self.new };
}
