//! Pseudo-random numbers.
ghost use Rattle.std.specs.Prelude.{◌<◌};

/// A linear congruence of 64 bits, with Knuth's multiplier.
#[derive(Drop)]
pub(crate) struct Draw {
    pub(crate) seed: u64,
}

impl Draw {
    pub(crate) fn below(&mut self, bound: u64) -> u64
        requires { 0 < bound }
        ensures { result < bound }
    {
        self.seed = self
            .seed
            .wrapping_mul(6364136223846793005)
            .wrapping_add(1442695040888963407);
        self.seed / 4294967296 % bound
    }
}
