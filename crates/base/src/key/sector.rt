// A plain sector: its code is its number.
ghost use Rattle.base.specs.Keys.{mixed};
ghost use Rattle.std.proofs.Common.{ap};

use super::Key;
use crate::mix::mix64;

#[derive(Clone, Copy, PartialEq, Eq, Debug)]
pub struct Sector {
    pub number: u32,
}

impl Key for Sector {
    ghost code = { λ s. s.number };

    ghost spread = { λ s. mixed s.number };

    ghost faithful = { λ a b e i. record { number = e i } };

    ghost coded = { λ a b. ap (λ s. s.number) };

    ghost together = { λ a b. ap (λ s. mixed s.number) };

    fn code(&self) -> u64 {
        self.number as u64
    }

    fn spread(&self) -> u32 {
        mix64(self.code())
    }
}
