// The cache as a disk, over any disk.
ghost use Rattle.disk.specs.declared.turn.Request.TheVariants.{Read, Write};
ghost use Rattle.cache.specs.View.{seen};
ghost use Rattle.cache.specs.Reading.{view, Safe, Takes};

use crate::cache::Cache;
use base::Refusal;
use disk::{Disk, Tallies};
use policy::Policy;

impl<D: Disk, P: Policy> Disk for Cache<D, P> {
    ghost meaning = { λ c. seen (view D.Disk P.Policy c) };

    ghost sound = { λ c. Safe D.Disk P.Policy c };

    fn count(&self) -> u32 {
        self.below.count()
    }

    fn tallies(&self) -> Tallies {
        self.tallies.snapshot()
    }

    fn read(&mut self, sector: u32, buffer: &mut [u8]) -> Result<(), Refusal>
        requires { Safe D.Disk P.Policy self.old }
        ensures kept { Safe D.Disk P.Policy self.new }
        ensures takes { Takes D.Disk P.Policy self.old Read sector buffer.old buffer.new result self.new }
    {
        self.read_sector(sector, buffer)
    }

    fn write(&mut self, sector: u32, buffer: &[u8]) -> Result<(), Refusal>
        requires { Safe D.Disk P.Policy self.old }
        ensures kept { Safe D.Disk P.Policy self.new }
        ensures takes { Takes D.Disk P.Policy self.old Write sector buffer.now buffer.now result self.new }
    {
        self.write_sector(sector, buffer)
    }
}
