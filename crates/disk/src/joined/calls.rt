// What the joined disk does.
ghost use Rattle.std.specs.Prelude.{◌≡◌, ◌<◌, length};
ghost use Rattle.disk.specs.Meaning.{answer, after_read, buffer_read, after_write};
ghost use Rattle.disk.specs.Join.{joined, join_of, both, parts_after, BothSound};

use super::JoinedDisk;
use crate::disk::{Disk, judge};
use crate::tallies::Tallies;
use base::Refusal;

impl<A: Disk, B: Disk> JoinedDisk<A, B> {
    pub fn new(first: A, second: B) -> JoinedDisk<A, B>
        ensures first { result.first ≡ first }
        ensures second { result.second ≡ second }
        ensures means { joined A.Disk B.Disk result ≡ join_of (A.Disk.meaning first) (B.Disk.meaning second) 0 0 }
    {
        JoinedDisk {
            first,
            second,
            tallies: Tallies::new(0, 0),
        }
    }

    // Gives both disks back.
    pub fn into_parts(self) -> (A, B)
        ensures { result ≡ (self.first, self.second) }
    {
        let JoinedDisk {
            first,
            second,
            tallies: _,
        } = self;
        (first, second)
    }

    // Reads a sector from the disk that has it.
    fn pass_read(&mut self, sector: u32, buffer: &mut [u8]) -> Result<(), Refusal>
        requires sound { BothSound A.Disk B.Disk self.old }
        requires inside { sector < (joined A.Disk B.Disk self.old).count }
        ensures kept { BothSound A.Disk B.Disk self.new }
        ensures answers { result ≡ answer (joined A.Disk B.Disk self.old) sector (length buffer.old) }
        ensures parts { both A.Disk B.Disk self.new ≡ parts_after after_read (both A.Disk B.Disk self.old) sector buffer.old }
        ensures tallies { self.new.tallies ≡ self.old.tallies }
        ensures fills { buffer.new ≡ buffer_read (joined A.Disk B.Disk self.old) sector buffer.old }
    {
        let first = self.first.count();
        if sector < first {
            return self.first.read(sector, buffer);
        }
        self.second.read(sector - first, buffer)
    }

    // Writes a sector to the disk that has it.
    fn pass_write(&mut self, sector: u32, buffer: &[u8]) -> Result<(), Refusal>
        requires sound { BothSound A.Disk B.Disk self.old }
        requires inside { sector < (joined A.Disk B.Disk self.old).count }
        ensures kept { BothSound A.Disk B.Disk self.new }
        ensures answers { result ≡ answer (joined A.Disk B.Disk self.old) sector (length buffer.now) }
        ensures parts { both A.Disk B.Disk self.new ≡ parts_after after_write (both A.Disk B.Disk self.old) sector buffer.now }
        ensures tallies { self.new.tallies ≡ self.old.tallies }
    {
        let first = self.first.count();
        if sector >= first {
            return self.second.write(sector - first, buffer);
        }
        self.first.write(sector, buffer)
    }
}

impl<A: Disk, B: Disk> Disk for JoinedDisk<A, B> {
    ghost meaning = { λ d. joined A.Disk B.Disk d };

    ghost sound = { λ d. BothSound A.Disk B.Disk d };

    fn count(&self) -> u32 {
        self.first.count().saturating_add(self.second.count())
    }

    fn tallies(&self) -> Tallies {
        self.tallies.snapshot()
    }

    // Beside what the trait promises: what each of the two disks is afterwards, tallies too. Where the sum of the counts is cut, a
    // sector may lie past the end here and yet within the second disk; then neither is called.
    fn read(&mut self, sector: u32, buffer: &mut [u8]) -> Result<(), Refusal>
        requires { BothSound A.Disk B.Disk self.old }
        ensures kept { BothSound A.Disk B.Disk self.new }
        ensures answers { result ≡ answer (joined A.Disk B.Disk self.old) sector (length buffer.old) }
        ensures after { joined A.Disk B.Disk self.new ≡ after_read (joined A.Disk B.Disk self.old) sector buffer.old }
        ensures fills { buffer.new ≡ buffer_read (joined A.Disk B.Disk self.old) sector buffer.old }
        ensures parts { both A.Disk B.Disk self.new ≡ parts_after after_read (both A.Disk B.Disk self.old) sector buffer.old }
    {
        judge(self.count(), sector, buffer.len())?;
        self.pass_read(sector, buffer)?;
        self.tallies.count_read();
        Ok(())
    }

    fn write(&mut self, sector: u32, buffer: &[u8]) -> Result<(), Refusal>
        requires { BothSound A.Disk B.Disk self.old }
        ensures kept { BothSound A.Disk B.Disk self.new }
        ensures answers { result ≡ answer (joined A.Disk B.Disk self.old) sector (length buffer.now) }
        ensures after { joined A.Disk B.Disk self.new ≡ after_write (joined A.Disk B.Disk self.old) sector buffer.now }
        ensures parts { both A.Disk B.Disk self.new ≡ parts_after after_write (both A.Disk B.Disk self.old) sector buffer.now }
    {
        judge(self.count(), sector, buffer.len())?;
        self.pass_write(sector, buffer)?;
        self.tallies.count_write();
        Ok(())
    }
}
