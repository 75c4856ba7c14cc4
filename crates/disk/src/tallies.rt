// How many reads and writes a disk has served; each stays at its largest value.
ghost use Rattle.std.specs.Prelude.{◌≡◌, ◌≤◌};
ghost use Rattle.disk.specs.Meaning.{largest_tally, raised};

#[derive(Clone, Copy, PartialEq, Eq, Debug)]
pub struct Tallies {
    pub reads: u64,
    pub writes: u64,
}

impl Tallies {
    pub fn new(reads: u64, writes: u64) -> Tallies
        ensures reads { result.reads ≡ reads }
        ensures writes { result.writes ≡ writes }
        ensures bounded { (reads ≤ largest_tally) × (writes ≤ largest_tally) }
    {
        Tallies { reads, writes }
    }

    // The tallies as they stand, and that they have 64 bits: a ghost field may not say so in a disk that borrows its image.
    pub fn snapshot(&self) -> Tallies
        ensures same { result ≡ self.now }
        ensures bounded { (result.reads ≤ largest_tally) × (result.writes ≤ largest_tally) }
    {
        Tallies::new(self.reads, self.writes)
    }

    pub fn count_read(&mut self)
        ensures reads { self.new.reads ≡ raised self.old.reads }
        ensures writes { self.new.writes ≡ self.old.writes }
    {
        self.reads = self.reads.saturating_add(1);
    }

    pub fn count_write(&mut self)
        ensures reads { self.new.reads ≡ self.old.reads }
        ensures writes { self.new.writes ≡ raised self.old.writes }
    {
        self.writes = self.writes.saturating_add(1);
    }
}
