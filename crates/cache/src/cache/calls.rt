// Reads, writes and flushes of a started cache. Each says what it does as a disk, what it does to the frames, to F and to the
// disk below, and which turn the cache has then taken.
ghost use Rattle.std.specs.Prelude.{◌≡◌, ℕ, List, length, Ok};
ghost use Rattle.disk.specs.declared.turn.Request.TheVariants.{Read, Write, Flush};
ghost use Rattle.disk.specs.Meaning.{answer, after_read, buffer_read, after_write};
ghost use Rattle.cache.specs.View.{seen};
ghost use Rattle.cache.specs.Requests.{Turned};
ghost use Rattle.cache.specs.Flush.{Flushed, Ended};
ghost use Rattle.cache.specs.Reading.{view, Safe, Takes, Promised};

use super::Cache;
use crate::slip::EndingSlip;
use crate::store::Store;
use base::Refusal;
use disk::{Disk, Tallies};
use policy::Policy;

impl<D: Disk, P: Policy> Cache<D, P> {
    pub(crate) fn new(below: D, policy: P, store: Store) -> Cache<D, P>
        ensures parts { (result.below ≡ below) × ((result.policy ≡ policy) × (result.store ≡ store)) }
        ensures counts { (result.fetched ≡ 0) × ((result.tallies.reads ≡ 0) × (result.tallies.writes ≡ 0)) }
    {
        Cache {
            below,
            policy,
            store,
            fetched: 0,
            tallies: Tallies::new(0, 0),
        }
    }

    pub fn read_sector(&mut self, sector: u32, buffer: &mut [u8]) -> Result<(), Refusal>
        requires { Safe D.Disk P.Policy self.old }
        ensures kept { Safe D.Disk P.Policy self.new }
        ensures answers { result ≡ answer (seen (view D.Disk P.Policy self.old)) sector (length buffer.old) }
        ensures after { seen (view D.Disk P.Policy self.new) ≡ after_read (seen (view D.Disk P.Policy self.old)) sector buffer.old }
        ensures fills { buffer.new ≡ buffer_read (seen (view D.Disk P.Policy self.old)) sector buffer.old }
        ensures turned { Turned P.Policy.rules Read (view D.Disk P.Policy self.old) sector (length buffer.old)
            (view D.Disk P.Policy self.new) }
        ensures takes { Takes D.Disk P.Policy self.old Read sector buffer.old buffer.new result self.new }
    {
        let place = self.place_for(sector, buffer.len())?;
        self.serve_read(place, buffer);
        Ok(())
    }

    pub fn write_sector(&mut self, sector: u32, buffer: &[u8]) -> Result<(), Refusal>
        requires { Safe D.Disk P.Policy self.old }
        ensures kept { Safe D.Disk P.Policy self.new }
        ensures answers { result ≡ answer (seen (view D.Disk P.Policy self.old)) sector (length buffer.now) }
        ensures after { seen (view D.Disk P.Policy self.new) ≡ after_write (seen (view D.Disk P.Policy self.old)) sector buffer.now }
        ensures turned { Turned P.Policy.rules Write (view D.Disk P.Policy self.old) sector (length buffer.now)
            (view D.Disk P.Policy self.new) }
        ensures takes { Takes D.Disk P.Policy self.old Write sector buffer.now buffer.now result self.new }
    {
        let place = self.place_for(sector, buffer.len())?;
        self.serve_write(place, buffer);
        Ok(())
    }

    // Writes every dirty sector below. It is no use of a frame.
    pub fn flush(&mut self)
        requires { Safe D.Disk P.Policy self.old }
        ensures kept { Safe D.Disk P.Policy self.new }
        ensures flushed { Flushed (view D.Disk P.Policy self.old) (view D.Disk P.Policy self.new) }
        ensures takes { (sector : ℕ) (buffer : List ℕ) → Takes D.Disk P.Policy self.old Flush sector buffer buffer (Ok tt) self.new }
    {
        for place in 0..self.store.used() {
            self.write_back(place);
        }
    }

    // F: the fetches since start, which stay at their largest value.
    pub fn fetches(&self) -> u64
        ensures value { result ≡ self.now.fetched }
        ensures promised { Promised D.Disk P.Policy self.now }
    {
        self.fetched
    }
}

impl<D: Disk, P: Policy + Drop> Cache<D, P> {
    // Takes the slip, flushes, and gives the disk back.
    pub fn end(mut self, slip: EndingSlip) -> D
        requires { Safe D.Disk P.Policy self }
        ensures under { D.Disk.sound result }
        ensures ended { Ended (view D.Disk P.Policy self) (D.Disk.meaning result) }
    {
        slip.hand_in();
        self.flush();
        let Cache {
            below,
            policy: _,
            store: _,
            fetched: _,
            tallies: _,
        } = self;
        below
    }
}
