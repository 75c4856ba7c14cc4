// Which place of the cache a turn works on: found, or fetched from below.
ghost use Rattle.std.specs.Prelude.{◌≡◌, ◌<◌, false, length, if◌then◌else◌};
ghost use Rattle.base.specs.declared.limits.TheConstants.{SECTOR_BYTES};
ghost use Rattle.disk.specs.Meaning.{answer, serves};
ghost use Rattle.cache.specs.Places.{used, place_at};
ghost use Rattle.cache.specs.Steps.{read_view, write_view, backed_view, fetched_view, touched_view, judged_view};
ghost use Rattle.cache.specs.Steps.{used_frame, next_place, place_of, with_place};
ghost use Rattle.cache.specs.Reading.{view, Safe};

use super::Cache;
use base::{Refusal, SECTOR_BYTES};
use disk::Disk;
use policy::Policy;

impl<D: Disk, P: Policy> Cache<D, P> {
    // Writes a place below if it is dirty. What is held is live, so the write is never refused.
    pub(crate) fn write_back(&mut self, place: usize)
        requires within { place < used self.old.store }
        requires under { D.Disk.sound self.old.below }
        requires inside { (place_at self.old.store place).sector < (D.Disk.meaning self.old.below).count }
        requires live { (D.Disk.meaning self.old.below).dead (place_at self.old.store place).sector ≡ false }
        ensures under { D.Disk.sound self.new.below }
        ensures after { view D.Disk P.Policy self.new ≡ backed_view (view D.Disk P.Policy self.old) place }
    {
        let held = &self.store.places[place];
        if held.dirty {
            self.below.write(held.sector, &held.block).unwrap();
            self.store.clean(place);
        }
    }

    // Brings a sector in from below, into the frame that the policy gives up. The policy is asked only once the sector
    // has been read, so that a refusal below changes nothing.
    fn fetch(&mut self, sector: u32) -> Result<usize, Refusal>
        requires { Safe D.Disk P.Policy self.old }
        ensures under { D.Disk.sound self.new.below }
        ensures answers { result ≡ with_place (answer (D.Disk.meaning self.old.below) sector SECTOR_BYTES)
            (next_place P.Policy.rules (view D.Disk P.Policy self.old)) }
        ensures after { view D.Disk P.Policy self.new ≡ (if serves (D.Disk.meaning self.old.below) sector SECTOR_BYTES
            then fetched_view P.Policy.rules (view D.Disk P.Policy self.old) sector
            else view D.Disk P.Policy self.old) }
    {
        let mut bytes = [0u8; SECTOR_BYTES];
        self.below.read(sector, &mut bytes)?;
        let frame = self.policy.place();
        let place = self.store.pinned + frame;
        if place < self.store.used() {
            self.write_back(place);
        }
        self.store.install(place, sector, bytes);
        self.fetched = self.fetched.saturating_add(1);
        Ok(place)
    }

    // Finds a sector's place, or fetches the sector into one. A pinned sector is no touch of the frames.
    fn touch(&mut self, sector: u32) -> Result<usize, Refusal>
        requires { Safe D.Disk P.Policy self.old }
        ensures under { D.Disk.sound self.new.below }
        ensures answers { result ≡ with_place (answer (D.Disk.meaning self.old.below) sector SECTOR_BYTES)
            (place_of P.Policy.rules (view D.Disk P.Policy self.old) sector) }
        ensures after { view D.Disk P.Policy self.new ≡ touched_view P.Policy.rules (view D.Disk P.Policy self.old) sector }
    {
        match self.store.find(sector) {
            Some(place) => {
                if place >= self.store.pinned {
                    self.use_frame(place - self.store.pinned);
                }
                Ok(place)
            }
            None => self.fetch(sector),
        }
    }

    // The place of a sector that a buffer of so many bytes is to be read from or written into. A refused request changes nothing.
    pub(crate) fn place_for(&mut self, sector: u32, len: usize) -> Result<usize, Refusal>
        requires { Safe D.Disk P.Policy self.old }
        ensures under { D.Disk.sound self.new.below }
        ensures answers { result ≡ with_place (answer (D.Disk.meaning self.old.below) sector len)
            (place_of P.Policy.rules (view D.Disk P.Policy self.old) sector) }
        ensures after { view D.Disk P.Policy self.new ≡ judged_view P.Policy.rules (view D.Disk P.Policy self.old) sector len }
    {
        if len != SECTOR_BYTES {
            return Err(Refusal::BufferLength);
        }
        self.touch(sector)
    }

    // Serves a read from a place.
    pub(crate) fn serve_read(&mut self, place: usize, buffer: &mut [u8])
        requires within { (place < used self.old.store) × (length buffer.old ≡ SECTOR_BYTES) }
        requires under { D.Disk.sound self.old.below }
        ensures under { D.Disk.sound self.new.below }
        ensures after { view D.Disk P.Policy self.new ≡ read_view (view D.Disk P.Policy self.old) }
        ensures fills { buffer.new ≡ (place_at self.old.store place).block }
    {
        self.store.copy_out(place, buffer);
        self.tallies.count_read();
    }

    // Serves a write into a place, which is dirty from then on.
    pub(crate) fn serve_write(&mut self, place: usize, buffer: &[u8])
        requires within { (place < used self.old.store) × (length buffer.now ≡ SECTOR_BYTES) }
        requires under { D.Disk.sound self.old.below }
        ensures under { D.Disk.sound self.new.below }
        ensures after { view D.Disk P.Policy self.new ≡ write_view (view D.Disk P.Policy self.old) place buffer.now }
    {
        self.store.copy_in(place, buffer);
        self.tallies.count_write();
    }

    // Tells the policy of a hit. A frame that holds a sector is filled, so the use is never refused.
    fn use_frame(&mut self, frame: usize)
        requires filled { frame < P.Policy.rules.filled (P.Policy.model self.old.policy) }
        requires under { D.Disk.sound self.old.below }
        ensures under { D.Disk.sound self.new.below }
        ensures after { view D.Disk P.Policy self.new ≡ used_frame P.Policy.rules (view D.Disk P.Policy self.old) frame }
    {
        self.policy.use_frame(frame).unwrap();
    }
}
