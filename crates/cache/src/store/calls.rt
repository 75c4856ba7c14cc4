// What is done to the places of a store.
ghost use Rattle.std.specs.Prelude.{◌≡◌, ◌<◌, ◌≤◌, [], length};
ghost use Rattle.base.specs.Lists.{found_in};
ghost use Rattle.base.specs.declared.limits.TheConstants.{SECTOR_BYTES};
ghost use Rattle.cache.specs.Places.{HeldOnce, used, place_at, held, stored, installed, pinned_in, cleaned};
ghost use Rattle.cache.specs.declared.store.TheConstants.{MAX_PLACES};

use super::{Place, Store};
use arrayvec::ArrayVec;
use base::SECTOR_BYTES;

impl Store {
    pub fn new() -> Store
        ensures pinned { result.pinned ≡ 0 }
        ensures empty { result.places.items ≡ [] }
    {
        Store {
            pinned: 0,
            places: ArrayVec::new(),
        }
    }

    // How many places hold a sector.
    pub fn used(&self) -> usize
        ensures { result ≡ used self.now }
    {
        self.places.len()
    }

    // The place that holds a sector: the only one, whatever the order of the search.
    pub fn find(&self, sector: u32) -> Option<usize>
        requires once { HeldOnce self.now }
        requires within { used self.now ≤ MAX_PLACES }
        ensures { result ≡ found_in sector (held self.now) }
    {
        self.places.iter().position(|place| place.sector == sector)
    }

    pub fn copy_out(&self, place: usize, buffer: &mut [u8])
        requires { (place < used self.now) × (length buffer.old ≡ SECTOR_BYTES) }
        ensures { buffer.new ≡ (place_at self.now place).block }
    {
        buffer.copy_from_slice(&self.places[place].block);
    }

    // The place is dirty from then on.
    pub fn copy_in(&mut self, place: usize, buffer: &[u8])
        requires { (place < used self.old) × (length buffer.now ≡ SECTOR_BYTES) }
        ensures { self.new ≡ stored self.old place buffer.now }
    {
        let place = &mut self.places[place];
        place.block.copy_from_slice(buffer);
        place.dirty = true;
    }

    // Gives a place, one in use or the next, to a sector with its bytes, clean.
    pub fn install(&mut self, place: usize, sector: u32, block: [u8; SECTOR_BYTES])
        requires { (place < MAX_PLACES) × (place ≤ used self.old) }
        ensures { self.new ≡ installed self.old place sector block }
    {
        let clean = Place {
            sector,
            dirty: false,
            block,
        };
        if place < self.places.len() {
            self.places[place] = clean;
        } else {
            self.places.push(clean);
        }
    }

    // Gives the next place to a sector that stays there; no frame is filled yet.
    pub fn pin(&mut self, sector: u32, block: [u8; SECTOR_BYTES])
        requires { (used self.old < MAX_PLACES) × (self.old.pinned ≤ used self.old) }
        ensures { self.new ≡ pinned_in self.old sector block }
    {
        self.install(self.used(), sector, block);
        self.pinned += 1;
    }

    pub fn clean(&mut self, place: usize)
        requires { place < used self.old }
        ensures { self.new ≡ cleaned self.old place }
    {
        self.places[place].dirty = false;
    }
}
