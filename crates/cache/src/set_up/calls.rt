// Setting a cache up, pinning sectors, and starting it.
ghost use Rattle.std.specs.Prelude.{◌≡◌, []};
ghost use Rattle.base.specs.Geometries.{pins_of};
ghost use Rattle.cache.specs.Places.{pins};
ghost use Rattle.cache.specs.SetUp.{set_up_view, Ready, FirstState, Pinned, Begins};
ghost use Rattle.cache.specs.Reading.{Safe};

use super::SetUpCache;
use crate::cache::Cache;
use crate::slip::EndingSlip;
use crate::store::Store;
use base::{Geometry, Refusal, SECTOR_BYTES};
use disk::Disk;
use policy::Policy;

impl<D: Disk, P: Policy> SetUpCache<D, P> {
    pub fn new(geometry: Geometry, below: D, setting: P::Setting) -> SetUpCache<D, P>
        requires { D.Disk.sound below }
        ensures ready { Ready D.Disk P.Policy result }
        ensures first { FirstState D.Disk P.Policy result setting }
        ensures geometry { result.geometry ≡ geometry }
        ensures below { result.below ≡ below }
        ensures pins { pins result.store ≡ [] }
    {
        // with its count a disk promises that every sector has 512 bytes, with its tallies that they have 64 bits
        let _ = below.count();
        let _ = below.tallies();
        let policy = P::new(setting, &geometry);
        let store = Store::new();
        SetUpCache {
            below,
            policy,
            geometry,
            store,
        }
    }

    // Reads a sector from below into a free pin place. A refusal changes nothing.
    pub fn pin(&mut self, sector: u32) -> Result<(), Refusal>
        requires { Ready D.Disk P.Policy self.old }
        ensures kept { Ready D.Disk P.Policy self.new }
        ensures geometry { self.new.geometry ≡ self.old.geometry }
        ensures pinned { Pinned (set_up_view D.Disk P.Policy self.old) (pins_of self.old.geometry) sector result
            (set_up_view D.Disk P.Policy self.new) }
    {
        if sector >= self.below.count() {
            return Err(Refusal::NoSuchSector);
        }
        if self.store.find(sector).is_some() {
            return Err(Refusal::AlreadyPinned);
        }
        if self.store.pinned >= self.geometry.pins() {
            return Err(Refusal::PinPlacesTaken);
        }
        let mut bytes = [0u8; SECTOR_BYTES];
        self.below.read(sector, &mut bytes)?;
        self.store.pin(sector, bytes);
        Ok(())
    }

    // The started cache, which has taken no turns, and the slip that ends it.
    pub fn start(self) -> (Cache<D, P>, EndingSlip)
        requires { Ready D.Disk P.Policy self }
        ensures safe { Safe D.Disk P.Policy result.0 }
        ensures begins { Begins D.Disk P.Policy self result.0 }
    {
        let SetUpCache {
            below,
            policy,
            geometry: _,
            store,
        } = self;
        (Cache::new(below, policy, store), EndingSlip::new())
    }
}
