// The parts of the index's calls: how its slots change, and what that does to its map.
ghost use Rattle.std.specs.Prelude.{◌≡◌, true, None, replicate, length, is_some, slice_index_or};
ghost use Rattle.index.specs.Maps.{empty, after_put};
ghost use Rattle.index.specs.Probes.{Open, Probed, Tells, WithoutKeyIn};
ghost use Rattle.index.specs.Slots.{holds, map_of, slots_map, slots_of, SoundIndex};

use super::Index;
use super::probing::{Probe, look_up, vacate};
use crate::slot::{Entry, Slot};
use base::Key;

// Frees every slot.
pub(super) fn free_all<K: Key>(slots: &mut [Slot<K>])
    ensures free { slots.new ≡ replicate (length slots.old) None }
    ensures map { slots_map K.Key.code slots.new ≡ empty (length slots.old) }
{
    slots.fill(None);
}

impl<K: Key> Index<'_, K> {
    // Where the key stands, or would stand, and what that tells of the map.
    pub(super) fn probe(&self, key: &K) -> Probe
        requires { SoundIndex K.Key.code K.Key.spread self.now }
        ensures place { Probed K.Key.code K.Key.spread (slots_of self.now) key.now result }
        ensures map { Tells (map_of K.Key.code self.now) (K.Key.code key.now) result }
    {
        look_up(self.slots, key)
    }

    // Stores another number with the key that stands in a slot.
    pub(super) fn renumber(&mut self, place: usize, key: K, number: u32)
        requires sound { SoundIndex K.Key.code K.Key.spread self.old }
        requires there { holds K.Key.code (K.Key.code key) (slice_index_or (slots_of self.old) place None) ≡ true }
        ensures sound { SoundIndex K.Key.code K.Key.spread self.new }
        ensures map { map_of K.Key.code self.new ≡ after_put (map_of K.Key.code self.old) (K.Key.code key) number }
    {
        self.slots[place] = Some(Entry { key, number });
    }

    // Puts a new key into the free slot where it is reached.
    pub(super) fn add(&mut self, place: usize, key: K, number: u32)
        requires sound { SoundIndex K.Key.code K.Key.spread self.old }
        requires room { Open K.Key.code K.Key.spread (slots_of self.old) key place }
        ensures sound { SoundIndex K.Key.code K.Key.spread self.new }
        ensures map { map_of K.Key.code self.new ≡ after_put (map_of K.Key.code self.old) (K.Key.code key) number }
    {
        self.slots[place] = Some(Entry { key, number });
        self.taken += 1;
    }

    // Takes out the key that stands in a slot.
    pub(super) fn take_out(&mut self, place: usize)
        requires sound { SoundIndex K.Key.code K.Key.spread self.old }
        requires taken { is_some (slice_index_or (slots_of self.old) place None) ≡ true }
        ensures sound { SoundIndex K.Key.code K.Key.spread self.new }
        ensures map { WithoutKeyIn K.Key.code (slice_index_or (slots_of self.old) place None)
            (map_of K.Key.code self.old) (map_of K.Key.code self.new) }
    {
        vacate(self.slots, place);
        self.taken -= 1;
    }
}
