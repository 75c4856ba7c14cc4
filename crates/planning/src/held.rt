// Which keys the frames hold: the index has a held key's frame, the held-key list a frame's key, by the place of a touch of it in
// the list of touches. In MIN's schedule that is the key's latest touch, in the replay the one that fetched it.
ghost use Rattle.std.specs.Prelude.{◌≡◌, ◌+◌, ◌<◌, ◌≤◌, max, length, slice_index, slice_set};
ghost use Rattle.base.specs.Keys.{codes_of};
ghost use Rattle.base.specs.declared.limits.TheConstants.{MAX_FRAMES, MAX_TOUCHES};
ghost use Rattle.policy.specs.Machine.{put};
ghost use Rattle.index.specs.Slots.{map_of, SoundIndex};
ghost use Rattle.planning.specs.Chosen.{HeldBelow};
ghost use Rattle.planning.specs.Frames.{held_codes, Holds, HasRoom, Unfilled, SlotsFor, emptied};

use base::Key;
use index::{Index, Slot};

// How many slots the index has for a frame, so that few keys collide.
const SLOTS_PER_FRAME: usize = 32;

#[derive(Drop)]
pub struct HeldKeys<'a, K> {
    pub index: Index<'a, K>,
    pub held: &'a mut [u32],
    pub filled: usize,
}

impl<'a, K: Key> HeldKeys<'a, K> {
    // As many frames as the held-key list has places. None is filled, whatever the lists had. The frames never hold more keys than
    // there are frames, so the index takes only some of the slots where there are many, and only these are cleared.
    pub fn new(slots: &'a mut [Slot<K>], held: &'a mut [u32]) -> HeldKeys<'a, K>
        requires { (1 ≤ length held.old) × (length held.old ≤ MAX_FRAMES) }
        ensures unfilled { Unfilled K.Key.code K.Key.spread result }
        ensures slots { SlotsFor (length slots.old) result }
        ensures held { result.held.now ≡ held.old }
    {
        let places = slots.len().min(SLOTS_PER_FRAME * held.len());
        HeldKeys {
            index: Index::new(&mut slots[..places]),
            held,
            filled: 0,
        }
    }

    // The frame that holds a key.
    pub fn frame_of(&self, key: &K) -> Option<usize>
        requires { SoundIndex K.Key.code K.Key.spread self.now.index }
        ensures { result ≡ (map_of K.Key.code self.now.index).at (K.Key.code key.now) }
    {
        self.index.find(key).map(|frame| frame as usize)
    }

    // Notes a touch of the key that a frame holds, by its place in the list.
    pub fn touch(&mut self, frame: usize, place: usize)
        requires { (frame < length self.old.held.now) × (place < MAX_TOUCHES) }
        ensures index { self.new.index ≡ self.old.index }
        ensures held { self.new.held.now ≡ slice_set self.old.held.now frame place }
        ensures filled { self.new.filled ≡ self.old.filled }
    {
        self.held[frame] = place as u32;
    }

    // Puts the key that a filled frame holds out of the index.
    fn put_out(&mut self, keys: &[K], frame: usize)
        requires sound { SoundIndex K.Key.code K.Key.spread self.old.index }
        requires held { HeldBelow self.old.filled self.old.held.now (length keys.now) }
        requires within { frame < length self.old.held.now }
        ensures sound { SoundIndex K.Key.code K.Key.spread self.new.index }
        ensures map { map_of K.Key.code self.new.index ≡ emptied K.Key.code keys.now self.old frame }
        ensures held { self.new.held.now ≡ self.old.held.now }
        ensures filled { self.new.filled ≡ self.old.filled }
    {
        if frame < self.filled {
            let place = self.held[frame] as usize;
            let _ = self.index.remove(&keys[place]);
        }
    }

    // Holds the key at a place of the list in a frame, filled or the next to fill; a key that the frame held is put out.
    pub fn hold(&mut self, keys: &[K], frame: usize, place: usize)
        requires sound { SoundIndex K.Key.code K.Key.spread self.old.index }
        requires within { (frame < length self.old.held.now)
            × ((frame < MAX_FRAMES) × ((place < length keys.now) × (place < MAX_TOUCHES))) }
        requires room { HasRoom K.Key.code keys.now self.old frame place }
        ensures sound { SoundIndex K.Key.code K.Key.spread self.new.index }
        ensures places { (map_of K.Key.code self.new.index).places ≡ (map_of K.Key.code self.old.index).places }
        ensures held { self.new.held.now ≡ slice_set self.old.held.now frame place }
        ensures filled { self.new.filled ≡ max self.old.filled (frame + 1) }
        ensures holds { Holds K.Key.code keys.now self.new
            (put (held_codes K.Key.code keys.now self.old) frame (slice_index (codes_of K.Key keys.now) place)) }
    {
        self.put_out(keys, frame);
        // The key is new and there is a slot for it, so the index takes it.
        self.index.put(keys[place], frame as u32).unwrap();
        self.held[frame] = place as u32;
        self.filled = self.filled.max(frame + 1);
    }
}
