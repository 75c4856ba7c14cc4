// Making an index, and its calls.
ghost use Rattle.std.specs.Prelude.{◌≡◌, length, None, Err};
ghost use Rattle.base.specs.declared.refusal.Refusal.TheVariants.{IndexFull};
ghost use Rattle.index.specs.Maps.{empty, put_answer, after_put, after_remove};
ghost use Rattle.index.specs.Slots.{map_of, SoundIndex};

use super::Index;
use super::probing::Probe;
use super::steps::free_all;
use crate::slot::Slot;
use base::{Key, Refusal};

impl<'a, K: Key> Index<'a, K> {
    // Frees every slot, whatever the table held.
    #[tactic(auto, using(crate::proofs::Updates::free_sound))]
    pub fn new(slots: &'a mut [Slot<K>]) -> Index<'a, K>
        ensures sound { SoundIndex K.Key.code K.Key.spread result }
        ensures map { map_of K.Key.code result ≡ empty (length slots.old) }
    {
        free_all(slots);
        Index { slots, taken: 0 }
    }

    // The number stored with the key.
    pub fn find(&self, key: &K) -> Option<u32>
        requires { SoundIndex K.Key.code K.Key.spread self.now }
        ensures { result ≡ (map_of K.Key.code self.now).at (K.Key.code key.now) }
    {
        match self.probe(key) {
            Probe::Found { number, .. } => Some(number),
            Probe::Vacant(_) | Probe::Full => None,
        }
    }

    // Stores the number with the key, in place of the one before if there is one.
    pub fn put(&mut self, key: K, number: u32) -> Result<(), Refusal>
        requires { SoundIndex K.Key.code K.Key.spread self.old }
        ensures sound { SoundIndex K.Key.code K.Key.spread self.new }
        ensures answer { result ≡ put_answer (map_of K.Key.code self.old) (K.Key.code key) }
        ensures map { map_of K.Key.code self.new ≡ after_put (map_of K.Key.code self.old) (K.Key.code key) number }
        ensures refused { result ≡ Err IndexFull → self.new ≡ self.old }
    {
        match self.probe(&key) {
            Probe::Found { place, .. } => {
                self.renumber(place, key, number);
                Ok(())
            }
            Probe::Vacant(place) => {
                self.add(place, key, number);
                Ok(())
            }
            Probe::Full => Err(Refusal::IndexFull),
        }
    }

    // Takes the key out, and answers the number that was stored with it.
    #[tactic(auto, using(crate::proofs::Maps::remove_none))]
    pub fn remove(&mut self, key: &K) -> Option<u32>
        requires { SoundIndex K.Key.code K.Key.spread self.old }
        ensures sound { SoundIndex K.Key.code K.Key.spread self.new }
        ensures answer { result ≡ (map_of K.Key.code self.old).at (K.Key.code key.now) }
        ensures map { map_of K.Key.code self.new ≡ after_remove (map_of K.Key.code self.old) (K.Key.code key.now) }
        ensures absent { result ≡ None → self.new ≡ self.old }
    {
        match self.probe(key) {
            Probe::Found { place, number } => {
                self.take_out(place);
                Some(number)
            }
            Probe::Vacant(_) | Probe::Full => None,
        }
    }
}
