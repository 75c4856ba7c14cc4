// How many keys an index has.
ghost use Rattle.std.specs.Prelude.{◌≡◌};
ghost use Rattle.index.specs.Maps.{Finite};
ghost use Rattle.index.specs.Slots.{map_of, SoundIndex};

use super::Index;
use base::Key;

impl<'a, K: Key> Index<'a, K> {
    pub fn len(&self) -> usize
        requires { SoundIndex K.Key.code K.Key.spread self.now }
        ensures answer { result ≡ (map_of K.Key.code self.now).size }
        ensures finite { Finite (map_of K.Key.code self.now) }
    {
        self.taken
    }
}
