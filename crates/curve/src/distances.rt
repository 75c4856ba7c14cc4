// The distance of each touch.
ghost use Rattle.std.specs.Prelude.{◌≡◌, ◌≤◌, ◌++◌, length, drop};
ghost use Rattle.base.specs.Keys.{codes_of};
ghost use Rattle.curve.specs.Distances.{lru_distances};

use crate::recency::Recency;
use base::Key;

pub fn measure<K: Key>(keys: &[K], distances: &mut [u8])
    requires { length keys.now ≤ length distances.old }
    ensures { distances.new ≡ lru_distances (codes_of K.Key keys.now) ++ drop (length keys.now) distances.old }
{
    let mut recency = Recency::new();
    for (place, key) in keys.iter().enumerate() {
        distances[place] = recency.touch(key.code()) as u8;
    }
}
