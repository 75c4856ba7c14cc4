// What a row counts.
ghost use Rattle.std.specs.Prelude.{◌≡◌, ◌≤◌, [], length};
ghost use Rattle.base.specs.Keys.{codes_of};
ghost use Rattle.base.specs.Geometries.{frames_of};
ghost use Rattle.planning.specs.Lists.{SameLists};
ghost use Rattle.planning.specs.Minimum.{min_fetches};
ghost use Rattle.sheet.specs.Rows.{row_of, served, Roomy};

use super::Row;
use base::{Geometry, Key, MAX_FRAMES};
use planning::{Lists, plan_touches, replay_keys};
use policy::{Clock, Fifo, Lru};

// The fetches of MIN on so many frames. The lists have enough places, so planning is not refused.
fn fewest_of_keys<K: Key>(frames: usize, keys: &[K], lists: &mut Lists<'_, K>) -> u64
    requires frames { (1 ≤ frames) × (frames ≤ MAX_FRAMES) }
    requires roomy { Roomy (length keys.now) lists.old }
    ensures count { result ≡ min_fetches frames [] (codes_of K.Key keys.now) }
    ensures serving { lists.new.serving.now ≡ served frames (codes_of K.Key keys.now) lists.old.serving.now }
    ensures same { SameLists lists.old lists.new }
{
    plan_touches(keys, frames, frames, lists).unwrap().fetches
}

// The fetches of each policy on the geometry's frames, and of MIN on as many. The lists have enough places, so nothing is refused.
pub(crate) fn row_of_keys<K: Key>(geometry: &Geometry, keys: &[K], lists: &mut Lists<'_, K>) -> Row
    requires { Roomy (length keys.now) lists.old }
    ensures counts { result ≡ row_of (codes_of K.Key keys.now) (frames_of geometry.now) }
    ensures serving { lists.new.serving.now ≡ served (frames_of geometry.now) (codes_of K.Key keys.now) lists.old.serving.now }
    ensures same { SameLists lists.old lists.new }
{
    let frames = geometry.frames();
    let lru = replay_keys::<Lru, K>((), geometry, keys, lists.slots, lists.held).unwrap();
    let fifo = replay_keys::<Fifo, K>((), geometry, keys, lists.slots, lists.held).unwrap();
    let clock = replay_keys::<Clock, K>((), geometry, keys, lists.slots, lists.held).unwrap();
    let min = fewest_of_keys(frames, keys, lists);
    Row {
        frames: frames as u8,
        lru,
        fifo,
        clock,
        min,
    }
}
