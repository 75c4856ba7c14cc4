// Where each key of a list is touched again.
ghost use Rattle.std.specs.Prelude.{◌≤◌, length};
ghost use Rattle.base.specs.declared.limits.TheConstants.{MAX_TOUCHES};
ghost use Rattle.planning.specs.Chosen.{NextTouches};

use base::Key;
use index::{Index, Slot};

// Writes for each touch the place of its key's next touch, or the list's length where there is none. The pass goes backward, and
// an index over the slots has the earliest place that it has seen of each key.
pub fn next_touches<K: Key>(keys: &[K], slots: &mut [Slot<K>], next: &mut [u32])
    requires { (length keys.now ≤ MAX_TOUCHES) × ((length keys.now ≤ length slots.old) × (length keys.now ≤ length next.old)) }
    ensures { NextTouches K.Key.code keys.now next.new }
{
    let mut index = Index::new(slots);
    let touches = keys.len();
    for place in (0..touches).rev() {
        next[place] = index.find(&keys[place]).unwrap_or(touches as u32);
        // There is a slot for each key, so the index takes it.
        index.put(keys[place], place as u32).unwrap();
    }
}
