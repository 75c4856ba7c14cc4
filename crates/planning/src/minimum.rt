// MIN's schedule: the frame that serves each touch, and how many touches are fetches.
ghost use Rattle.std.specs.Prelude.{◌≡◌, ◌≤◌, [], ◌++◌, length, drop};
ghost use Rattle.base.specs.Keys.{codes_of};
ghost use Rattle.base.specs.declared.limits.TheConstants.{MAX_FRAMES, MAX_TOUCHES};
ghost use Rattle.planning.specs.Chosen.{NextTouches};
ghost use Rattle.planning.specs.Frames.{Unfilled, SlotsFor};
ghost use Rattle.planning.specs.Minimum.{min_serves, min_fetches};

use crate::held::HeldKeys;
use base::Key;

// `next` has for each touch where its key is touched again.
pub fn serve_touches<K: Key>(
    keys: &[K],
    frames: &mut HeldKeys<'_, K>,
    next: &[u32],
    serving: &mut [u8],
) -> u64
    requires size { (1 ≤ length frames.old.held.now) × (length frames.old.held.now ≤ MAX_FRAMES) }
    requires empty { Unfilled K.Key.code K.Key.spread frames.old }
    requires slots { SlotsFor (length keys.now) frames.old }
    requires few { (length keys.now ≤ MAX_TOUCHES) × ((length keys.now ≤ length next.now) × (length keys.now ≤ length serving.old)) }
    requires next { NextTouches K.Key.code keys.now next.now }
    ensures answer { result ≡ min_fetches (length frames.old.held.now) [] (codes_of K.Key keys.now) }
    ensures serving { serving.new ≡ min_serves (length frames.old.held.now) [] (codes_of K.Key keys.now)
        ++ drop (length keys.now) serving.old }
{
    let mut fetches = 0;
    for (place, key) in keys.iter().enumerate() {
        let frame = match frames.frame_of(key) {
            Some(frame) => {
                frames.touch(frame, place);
                frame
            }
            None => {
                let frame = frames.choose(next);
                frames.hold(keys, frame, place);
                fetches += 1;
                frame
            }
        };
        serving[place] = frame as u8;
    }
    fetches
}
