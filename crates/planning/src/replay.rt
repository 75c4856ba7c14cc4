// The replay of a list of keys by a policy: what the frame machine fetches.
ghost use Rattle.std.specs.Prelude.{◌≡◌, ◌≤◌, false, length, is_ok, Ok};
ghost use Rattle.base.specs.Keys.{codes_of};
ghost use Rattle.base.specs.Geometries.{frames_of};
ghost use Rattle.base.specs.declared.limits.TheConstants.{MAX_FRAMES, MAX_TOUCHES};
ghost use Rattle.policy.specs.Machine.{fetches};
ghost use Rattle.policy.specs.Shape.{Running};
ghost use Rattle.planning.specs.Frames.{Unfilled, SlotsFor};
ghost use Rattle.planning.specs.Replay.{replayed, lists_answer, idle};

use crate::held::HeldKeys;
use base::{Geometry, Key, MAX_TOUCHES, Refusal};
use index::Slot;
use policy::Policy;

// Refuses a list that is too long, then lists of the caller's that have too few places.
fn check_lists(touches: usize, slots: usize, frames: usize, held: usize) -> Result<(), Refusal>
    ensures { result ≡ lists_answer touches slots frames held }
{
    if touches > MAX_TOUCHES {
        return Err(Refusal::ListTooLong);
    }
    if slots < touches || held < frames {
        return Err(Refusal::TooFewPlaces);
    }
    Ok(())
}

// Touches the keys one after another, and counts the fetches.
fn count_fetches<P: Policy, K: Key>(policy: &mut P, keys: &[K], frames: &mut HeldKeys<'_, K>) -> u64
    requires runs { Running P.Policy.rules (P.Policy.rules.frames (P.Policy.model policy.old)) (idle (P.Policy.model policy.old)) }
    requires places { (P.Policy.rules.frames (P.Policy.model policy.old) ≤ MAX_FRAMES)
        × (P.Policy.rules.frames (P.Policy.model policy.old) ≡ length frames.old.held.now) }
    requires empty { Unfilled K.Key.code K.Key.spread frames.old }
    requires slots { SlotsFor (length keys.now) frames.old }
    requires few { length keys.now ≤ MAX_TOUCHES }
    ensures { result ≡ fetches P.Policy.rules (idle (P.Policy.model policy.old)) (codes_of K.Key keys.now) }
{
    let mut fetches = 0;
    for (place, key) in keys.iter().enumerate() {
        match frames.frame_of(key) {
            // A frame that holds a key is filled, so the use is not refused.
            Some(frame) => policy.use_frame(frame).unwrap(),
            None => {
                let frame = policy.place();
                frames.hold(keys, frame, place);
                fetches += 1;
            }
        }
    }
    fetches
}

pub fn replay<P: Policy + Drop, K: Key>(
    setting: P::Setting,
    geometry: &Geometry,
    keys: &[K],
    slots: &mut [Slot<K>],
    held: &mut [u32],
) -> Result<u64, Refusal>
where
    P::Setting: Drop,
    ensures answer { result ≡ replayed P.Policy.rules setting (frames_of geometry.now) (codes_of K.Key keys.now)
        (length slots.old) (length held.old) }
    ensures slots { is_ok result ≡ false → slots.new ≡ slots.old }
    ensures held { is_ok result ≡ false → held.new ≡ held.old }
{
    let frames = geometry.frames();
    check_lists(keys.len(), slots.len(), frames, held.len())?;
    let mut policy = P::new(setting, geometry);
    let mut keys_held = HeldKeys::new(slots, &mut held[..frames]);
    Ok(count_fetches(&mut policy, keys, &mut keys_held))
}
