// Planning: judges its numbers and lists, then runs MIN on the smaller number of frames.
ghost use Rattle.std.specs.Prelude.{◌≡◌, ◌<◌, ◌≤◌, false, [], ◌++◌, length, take, drop};
ghost use Rattle.std.specs.Prelude.{is_ok, IfOk};
ghost use Rattle.base.specs.Keys.{codes_of};
ghost use Rattle.base.specs.declared.limits.TheConstants.{MAX_FRAMES, MAX_TOUCHES};
ghost use Rattle.planning.specs.Bounds.{Optimal, ServingsAreSchedules};
ghost use Rattle.planning.specs.Chosen.{NextTouches};
ghost use Rattle.planning.specs.Minimum.{min_serves, min_fetches};
ghost use Rattle.planning.specs.Lists.{places, Unchanged, SameLists};
ghost use Rattle.planning.specs.Plan.{ceiling as ceiling_at, plan_answer, planned, answer_of, serving_after};

use super::Plan;
use crate::held::HeldKeys;
use crate::lists::{Lists, Places};
use crate::minimum::serve_touches;
use crate::next::next_touches;
use base::{Key, MAX_FRAMES, MAX_TOUCHES, Refusal};
use index::Slot;

// The ceiling on the fetches of so many frames, from the fetches of a schedule on a smaller number of frames.
#[tactic(auto, using(crate::proofs::Plans::product_fits, crate::proofs::Plans::ceiling_fits))]
fn ceiling(frames: u64, smaller: u64, fetches: u64) -> u64
    requires { (smaller ≤ frames) × ((frames ≤ MAX_FRAMES) × (fetches ≤ MAX_TOUCHES)) }
    ensures { result ≡ ceiling_at frames smaller fetches }
{
    frames * fetches / (frames - smaller + 1) + frames
}

// Refuses, in this order: the frames, the list's length, lists with too few places, the smaller number of frames.
// `held` is how many held-key places are needed.
pub fn check_plan(
    touches: usize,
    frames: usize,
    smaller: usize,
    held: usize,
    lent: Places,
) -> Result<(), Refusal>
    ensures { result ≡ plan_answer touches frames smaller held lent }
{
    if frames == 0 || frames > MAX_FRAMES {
        return Err(Refusal::FrameCount);
    }
    if touches > MAX_TOUCHES {
        return Err(Refusal::ListTooLong);
    }
    if !lent.suffice(touches, held) {
        return Err(Refusal::TooFewPlaces);
    }
    if smaller == 0 || smaller > frames {
        return Err(Refusal::SmallerFrameCount);
    }
    Ok(())
}

// MIN's fetches and its serving frames. The lists come one by one, since an index keeps its slots while the others are used.
fn run_min<K: Key>(
    keys: &[K],
    frames: usize,
    slots: &mut [Slot<K>],
    next: &[u32],
    held: &mut [u32],
    serving: &mut [u8],
) -> u64
    requires frames { (1 ≤ frames) × ((frames ≤ MAX_FRAMES) × (frames ≤ length held.old)) }
    requires few { (length keys.now ≤ MAX_TOUCHES) × ((length keys.now ≤ length slots.old)
        × ((length keys.now ≤ length next.now) × (length keys.now ≤ length serving.old))) }
    requires next { NextTouches K.Key.code keys.now next.now }
    ensures answer { result ≡ min_fetches frames [] (codes_of K.Key keys.now) }
    ensures serving { serving.new ≡ min_serves frames [] (codes_of K.Key keys.now) ++ drop (length keys.now) serving.old }
{
    let mut keys_held = HeldKeys::new(slots, &mut held[..frames]);
    serve_touches(keys, &mut keys_held, next, serving)
}

// The plan for a list of keys: `frames` of the machine that runs, and a schedule on the smaller number of frames.
pub fn plan_touches<K: Key>(
    keys: &[K],
    frames: usize,
    smaller: usize,
    lists: &mut Lists<'_, K>,
) -> Result<Plan, Refusal>
    ensures answer { result ≡ answer_of (planned (codes_of K.Key keys.now) frames smaller (places lists.old)) }
    ensures serving { lists.new.serving.now
        ≡ serving_after (planned (codes_of K.Key keys.now) frames smaller (places lists.old)) lists.old.serving.now }
    ensures optimal { IfOk result (λ p.
        Optimal smaller (codes_of K.Key keys.now) (take (length keys.now) lists.new.serving.now) p.fetches) }
    ensures schedules { ServingsAreSchedules }
    ensures refused { is_ok result ≡ false → Unchanged lists.old lists.new }
    ensures same { SameLists lists.old lists.new }
{
    check_plan(keys.len(), frames, smaller, smaller, lists.places())?;
    next_touches(keys, lists.slots, lists.next);
    let next = &mut *lists.next;
    let fetches = run_min(keys, smaller, lists.slots, next, lists.held, lists.serving);
    let ceiling = ceiling(frames as u64, smaller as u64, fetches);
    Ok(Plan { ceiling, fetches })
}
