// Planning and the replay at their limits: what is refused, and that a refusal leaves the lists as they were.
use crate::anomaly_touches;
use crate::helpers::*;
use base::{Geometry, Refusal, Sector};
use index::{Entry, Slot};
use planning::{Lists, plan_touches, replay_keys};
use policy::Lru;
use std::alloc::Global;
use std::test::Fail;

// What every place of the lists has before a call.
const FILL_SLOT: Slot<Sector> = Some(Entry {
    key: Sector { number: 7 },
    number: 7,
});

const FILL: u32 = 7;

const FILL_FRAME: u8 = 7;

// The frames, the smaller number of frames, the places of the lists (slots, next touches, held keys, serving frames),
// and what is answered.
type Case = (usize, usize, [usize; 4], Result<(), Refusal>);

// Whether a plan is refused, and whether the lists are as before.
fn judge_plan(
    heap: Global,
    keys: &[Sector],
    case: &Case,
) -> Result<(Result<(), Refusal>, bool), Fail> {
    let (frames, smaller, [slots, next, held, serving], _) = *case;
    let mut slots = vec![in heap; FILL_SLOT; slots]?;
    let mut next = vec![in heap; FILL; next]?;
    let mut held = vec![in heap; FILL; held]?;
    let mut serving = vec![in heap; FILL_FRAME; serving]?;
    let mut lists = Lists {
        slots: &mut slots,
        next: &mut next,
        held: &mut held,
        serving: &mut serving,
    };
    let answer = plan_touches(keys, frames, smaller, &mut lists).map(|_| ());
    let is_kept = has_fill(lists.slots, &FILL_SLOT)
        && has_fill(lists.next, &FILL)
        && has_fill(lists.held, &FILL)
        && has_fill(lists.serving, &FILL_FRAME);
    Ok((answer, is_kept))
}

// An accepted plan uses its lists.
fn check_plans(heap: Global, keys: &[Sector], cases: &[Case]) -> Result<(), Fail> {
    for case in cases {
        let answer = case.3;
        check_eq(judge_plan(heap, keys, case)?, (answer, answer.is_err()))?;
    }
    Ok(())
}

const SHORT_LIST: [Case; 13] = [
    (0, 1, [12, 12, 64, 12], Err(Refusal::FrameCount)),
    (65, 1, [12, 12, 64, 12], Err(Refusal::FrameCount)),
    (0, 0, [0, 0, 0, 0], Err(Refusal::FrameCount)),
    (64, 64, [12, 12, 64, 12], Ok(())),
    (4, 2, [12, 12, 2, 12], Ok(())),
    (4, 2, [11, 12, 2, 12], Err(Refusal::TooFewPlaces)),
    (4, 2, [12, 11, 2, 12], Err(Refusal::TooFewPlaces)),
    (4, 2, [12, 12, 1, 12], Err(Refusal::TooFewPlaces)),
    (4, 2, [12, 12, 2, 11], Err(Refusal::TooFewPlaces)),
    (4, 0, [11, 12, 2, 12], Err(Refusal::TooFewPlaces)),
    (4, 0, [12, 12, 5, 12], Err(Refusal::SmallerFrameCount)),
    (4, 5, [12, 12, 5, 12], Err(Refusal::SmallerFrameCount)),
    (4, 4, [12, 12, 4, 12], Ok(())),
];

#[test]
fn plans_are_judged(rt: HostRuntime) -> Result<(), Fail> {
    let keys = sectors_of(rt.alloc(), &anomaly_touches())?;
    check_plans(rt.alloc(), &keys, &SHORT_LIST)
}

const LONGEST_LIST: [Case; 2] = [
    (4, 2, [4096, 4096, 2, 4096], Ok(())),
    (4, 2, [4095, 4096, 2, 4096], Err(Refusal::TooFewPlaces)),
];

const LONGER_LIST: [Case; 3] = [
    (4, 2, [4097, 4097, 2, 4097], Err(Refusal::ListTooLong)),
    (4, 0, [0, 0, 0, 0], Err(Refusal::ListTooLong)),
    (65, 2, [4097, 4097, 2, 4097], Err(Refusal::FrameCount)),
];

#[test]
fn plans_have_a_longest_list(rt: HostRuntime) -> Result<(), Fail> {
    let longest = different_sectors(rt.alloc(), 4096)?;
    check_plans(rt.alloc(), &longest, &LONGEST_LIST)?;
    let longer = different_sectors(rt.alloc(), 4097)?;
    check_plans(rt.alloc(), &longer, &LONGER_LIST)
}

// A replay on three frames with so many slots and places for held keys.
fn check_replay(
    heap: Global,
    keys: &[Sector],
    slots: usize,
    held: usize,
    expected: Result<(), Refusal>,
) -> Result<(), Fail> {
    let geometry = Geometry::new(3, 0)?;
    let mut slots = vec![in heap; FILL_SLOT; slots]?;
    let mut held = vec![in heap; FILL; held]?;
    let answer = replay_keys::<Lru, Sector>((), &geometry, keys, &mut slots, &mut held);
    check_eq(answer.map(|_| ()), expected)?;
    let is_kept = has_fill(&slots, &FILL_SLOT) && has_fill(&held, &FILL);
    check_eq(is_kept, expected.is_err())
}

#[test]
fn replays_are_judged(rt: HostRuntime) -> Result<(), Fail> {
    let heap = rt.alloc();
    let keys = sectors_of(heap, &anomaly_touches())?;
    check_replay(heap, &keys, 12, 3, Ok(()))?;
    check_replay(heap, &keys, 11, 3, Err(Refusal::TooFewPlaces))?;
    check_replay(heap, &keys, 12, 2, Err(Refusal::TooFewPlaces))?;
    let longest = different_sectors(heap, 4096)?;
    check_replay(heap, &longest, 4096, 3, Ok(()))?;
    check_replay(heap, &longest, 4095, 3, Err(Refusal::TooFewPlaces))?;
    let longer = different_sectors(heap, 4097)?;
    check_replay(heap, &longer, 4097, 3, Err(Refusal::ListTooLong))?;
    check_replay(heap, &longer, 0, 0, Err(Refusal::ListTooLong))
}
