// The policies by themselves, and the counts of the frame machine.
use crate::anomaly_touches;
use crate::helpers::*;
use base::{Geometry, Refusal};
use policy::{Clock, Fifo, Lru, Policy};
use std::test::Fail;

// Uses before and after the two places of a policy with two frames.
fn check_uses<P: Policy>(policy: &mut P) -> Result<(), Fail> {
    check_eq(policy.use_frame(0), Err(Refusal::FrameNotFilled))?;
    check_eq(policy.place(), 0)?;
    check_eq(policy.use_frame(0), Ok(()))?;
    check_eq(policy.use_frame(1), Err(Refusal::FrameNotFilled))?;
    check_eq(policy.place(), 1)?;
    check_eq(policy.use_frame(1), Ok(()))?;
    check_eq(policy.use_frame(2), Err(Refusal::FrameNotFilled))
}

#[test]
fn use_needs_a_filled_frame(rt: HostRuntime) -> Result<(), Fail> {
    let geometry = Geometry::new(2, 0)?;
    check_uses(&mut Lru::new((), &geometry))?;
    check_uses(&mut Fifo::new((), &geometry))?;
    check_uses(&mut Clock::new((), &geometry))
}

// The frames of a full policy's next three places, with a use before the first and one before the second.
fn check_places<P: Policy>(policy: &mut P, expected: [usize; 3]) -> Result<(), Fail> {
    for frame in 0..3 {
        check_eq(policy.place(), frame)?;
    }
    check_eq(policy.use_frame(0), Ok(()))?;
    let first = policy.place();
    check_eq(policy.use_frame(1), Ok(()))?;
    let second = policy.place();
    check_eq([first, second, policy.place()], expected)
}

#[test]
fn full_places_follow_the_rules(rt: HostRuntime) -> Result<(), Fail> {
    let geometry = Geometry::new(3, 0)?;
    check_places(&mut Lru::new((), &geometry), [1, 2, 0])?;
    check_places(&mut Fifo::new((), &geometry), [0, 1, 2])?;
    check_places(&mut Clock::new((), &geometry), [0, 2, 1])
}

#[test]
fn replays_count_fetches(rt: HostRuntime) -> Result<(), Fail> {
    let keys = sectors_of(rt.alloc(), &anomaly_touches())?;
    for (frames, expected, _) in &FETCHES {
        let counts = counts_of(*frames, &keys, &mut [None; 12])?;
        check_eq(counts, *expected)?;
    }
    Ok(())
}
