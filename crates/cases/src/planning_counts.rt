// The fewest fetches and forecasts, and what a trace costs.
use crate::anomaly_touches;
use crate::helpers::*;
use crate::trace_helpers::ANOMALY_TRACE;
use base::{Key, Refusal, Sector, VolumeKey};
use index::Slot;
use planning::{Forecast, Lists, Plan, forecast_touches, plan_touches};
use policy::{Clock, Fifo, Lru, Policy};
use std::test::Fail;
use trace::read_trace;

// The fewest fetches on so many frames; the serving frames are written.
fn fewest_of<K: Key>(
    keys: &[K],
    frames: usize,
    slots: &mut [Slot<K>],
    serving: &mut [u8],
) -> Result<u64, Refusal> {
    let mut lists = Lists {
        slots,
        next: &mut [0; 12],
        held: &mut [0; 64],
        serving,
    };
    Ok(plan_touches(keys, 64, frames, &mut lists)?.fetches)
}

// The frames that serve twelve touches, for each number of frames in `FETCHES`; two places more stay as they are.
const SERVING: [[u8; 14]; 6] = [
    [0, 0, 0, 0, 0, 0, 0, 0, 0, 0, 0, 0, 77, 77],
    [0, 1, 1, 1, 0, 1, 1, 0, 0, 0, 0, 1, 77, 77],
    [0, 1, 2, 2, 0, 1, 2, 0, 1, 0, 0, 2, 77, 77],
    [0, 1, 2, 3, 0, 1, 3, 0, 1, 2, 0, 3, 77, 77],
    [0, 1, 2, 3, 0, 1, 4, 0, 1, 2, 3, 4, 77, 77],
    [0, 1, 2, 3, 0, 1, 4, 0, 1, 2, 3, 4, 77, 77],
];

#[test]
fn schedules_have_the_fewest_fetches(rt: HostRuntime) -> Result<(), Fail> {
    let keys = sectors_of(rt.alloc(), &anomaly_touches())?;
    for ((frames, _, fewest), expected) in FETCHES.iter().zip(&SERVING) {
        let mut serving = [77; 14];
        let fetches = fewest_of(&keys, *frames, &mut [None; 12], &mut serving)?;
        check_eq((fetches, serving), (*fewest, *expected))?;
    }
    Ok(())
}

// What is forecast for four frames, by a schedule on a smaller number of frames.
fn forecast_of<P: Policy + Drop>(
    setting: P::Setting,
    keys: &[Sector],
    smaller: usize,
    held: &mut [u32],
) -> Result<Forecast, Refusal>
where
    P::Setting: Drop,
{
    let mut lists = Lists {
        slots: &mut [None; 12],
        next: &mut [0; 12],
        held,
        serving: &mut [0; 12],
    };
    forecast_touches::<P, Sector>(setting, keys, 4, smaller, &mut lists)
}

#[test]
fn forecasts_have_all_three_counts(rt: HostRuntime) -> Result<(), Fail> {
    let keys = sectors_of(rt.alloc(), &anomaly_touches())?;
    let plan = Plan {
        fetches: 9,
        ceiling: 16,
    };
    let lru = forecast_of::<Lru>((), &keys, 2, &mut [0; 4]);
    check_eq(lru, Ok(Forecast { plan, fetches: 8 }))?;
    let fifo = forecast_of::<Fifo>((), &keys, 2, &mut [0; 4]);
    check_eq(fifo, Ok(Forecast { plan, fetches: 10 }))?;
    let clock = forecast_of::<Clock>((), &keys, 2, &mut [0; 4]);
    check_eq(clock, Ok(Forecast { plan, fetches: 10 }))?;
    let few_places = forecast_of::<Lru>((), &keys, 2, &mut [0; 3]);
    check_eq(few_places, Err(Refusal::TooFewPlaces))?;
    let no_frames = forecast_of::<Lru>((), &keys, 0, &mut [0; 5]);
    check_eq(no_frames, Err(Refusal::SmallerFrameCount))?;
    let more_frames = forecast_of::<Lru>((), &keys, 5, &mut [0; 5]);
    check_eq(more_frames, Err(Refusal::SmallerFrameCount))
}

fn check_rows(
    keys: &[VolumeKey],
    slots: &mut [Slot<VolumeKey>],
    serving: &mut [u8],
) -> Result<(), Fail> {
    for (frames, counts, fewest) in &FETCHES {
        check_eq(counts_of(*frames, keys, slots)?, *counts)?;
        check_eq(fewest_of(keys, *frames, slots, serving)?, *fewest)?;
    }
    Ok(())
}

#[test]
fn traces_have_their_counts(rt: HostRuntime) -> Result<(), Fail> {
    let mut keys = [VolumeKey::new(9, 9); 12];
    check_eq(read_trace(ANOMALY_TRACE.as_bytes(), &mut keys), Ok(12))?;
    check_rows(&keys, &mut [None; 12], &mut [0; 12])
}
