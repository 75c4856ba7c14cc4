// Curves of lists of keys and of traces, each with the distances that it comes from.
use crate::anomaly_touches;
use crate::helpers::*;
use crate::trace_helpers::ANOMALY_TRACE;
use base::{Geometry, Key, Sector, VolumeKey};
use curve::{Point, curve_of_trace, lru_curve};
use index::Slot;
use planning::replay_keys;
use policy::Lru;
use std::alloc::{AllocError, Global};
use std::test::Fail;

// A value, so many times.
type Run<T> = (usize, T);

fn list_of<T: Copy>(heap: Global, runs: &[Run<T>]) -> Result<Vec<T>, AllocError> {
    let mut list = Vec::new(heap);
    for (times, value) in runs {
        for _ in 0..*times {
            list.push(*value)?;
        }
    }
    Ok(list)
}

// Two places behind what is written, as they are before and after.
const STAYING: Run<u8> = (2, 77);

const STAYING_COUNTS: Run<u64> = (2, 77);

fn check_curve<K: Key>(
    heap: Global,
    keys: &[K],
    distances: &[Run<u8>],
    counts: &[Run<u64>],
) -> Result<(), Fail> {
    let distances = list_of(heap, distances)?;
    let counts = list_of(heap, counts)?;
    let mut found = vec![in heap; 77; distances.len()]?;
    let mut found_counts = vec![in heap; 77; counts.len()]?;
    check_eq(lru_curve(keys, &mut found, &mut found_counts), Ok(()))?;
    check_eq(&found[..], &distances[..])?;
    check_eq(&found_counts[..], &counts[..])
}

// The distances of `anomaly_touches`, and the fetches on 1 frame, on 2 and on.
const ANOMALY_DISTANCES: [Run<u8>; 6] = [(4, 64), (2, 3), (1, 64), (2, 2), (3, 4), STAYING];

const ANOMALY_COUNTS: [Run<u64>; 5] = [(2, 12), (1, 10), (1, 8), (60, 5), STAYING_COUNTS];

// How many sectors are touched in a round and once more, the distances and the fetches.
const ROUNDS: [(u32, &'static [Run<u8>], &'static [Run<u64>]); 3] = [
    (0, &[STAYING], &[(64, 0), STAYING_COUNTS]),
    (
        64,
        &[(64, 64), (64, 63), STAYING],
        &[(63, 128), (1, 64), STAYING_COUNTS],
    ),
    (65, &[(130, 64), STAYING], &[(64, 130), STAYING_COUNTS]),
];

// Units and sector numbers.
const PAIRS: [(u8, u32); 7] = [(0, 1), (1, 1), (0, 1), (1, 1), (1, 2), (0, 2), (0, 1)];

// As volume keys, and as sectors, which have no unit.
fn check_both_kinds(heap: Global) -> Result<(), Fail> {
    let volume_keys = PAIRS.map(|(asu, lba)| VolumeKey::new(asu, lba));
    let distances = [(2, 64), (2, 1), (2, 64), (1, 3), STAYING];
    let counts = [(1, 7), (2, 5), (61, 4), STAYING_COUNTS];
    check_curve(heap, &volume_keys, &distances, &counts)?;
    let sectors = PAIRS.map(|(_, number)| Sector { number });
    let distances = [(1, 64), (3, 0), (1, 64), (1, 0), (1, 1), STAYING];
    let counts = [(1, 3), (63, 2), STAYING_COUNTS];
    check_curve(heap, &sectors, &distances, &counts)
}

#[test]
fn curves_count_far_touches(rt: HostRuntime) -> Result<(), Fail> {
    let heap = rt.alloc();
    let anomaly = sectors_of(heap, &anomaly_touches())?;
    check_curve(heap, &anomaly, &ANOMALY_DISTANCES, &ANOMALY_COUNTS)?;
    for (sectors, distances, counts) in &ROUNDS {
        let keys = different_sectors(heap, *sectors)?.repeat(heap, 2)?;
        check_curve(heap, &keys, *distances, *counts)?;
    }
    check_both_kinds(heap)
}

// The squares of 0 to 399 modulo 131: 66 different numbers, forth and back, at every distance.
fn squares(heap: Global) -> Result<Vec<Sector>, AllocError> {
    (0..400u32)
        .map(|root| Sector {
            number: root.wrapping_mul(root) % 131,
        })
        .collect(heap)
}

// Compares the fetches on 1 frame and on more with those of a replay each.
fn check_replays(keys: &[Sector], slots: &mut [Slot<Sector>], counts: &[u64]) -> Result<(), Fail> {
    for (place, count) in counts.iter().enumerate() {
        let geometry = Geometry::new(place + 1, 0)?;
        let fetches = replay_keys::<Lru, Sector>((), &geometry, keys, slots, &mut [0; 64])?;
        check_eq((place, *count), (place, fetches))?;
    }
    Ok(())
}

#[test]
fn curves_agree_with_replays(rt: HostRuntime) -> Result<(), Fail> {
    let keys = squares(rt.alloc())?;
    let mut counts = [0; 64];
    check_eq(lru_curve(&keys, &mut [0; 400], &mut counts), Ok(()))?;
    check_replays(&keys, &mut [None; 400], &counts)
}

#[test]
fn traces_have_points(rt: HostRuntime) -> Result<(), Fail> {
    let distances = list_of(rt.alloc(), &ANOMALY_DISTANCES)?;
    let counts = list_of(rt.alloc(), &ANOMALY_COUNTS)?;
    let mut found = [77; 14];
    let mut keys = [VolumeKey::new(9, 9); 12];
    let points = curve_of_trace(ANOMALY_TRACE.as_bytes(), &mut keys, &mut found)?;
    check_eq(&found[..], &distances[..])?;
    for (place, point) in points.iter().enumerate() {
        let lru = counts.get(place).copied();
        check_eq((point.frames as usize, Some(point.lru)), (place + 1, lru))?;
    }
    let point = Point {
        frames: 7,
        lru: 12345,
    };
    check_shown(rt.alloc(), point, "7,12345")
}
