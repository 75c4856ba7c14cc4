// What several groups of tests use.
ghost use Rattle.std.specs.Prelude.{◌↔◌, IsTrue, IsOk};

use base::{Geometry, Key, Refusal, Sector};
use index::Slot;
use planning::replay_keys;
use policy::{Clock, Fifo, Lru, Policy};
use std::alloc::{AllocError, Global};
use std::fmt::{Debug, Display};
use std::test::Fail;

// An error where a condition does not hold. What a test calls uses this and the next, and only the test itself ends the run:
// a function that may end the run owes none of what its contract promises.
pub fn check(holds: bool) -> Result<(), Fail>
    ensures { IsOk result ↔ IsTrue holds }
{
    if holds {
        Ok(())
    } else {
        Err(Fail::new("a condition does not hold"))
    }
}

// An error where two values differ.
pub fn check_eq<T: PartialEq + Debug + Drop>(found: T, expected: T) -> Result<(), Fail>
    ensures { IsOk result ↔ IsTrue (T.eq found expected) }
{
    if found == expected {
        Ok(())
    } else {
        Err(Fail::new(format_args!("{found:?}, and not {expected:?}")))
    }
}

// An error where a value is printed as another text.
pub fn check_shown<T: Display + Drop>(heap: Global, value: T, text: &str) -> Result<(), Fail> {
    let shown = format!(in heap; "{value}")?;
    check_eq(shown.as_str(), text)
}

pub fn sectors_of(heap: Global, numbers: &[u32]) -> Result<Vec<Sector>, AllocError> {
    numbers
        .iter()
        .map(|number| Sector { number: *number })
        .collect(heap)
}

// So many sectors, all different.
pub fn different_sectors(heap: Global, count: u32) -> Result<Vec<Sector>, AllocError> {
    (0..count).map(|number| Sector { number }).collect(heap)
}

// Whether every place of a list is as it was filled.
pub fn has_fill<T: PartialEq>(list: &[T], fill: &T) -> bool {
    list.iter().all(|item| *item == *fill)
}

// What a replay on so many frames fetches.
fn fetches_of<P: Policy + Drop, K: Key>(
    setting: P::Setting,
    frames: usize,
    keys: &[K],
    slots: &mut [Slot<K>],
) -> Result<u64, Refusal>
where
    P::Setting: Drop,
{
    let geometry = Geometry::new(frames, 0)?;
    replay_keys::<P, K>(setting, &geometry, keys, slots, &mut [0; 64])
}

// Numbers of frames, and of the touches of `anomaly_touches` what LRU, FIFO and CLOCK fetch on them and the fewest fetches.
pub const FETCHES: [(usize, [u64; 3], u64); 6] = [
    (1, [12, 12, 12], 12),
    (2, [12, 12, 12], 9),
    (3, [10, 9, 9], 7),
    (4, [8, 10, 10], 6),
    (8, [5, 5, 5], 5),
    (64, [5, 5, 5], 5),
];

// What LRU, FIFO and CLOCK fetch on so many frames.
pub fn counts_of<K: Key>(
    frames: usize,
    keys: &[K],
    slots: &mut [Slot<K>],
) -> Result<[u64; 3], Refusal> {
    let lru = fetches_of::<Lru, K>((), frames, keys, slots)?;
    let fifo = fetches_of::<Fifo, K>((), frames, keys, slots)?;
    let clock = fetches_of::<Clock, K>((), frames, keys, slots)?;
    Ok([lru, fifo, clock])
}
