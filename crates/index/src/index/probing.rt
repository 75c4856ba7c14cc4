// Where a key stands, and how a slot is freed. The way of a key leads from its home upward, slot by slot
// and from the last on to the first, and ends at its own slot or at a free one.
ghost use Rattle.std.specs.Prelude.{◌≡◌, ◌<◌, ◌≤◌, length};
ghost use Rattle.index.specs.Slots.{scattered, home, AllReached};
ghost use Rattle.index.specs.Probes.{stop_in, Probed, Stops, StopsBetween, Vacated};

use crate::ring::steps;
use crate::slot::Slot;
use base::{Key, next_in_ring};

// What looking for a key comes to: its slot, or the free slot to put it into, or neither in a full table.
#[derive(Clone, Copy)]
pub enum Probe {
    Found { place: usize, number: u32 },
    Vacant(usize),
    Full,
}

// A spread scattered over its 32 bits. The spreads of sectors and of volume keys are products with a constant: keys at equal distances have
// spreads at equal distances, which for some distances lie close together. Squared, they seldom do.
fn scattered(spread: u32) -> u32
    ensures { result ≡ scattered spread }
{
    spread.wrapping_mul(spread.wrapping_mul(2).wrapping_add(0x9e37_79b9))
}

// The place from which a key is looked for: a fraction of the places, which takes less than the remainder of a division.
fn home_of<K: Key>(slots: &[Slot<K>], key: &K) -> usize
    ensures { result ≡ home K.Key.spread (length slots.now) key.now }
{
    ((u128::from(scattered(key.spread())) * slots.len() as u128) >> 32) as usize
}

// Where a search stops: at a free slot, or at one that holds the key, with its number.
#[derive(Clone, Copy)]
struct Stop {
    place: usize,
    number: Option<u32>,
}

// Whether a search for a code stops at a slot, and with which number: it passes a slot that holds another key.
fn stop_at<K: Key>(slot: &Slot<K>, code: u64) -> Option<Option<u32>>
    ensures { result ≡ stop_in K.Key.code code slot.now }
{
    match slot {
        None => Some(None),
        Some(entry) if entry.key.code() == code => Some(Some(entry.number)),
        Some(_) => None,
    }
}

// The first place from one up to another at which the search for a code stops. What stands there is answered with it, so that no
// slot is looked at twice.
fn stop_between<K: Key>(slots: &[Slot<K>], code: u64, from: usize, to: usize) -> Option<Stop>
    requires { (from ≤ to) × (to ≤ length slots.now) }
    ensures { StopsBetween K.Key.code slots.now code from to result }
{
    for place in from..to {
        if let Some(number) = stop_at(&slots[place], code) {
            return Some(Stop { place, number });
        }
    }
    None
}

// The first place on the way of a key whose slot is free or holds the key.
fn stop_of<K: Key>(slots: &[Slot<K>], key: &K) -> Option<Stop>
    ensures { Stops K.Key.code K.Key.spread slots.now key.now result }
{
    let code = key.code();
    let home = home_of(slots, key);
    if let Some(stop) = stop_between(slots, code, home, slots.len()) {
        return Some(stop);
    }
    stop_between(slots, code, 0, home)
}

// Looks for a key: the slot that holds it, else the first free slot on its way.
pub fn look_up<K: Key>(slots: &[Slot<K>], key: &K) -> Probe
    requires { AllReached K.Key.spread slots.now }
    ensures { Probed K.Key.code K.Key.spread slots.now key.now result }
{
    let Some(Stop { place, number }) = stop_of(slots, key) else {
        return Probe::Full;
    };
    match number {
        None => Probe::Vacant(place),
        Some(number) => Probe::Found { place, number },
    }
}

// Frees a slot, and closes the gap: a later key whose way leads across the free slot moves into it, which frees
// its own. This ends at a slot that was free before, or in a full table after a whole round without a move,
// which can be more than one round in all.
pub fn vacate<K: Key>(slots: &mut [Slot<K>], place: usize)
    requires within { place < length slots.old }
    requires reached { AllReached K.Key.spread slots.old }
    ensures { Vacated K.Key.spread slots.old place slots.new }
{
    let places = slots.len();
    slots[place] = None;
    let mut hole = place;
    let mut last = place;
    loop {
        let next = next_in_ring(places, last);
        if next == hole {
            return;
        }
        let Some(entry) = slots[next] else {
            return;
        };
        let home = home_of(slots, &entry.key);
        if steps(places, home, hole) < steps(places, home, next) {
            slots.swap(hole, next);
            hole = next;
        }
        last = next;
    }
}
