// The index compared with a plain list, over many calls in a haphazard order.
ghost use Rattle.index.specs.Slots.{SoundIndex};

use crate::helpers::{check, check_eq};
use base::{Key, Refusal, Sector, VolumeKey};
use index::{Index, Slot};
use std::test::Fail;

const SLOTS: usize = 64;

const KEYS: usize = 96;

// Numbers in a haphazard order, the same in every run: a linear congruential generator of 64 bits.
#[derive(Drop)]
struct Random {
    state: u64,
}

impl Random {
    fn next(&mut self) -> u64 {
        self.state = self
            .state
            .wrapping_mul(6364136223846793005)
            .wrapping_add(1442695040888963407);
        self.state
    }
}

// A key, and its number if it has one.
type Pair<K> = (K, Option<u32>);

// How many keys the list has a number for.
fn count<K>(model: &[Pair<K>]) -> usize {
    model.iter().filter(|(_, number)| number.is_some()).count()
}

// Puts a key into both or takes it out of both; gives back what the index answers.
fn change<K: Key>(
    index: &mut Index<'_, K>,
    held: &mut Option<u32>,
    key: K,
    stored: Option<u32>,
    has_room: bool,
) -> Result<Result<(), Refusal>, Fail>
    requires { SoundIndex K.Key.code K.Key.spread index.old }
    ensures { SoundIndex K.Key.code K.Key.spread index.new }
{
    let Some(number) = stored else {
        check_eq(index.remove(&key), held.take())?;
        return Ok(Ok(()));
    };
    let expected = if has_room || held.is_some() {
        *held = stored;
        Ok(())
    } else {
        Err(Refusal::IndexFull)
    };
    check_eq(index.put(key, number), expected)?;
    Ok(expected)
}

// One call on both; gives back what the index answers.
fn compare<K: Key>(
    index: &mut Index<'_, K>,
    model: &mut [Pair<K>],
    random: u64,
    number: u32,
) -> Result<Result<(), Refusal>, Fail>
    requires { SoundIndex K.Key.code K.Key.spread index.old }
    ensures { SoundIndex K.Key.code K.Key.spread index.new }
{
    let has_room = count(model) < SLOTS;
    let place = (random >> 33) as usize % KEYS;
    check(place < model.len())?;
    let (key, mut held) = model[place];
    check_eq(index.find(&key), held)?;
    let stored = ((random >> 60) % 4 != 0).then_some(number);
    let answer = change(index, &mut held, key, stored, has_room)?;
    check_eq(index.find(&key), held)?;
    model[place] = (key, held);
    check_eq(index.len(), count(model))?;
    Ok(answer)
}

// Two thousand calls; answers how many of them the index refuses.
fn count_refused<K: Key>(slots: &mut [Slot<K>], model: &mut [Pair<K>]) -> Result<u32, Fail> {
    let mut index = Index::new(slots);
    let mut random = Random { state: 1 };
    let mut refused: u32 = 0;
    for number in 0..2000 {
        if compare(&mut index, model, random.next(), number)?.is_err() {
            refused = refused.saturating_add(1);
        }
    }
    Ok(refused)
}

#[test]
fn sectors_agree_with_a_list(rt: HostRuntime) -> Result<(), Fail> {
    let mut model = (0..KEYS as u32)
        .map(|number| (Sector { number }, None))
        .collect::<Vec<Pair<Sector>>>(rt.alloc())?;
    let refused = count_refused(&mut [None; SLOTS], &mut model)?;
    check_eq(refused, 168)
}

#[test]
fn volume_keys_agree_with_a_list(rt: HostRuntime) -> Result<(), Fail> {
    let mut model = (0..KEYS as u32)
        .map(|number| (VolumeKey::new((number % 3) as u8, number / 3), None))
        .collect::<Vec<Pair<VolumeKey>>>(rt.alloc())?;
    let refused = count_refused(&mut [None; SLOTS], &mut model)?;
    check_eq(refused, 168)
}
