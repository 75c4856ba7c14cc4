// The index with both kinds of keys.
ghost use Rattle.index.specs.Slots.{SoundIndex};

use crate::helpers::check_eq;
use base::{Key, Refusal, Sector, VolumeKey};
use index::{Entry, Index, Slot};
use std::test::Fail;

// A call with a key, and what it answers.
enum Call {
    Put(u32, Result<(), Refusal>),
    Find(Option<u32>),
    Remove(Option<u32>),
}

fn check_call<K: Key>(index: &mut Index<'_, K>, key: K, call: &Call) -> Result<(), Fail>
    requires { SoundIndex K.Key.code K.Key.spread index.old }
    ensures { SoundIndex K.Key.code K.Key.spread index.new }
{
    match call {
        Call::Put(number, answer) => check_eq(index.put(key, *number), *answer),
        Call::Find(answer) => check_eq(index.find(&key), *answer),
        Call::Remove(answer) => check_eq(index.remove(&key), *answer),
    }
}

// Makes calls, each with the key at a place of the list, on an empty index, which has so many keys in the end.
fn check_calls<K: Key>(
    slots: &mut [Slot<K>],
    keys: &[K],
    calls: &[(usize, Call)],
    len: usize,
) -> Result<(), Fail> {
    let mut index = Index::new(slots);
    for (place, call) in calls {
        let Some(key) = keys.get(*place) else {
            return Err(Fail::new("there is no such key"));
        };
        check_call(&mut index, *key, call)?;
    }
    check_eq(index.len(), len)
}

const TWO_KEYS: [(usize, Call); 12] = [
    (0, Call::Find(None)),
    (0, Call::Put(5, Ok(()))),
    (0, Call::Find(Some(5))),
    (1, Call::Find(None)),
    (0, Call::Put(6, Ok(()))),
    (1, Call::Put(7, Ok(()))),
    (0, Call::Find(Some(6))),
    (1, Call::Find(Some(7))),
    (0, Call::Remove(Some(6))),
    (0, Call::Find(None)),
    (1, Call::Find(Some(7))),
    (0, Call::Remove(None)),
];

#[test]
fn keys_come_and_go() -> Result<(), Fail> {
    let ends = [0, 4294967295].map(|number| Sector { number });
    check_calls(&mut [None; 2], &ends, &TWO_KEYS, 1)?;
    // keys that differ in the unit only, and in the sector number only
    let key = VolumeKey::new(1, 7);
    let mut slots = [Some(Entry { key, number: 3 }); 8];
    check_calls(&mut slots, &[key, VolumeKey::new(2, 7)], &TWO_KEYS, 1)?;
    check_calls(&mut slots, &[key, VolumeKey::new(1, 8)], &TWO_KEYS, 1)
}

// Four keys over three slots.
const FULL: [(usize, Call); 12] = [
    (0, Call::Put(1, Ok(()))),
    (1, Call::Put(2, Ok(()))),
    (2, Call::Put(3, Ok(()))),
    (3, Call::Put(4, Err(Refusal::IndexFull))),
    (3, Call::Find(None)),
    // a key that is there is replaced all the same
    (0, Call::Put(5, Ok(()))),
    (1, Call::Remove(Some(2))),
    (3, Call::Put(4, Ok(()))),
    (0, Call::Find(Some(5))),
    (1, Call::Find(None)),
    (2, Call::Find(Some(3))),
    (3, Call::Find(Some(4))),
];

const NO_SLOTS: [(usize, Call); 3] = [
    (0, Call::Put(1, Err(Refusal::IndexFull))),
    (0, Call::Find(None)),
    (0, Call::Remove(None)),
];

#[test]
fn full_index_refuses_new_sectors() -> Result<(), Fail> {
    let keys = [1, 2, 3, 4].map(|number| Sector { number });
    check_calls(&mut [None; 3], &keys, &FULL, 3)?;
    check_calls(&mut [], &keys, &NO_SLOTS, 0)
}

#[test]
fn full_index_refuses_new_volume_keys() -> Result<(), Fail> {
    let keys = [(0, 7), (1, 7), (1, 8), (255, 7)].map(|(asu, lba)| VolumeKey::new(asu, lba));
    check_calls(&mut [None; 3], &keys, &FULL, 3)?;
    check_calls(&mut [], &keys, &NO_SLOTS, 0)
}
