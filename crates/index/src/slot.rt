// One place of an index.

// A key, and the number that is stored with it.
#[derive(Clone, Copy, PartialEq, Eq, Debug)]
pub struct Entry<K> {
    pub key: K,
    pub number: u32,
}

// None is a free slot.
pub type Slot<K> = Option<Entry<K>>;
