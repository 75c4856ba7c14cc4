// The slots, and how many of them are taken. A key is looked for slot by slot from a home that its spread gives.
// A removed key leaves a free slot and no mark, so that looking for a key stays short however many came and went.
use crate::slot::Slot;

mod calls;
mod probing;
mod size;
mod steps;

#[derive(Drop)]
pub struct Index<'a, K> {
    slots: &'a mut [Slot<K>],
    taken: usize,
}
