// A hash index of keys, each with a number, over slots that the caller lends.
#![tactic(auto)]

mod index;
mod ring;
mod slot;

pub use index::Index;
pub use slot::{Entry, Slot};
