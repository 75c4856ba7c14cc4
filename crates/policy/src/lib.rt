// Policies that choose the frame for a fetched key: the trait with its law, and LRU, FIFO and CLOCK.
#![tactic(auto)]

mod clock;
mod fifo;
mod lru;
mod policy;

pub use clock::Clock;
pub use fifo::Fifo;
pub use lru::Lru;
pub use policy::Policy;
