// What every layer shares: refusals, the geometry of a cache, keys, and places in a ring.
#![tactic(auto)]

mod geometry;
mod key;
mod limits;
mod mix;
mod refusal;
mod ring;

pub use geometry::Geometry;
pub use key::{Key, Sector, VolumeKey};
pub use limits::{MAX_FRAMES, MAX_PINS, MAX_TEXT_BYTES, MAX_TOUCHES, SECTOR_BYTES};
pub use refusal::Refusal;
pub use ring::next_in_ring;
