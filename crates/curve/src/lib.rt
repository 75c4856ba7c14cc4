// What LRU fetches on each number of frames, from one pass over the touches: the distance at which each touch finds its key says on
// how many frames it is a fetch.
#![tactic(auto)]

mod counts;
mod curve;
mod distances;
mod point;
mod recency;

pub use curve::{curve_of_trace, lru_curve};
pub use point::{CURVE_HEADER, Point};
