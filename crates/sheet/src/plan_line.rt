// A plan as it is printed, with what each policy fetches.
use planning::Plan;

#[derive(Clone, Copy, PartialEq, Eq, Debug)]
pub struct PlanLine {
    pub frames: usize,
    pub smaller: usize,
    pub plan: Plan,
    pub lru: u64,
    pub fifo: u64,
    pub clock: u64,
}

// The names of its numbers, in the order in which they are printed.
pub const PLAN_HEADER: &str = "frames,smaller,MIN,ceiling,LRU,FIFO,CLOCK";

mod calls;
mod shown;

pub use calls::{plan_of_keys, plan_of_trace};
