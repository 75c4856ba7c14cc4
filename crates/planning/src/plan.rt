// What the planner gets: the fewest fetches on the smaller number of frames, and the ceiling made from them.
mod calls;

pub(crate) use calls::check_plan;
pub use calls::plan_touches;

#[derive(Clone, Copy, PartialEq, Eq, Debug)]
pub struct Plan {
    pub ceiling: u64,
    pub fetches: u64,
}
