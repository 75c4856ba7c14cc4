// A plan beside what a policy fetches: the number that the planner relies on, and the count that it bounds.
use crate::plan::Plan;

mod calls;

pub use calls::forecast_touches;

#[derive(Clone, Copy, PartialEq, Eq, Debug)]
pub struct Forecast {
    pub plan: Plan,
    pub fetches: u64,
}
