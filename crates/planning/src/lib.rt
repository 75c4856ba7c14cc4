// What a list of touches costs: the replay of a policy, and the fewest fetches that any schedule needs.
#![tactic(auto)]

mod choose;
mod forecast;
mod held;
mod lists;
mod minimum;
mod next;
mod plan;
mod replay;

pub use forecast::{Forecast, forecast_touches};
pub use lists::{Lists, Places};
pub use plan::{Plan, plan_touches};
pub use replay::replay as replay_keys;
