// A write-back cache of any disk, by any policy.
#![tactic(auto)]

mod as_disk;
mod cache;
mod run;
mod set_up;
mod slip;
mod store;

pub use cache::Cache;
pub use run::run_turns;
pub use set_up::SetUpCache;
pub use slip::EndingSlip;
