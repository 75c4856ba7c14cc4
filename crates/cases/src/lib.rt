// Examples that are known from counting by hand: some of them proved, the others run as tests.
#![tactic(auto)]

ghost use Rattle.std.specs.Prelude.{◌≡◌};
ghost use Rattle.cases.specs.Worked.{anomaly, examples, Agree};

#[cfg(test)]
mod base_cases;
#[cfg(test)]
mod cache_helpers;
#[cfg(test)]
mod cache_layers;
#[cfg(test)]
mod cache_policies;
#[cfg(test)]
mod cache_sessions;
#[cfg(test)]
mod cache_sizes;
#[cfg(test)]
mod curve_cases;
#[cfg(test)]
mod curve_limits;
#[cfg(test)]
mod disk_helpers;
#[cfg(test)]
mod helpers;
#[cfg(test)]
mod image_cases;
#[cfg(test)]
mod index_cases;
#[cfg(test)]
mod index_model;
#[cfg(test)]
mod join_cases;
#[cfg(test)]
mod planning_counts;
#[cfg(test)]
mod planning_limits;
#[cfg(test)]
mod policy_cases;
#[cfg(test)]
mod sheet_cases;
#[cfg(test)]
mod trace_cases;
#[cfg(test)]
mod trace_helpers;
#[cfg(test)]
mod trace_limits;
#[cfg(test)]
mod turn_cases;
#[cfg(test)]
mod turn_helpers;
#[cfg(test)]
mod workspace_cases;

// The list of touches of most examples. On it FIFO fetches more often with four frames than with three, and LRU less often.
pub fn anomaly_touches() -> [u32; 12]
    ensures list { result ≡ anomaly }
    ensures worked { Agree examples }
{
    [1, 2, 3, 4, 1, 2, 5, 1, 2, 3, 4, 5]
}
