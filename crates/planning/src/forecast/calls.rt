// Plan and replay together.
ghost use Rattle.std.specs.Prelude.{◌≡◌, ◌<◌, false, length, take};
ghost use Rattle.std.specs.Prelude.{is_ok, IfOk};
ghost use Rattle.base.specs.Keys.{codes_of};
ghost use Rattle.planning.specs.Bounds.{Competitive, ForecastHolds};
ghost use Rattle.planning.specs.Lists.{places, Unchanged, SameLists};
ghost use Rattle.planning.specs.Plan.{forecasted, answer_of, serving_after};

use super::Forecast;
use crate::lists::Lists;
use crate::plan::{check_plan, plan_touches};
use crate::replay::replay;
use base::{Geometry, Key, Refusal};
use policy::Policy;

// Plans on a list of keys and replays it with a policy on the same number of frames. For every policy that keeps the
// law, what it fetches is bounded by what any schedule on the smaller number of frames fetches, and so by the ceiling.
pub fn forecast_touches<P: Policy + Drop, K: Key>(
    setting: P::Setting,
    keys: &[K],
    frames: usize,
    smaller: usize,
    lists: &mut Lists<'_, K>,
) -> Result<Forecast, Refusal>
where
    P::Setting: Drop,
    ensures answer { result ≡ answer_of
        (forecasted P.Policy.rules setting (codes_of K.Key keys.now) frames smaller (places lists.old)) }
    ensures serving { lists.new.serving.now ≡ serving_after
        (forecasted P.Policy.rules setting (codes_of K.Key keys.now) frames smaller (places lists.old)) lists.old.serving.now }
    ensures bounded { IfOk result (λ f.
        ForecastHolds frames smaller (codes_of K.Key keys.now) (take (length keys.now) lists.new.serving.now)
        f.plan.fetches f.plan.ceiling f.fetches) }
    ensures competitive { Competitive P.Policy.rules }
    ensures refused { is_ok result ≡ false → Unchanged lists.old lists.new }
    ensures same { SameLists lists.old lists.new }
{
    check_plan(
        keys.len(),
        frames,
        smaller,
        frames.max(smaller),
        lists.places(),
    )?;
    let plan = plan_touches(keys, frames, smaller, lists)?;
    let geometry = Geometry::new(frames, 0)?;
    let fetches = replay::<P, K>(setting, &geometry, keys, lists.slots, lists.held)?;
    Ok(Forecast { plan, fetches })
}
