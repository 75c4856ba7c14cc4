// What a plan's line has, from a list of keys and from the text of a trace.
ghost use Rattle.std.specs.Prelude.{◌≡◌, false, length, take, is_ok, IfOk};
ghost use Rattle.base.specs.Keys.{codes_of};
ghost use Rattle.trace.specs.Touches.{judged, Written};
ghost use Rattle.planning.specs.Plan.{answer_of, serving_after};
ghost use Rattle.planning.specs.Lists.{places, Unchanged, SameLists};
ghost use Rattle.sheet.specs.Rows.{lent};
ghost use Rattle.sheet.specs.PlanLines.{lined, line_of, read_from, WithinCeiling};

use super::PlanLine;
use base::{Key, Refusal, VolumeKey};
use planning::{Lists, forecast_touches};
use policy::{Clock, Fifo, Lru};
use trace::{ReplayFault, read_trace};

// The plan for so many frames by a schedule on a smaller number, and what each policy fetches. Each is at most the ceiling.
pub fn plan_of_keys<K: Key>(
    keys: &[K],
    frames: usize,
    smaller: usize,
    lists: &mut Lists<'_, K>,
) -> Result<PlanLine, Refusal>
    ensures answer { result ≡ answer_of (lined (codes_of K.Key keys.now) frames smaller (places lists.old)) }
    ensures serving { lists.new.serving.now
        ≡ serving_after (lined (codes_of K.Key keys.now) frames smaller (places lists.old)) lists.old.serving.now }
    ensures bounded { IfOk result (λ line.
        WithinCeiling line (codes_of K.Key keys.now) (take (length keys.now) lists.new.serving.now)) }
    ensures refused { is_ok result ≡ false → Unchanged lists.old lists.new }
    ensures same { SameLists lists.old lists.new }
{
    let lru = forecast_touches::<Lru, K>((), keys, frames, smaller, lists)?;
    let fifo = forecast_touches::<Fifo, K>((), keys, frames, smaller, lists)?;
    let clock = forecast_touches::<Clock, K>((), keys, frames, smaller, lists)?;
    Ok(PlanLine {
        frames,
        smaller,
        plan: lru.plan,
        lru: lru.fetches,
        fifo: fifo.fetches,
        clock: clock.fetches,
    })
}

// The same for the touches of a trace, or its fault. A refused trace leaves every list as it was; a refused plan leaves its keys read.
pub fn plan_of_trace(
    text: &[u8],
    keys: &mut [VolumeKey],
    frames: usize,
    smaller: usize,
    lists: &mut Lists<'_, VolumeKey>,
) -> Result<PlanLine, ReplayFault>
    ensures answer { result ≡ answer_of (line_of text.now (lent keys.old lists.old) frames smaller) }
    ensures keys { Written (judged text.now (length keys.old)) keys.old keys.new }
    ensures serving { lists.new.serving.now
        ≡ serving_after (line_of text.now (lent keys.old lists.old) frames smaller) lists.old.serving.now }
    ensures bounded { IfOk result (λ line.
        let touches = read_from text.now (length keys.old) in WithinCeiling line touches (take (length touches) lists.new.serving.now)) }
    ensures refused { is_ok result ≡ false → Unchanged lists.old lists.new }
    ensures same { SameLists lists.old lists.new }
{
    let touches = read_trace(text, keys)?;
    Ok(plan_of_keys(&keys[..touches], frames, smaller, lists)?)
}
