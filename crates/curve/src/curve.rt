// The curve of a list of keys, and of a trace.
ghost use Rattle.std.specs.Prelude.{◌≡◌, length, take, map, IfOk};
ghost use Rattle.base.specs.Keys.{codes_of};
ghost use Rattle.base.specs.declared.limits.TheConstants.{MAX_FRAMES};
ghost use Rattle.trace.specs.Touches.{accepted, Written};
ghost use Rattle.curve.specs.Distances.{lru_distances};
ghost use Rattle.curve.specs.Curve.{curve_answer, curve_of, list_after, Curve};
ghost use Rattle.curve.specs.Points.{touches_read, points_of, distances_of, point_fetches};

use crate::counts::count_fetches;
use crate::distances::measure;
use crate::point::{Point, points_at};
use base::{Key, MAX_FRAMES, MAX_TOUCHES, Refusal, VolumeKey};
use trace::{ReplayFault, judge_trace};

// Refuses a list that is too long, then lists of the caller's that have too few places.
fn check_lists(touches: usize, distances: usize, counts: usize) -> Result<(), Refusal>
    ensures { result ≡ curve_answer touches distances counts }
{
    if touches > MAX_TOUCHES {
        return Err(Refusal::ListTooLong);
    }
    if distances < touches || counts < MAX_FRAMES {
        return Err(Refusal::TooFewPlaces);
    }
    Ok(())
}

// Writes for each touch its distance, and for each number of frames from 1 to `MAX_FRAMES` the fetches of LRU. What stands behind
// stays.
pub fn lru_curve<K: Key>(
    keys: &[K],
    distances: &mut [u8],
    counts: &mut [u64],
) -> Result<(), Refusal>
    ensures answer { result ≡ curve_answer (length keys.now) (length distances.old) (length counts.old) }
    ensures distances { distances.new ≡ list_after result (lru_distances (codes_of K.Key keys.now)) distances.old }
    ensures counts { counts.new ≡ list_after result (curve_of (codes_of K.Key keys.now)) counts.old }
    ensures curve { IfOk result (λ _. Curve (codes_of K.Key keys.now) (take (length keys.now) distances.new) (take MAX_FRAMES counts.new)) }
{
    check_lists(keys.len(), distances.len(), counts.len())?;
    measure(keys, distances);
    let fetches = count_fetches(&distances[..keys.len()]);
    counts[..MAX_FRAMES].copy_from_slice(&fetches);
    Ok(())
}

// The curve of a trace, or its fault, in memory that the caller lends. All is judged before the first key is written, so a refusal leaves
// both lists as they were.
pub fn curve_of_trace(
    text: &[u8],
    keys: &mut [VolumeKey],
    distances: &mut [u8],
) -> Result<[Point; MAX_FRAMES], ReplayFault>
    ensures answer { result ≡ points_of (touches_read text.now (length keys.old) (length distances.old)) }
    ensures keys { Written (touches_read text.now (length keys.old) (length distances.old)) keys.old keys.new }
    ensures distances { distances.new ≡ distances_of (touches_read text.now (length keys.old) (length distances.old)) distances.old }
    ensures curve { IfOk result (λ points. let touches = accepted (touches_read text.now (length keys.old) (length distances.old)) in
        Curve touches (take (length touches) distances.new) (map point_fetches points)) }
{
    let trace = judge_trace(text, keys.len().min(distances.len()))?;
    let touches = trace.read_into(keys)?;
    let mut counts = [0; MAX_FRAMES];
    // The touches are few enough, and have their places.
    lru_curve(&keys[..touches], distances, &mut counts).unwrap();
    Ok(points_at(&counts))
}
