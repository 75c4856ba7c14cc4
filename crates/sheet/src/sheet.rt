// The sheet of a trace: a row for each of a few numbers of frames.
ghost use Rattle.std.specs.Prelude.{◌≡◌, false, map, length, is_ok};
ghost use Rattle.base.specs.Keys.{volume_code};
ghost use Rattle.trace.specs.Touches.{Written};
ghost use Rattle.planning.specs.Lists.{Unchanged, SameLists};
ghost use Rattle.sheet.specs.Rows.{row_of, frame_counts, Roomy, lent, touches_for, sheet_of, served, serving_of};

use crate::row::{Row, row_of_keys};
use base::{Geometry, MAX_FRAMES, Refusal, VolumeKey};
use planning::Lists;
use trace::{ReplayFault, judge_trace};

pub const FRAME_COUNTS: [u8; 6] = [1, 2, 3, 4, 8, 64];

// A row for each number of frames.
fn rows_of_keys(keys: &[VolumeKey], lists: &mut Lists<'_, VolumeKey>) -> [Row; 6]
    requires { Roomy (length keys.now) lists.old }
    ensures rows { result ≡ map (row_of (map volume_code keys.now)) frame_counts }
    ensures serving { lists.new.serving.now ≡ served 64 (map volume_code keys.now) lists.old.serving.now }
    ensures same { SameLists lists.old lists.new }
{
    let mut rows = FRAME_COUNTS.map(|frames| Row {
        frames,
        lru: 0,
        fifo: 0,
        clock: 0,
        min: 0,
    });
    for row in &mut rows {
        let geometry = Geometry::new(row.frames as usize, 0).unwrap();
        *row = row_of_keys(&geometry, keys, lists);
    }
    rows
}

// The rows of a trace, or its fault, in memory that the caller lends: places for the touches in each list, for up to 64 frames in the
// held-key list. All is judged before the first key is written, so a refusal leaves every list as it was.
pub fn sheet_of_trace(
    text: &[u8],
    keys: &mut [VolumeKey],
    lists: &mut Lists<'_, VolumeKey>,
) -> Result<[Row; 6], ReplayFault>
    ensures answer { result ≡ sheet_of text.now (lent keys.old lists.old) }
    ensures keys { Written (touches_for text.now (lent keys.old lists.old)) keys.old keys.new }
    ensures serving { lists.new.serving.now ≡ serving_of (touches_for text.now (lent keys.old lists.old)) lists.old.serving.now }
    ensures same { SameLists lists.old lists.new }
    ensures refused { is_ok result ≡ false → Unchanged lists.old lists.new }
{
    let trace = judge_trace(text, keys.len().min(lists.places().room()))?;
    if lists.held.len() < MAX_FRAMES {
        return Err(ReplayFault::Refused(Refusal::TooFewPlaces));
    }
    let touches = trace.read_into(keys)?;
    Ok(rows_of_keys(&keys[0..touches], lists))
}
