// The touches of a whole trace: they are counted as its lines are judged, and their keys written where the lines are accepted.
ghost use Rattle.std.specs.Prelude.{◌≡◌, ◌+◌, ◌^◌, ◌≤◌, true, map, length, is_ok};
ghost use Rattle.base.specs.Keys.{volume_code};
ghost use Rattle.trace.specs.Splits.{lines};
ghost use Rattle.trace.specs.Touches.{line_touches, judged_lines, counted, touches_in, Filled};

use crate::access::Access;
use crate::fault::LineFault;
use crate::reader::TraceReader;
use base::{MAX_TEXT_BYTES, MAX_TOUCHES, VolumeKey};

// Judges every line, and answers how many touches they have.
pub fn count_touches(text: &[u8]) -> Result<usize, LineFault>
    requires { length text.now ≤ MAX_TEXT_BYTES }
    ensures { result ≡ counted (judged_lines 1 0 (lines text.now)) }
{
    let mut count = 0;
    for line in TraceReader::new(text) {
        let access = line.access()?;
        count += access.sectors as usize;
        if count > MAX_TOUCHES {
            return Err(LineFault::TooManyTouches { line: line.number });
        }
    }
    Ok(count)
}

// Writes the keys of a text whose lines are accepted, and which has no more touches than there are places.
pub fn write_keys(text: &[u8], keys: &mut [VolumeKey])
    requires short { length text.now ≤ MAX_TEXT_BYTES }
    requires accepted { is_ok (judged_lines 1 0 (lines text.now)) ≡ true }
    requires places { length (touches_in text.now) ≤ length keys.old }
    ensures { Filled (touches_in text.now) keys.old keys.new }
{
    let mut count = 0;
    for line in TraceReader::new(text) {
        // Every line was accepted before, so there is an access.
        let access = line.access().unwrap();
        let next = count + access.sectors as usize;
        write_touches(access, &mut keys[count..next]);
        count = next;
    }
}

// Writes the keys of one line's touches, one into each place.
#[tactic(auto, using(crate::proofs::Sectors::codes_more))]
fn write_touches(access: Access, places: &mut [VolumeKey])
    requires places { length places.old ≡ access.sectors }
    requires last { access.lba + access.sectors ≤ 2 ^ 32 }
    ensures { map volume_code places.new ≡ line_touches access }
{
    for (i, key) in places.iter_mut().enumerate() {
        *key = VolumeKey::new(access.asu, access.lba + i as u32);
    }
}
