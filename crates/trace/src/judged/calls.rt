// Judging a trace, and reading it into keys.
ghost use Rattle.std.specs.Prelude.{◌≡◌, length};
ghost use Rattle.trace.specs.Touches.{judged, placed, counted, Written};
ghost use Rattle.trace.specs.Judged.{trace_touches, judged_touches};
ghost use Rattle.trace.specs.Traces.{Reads};
ghost use Rattle.trace.specs.Refused.{Refuses};

use super::JudgedTrace;
use crate::fault::ReplayFault;
use crate::touches::{count_touches, write_keys};
use base::{MAX_TEXT_BYTES, Refusal, VolumeKey};

// Reads a trace into keys, one for each touch, and answers how many.
#[tactic(auto, using(crate::proofs::Exact::reads_judged, crate::proofs::Exact::reads_refused, crate::proofs::Exact::refuses_first))]
pub fn read_trace(text: &[u8], keys: &mut [VolumeKey]) -> Result<usize, ReplayFault>
    ensures answer { result ≡ counted (judged text.now (length keys.old)) }
    ensures keys { Written (judged text.now (length keys.old)) keys.old keys.new }
    ensures trace { Reads text.now result keys.old keys.new }
    ensures refused { Refuses text.now (length keys.old) result }
{
    judge_trace(text, keys.len())?.read_into(keys)
}

// The trace in a text, judged for a list of so many places: what a caller asks that lends more lists than the keys.
#[tactic(auto, using(crate::proofs::Exact::refuses_first))]
pub fn judge_trace(text: &[u8], places: usize) -> Result<JudgedTrace<'_>, ReplayFault>
    ensures answer { judged_touches result ≡ judged text.now places }
    ensures refused { Refuses text.now places (counted (judged_touches result)) }
{
    if text.len() > MAX_TEXT_BYTES {
        return Err(ReplayFault::Refused(Refusal::TraceTooLong));
    }
    let touches = count_touches(text)?;
    if touches > places {
        return Err(ReplayFault::Refused(Refusal::TooFewPlaces));
    }
    Ok(JudgedTrace { text, touches })
}

impl JudgedTrace<'_> {
    // How many touches it has.
    pub fn touches(&self) -> usize
        ensures { result ≡ length (trace_touches self.now) }
    {
        self.touches
    }

    // Writes a key for each touch, and answers how many.
    pub fn read_into(&self, keys: &mut [VolumeKey]) -> Result<usize, ReplayFault>
        ensures answer { result ≡ counted (placed (length keys.old) (trace_touches self.now)) }
        ensures keys { Written (placed (length keys.old) (trace_touches self.now)) keys.old keys.new }
    {
        if self.touches > keys.len() {
            return Err(ReplayFault::Refused(Refusal::TooFewPlaces));
        }
        write_keys(self.text, keys);
        Ok(self.touches)
    }
}
