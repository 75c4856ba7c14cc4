// Rounds over the touches of a trace, by the curve's call or by replays. The counts of the last round are printed.
use crate::kind::RoundKind;
use anyhow::anyhow;
use base::{Geometry, MAX_FRAMES, MAX_TOUCHES, Refusal, VolumeKey};
use curve::lru_curve;
use index::Slot;
use planner::read_text;
use planning::replay_keys;
use policy::Lru;
use trace::{Plain, ReplayFault, read_trace};

// As many as the programs lend.
const SLOTS: usize = 2 * MAX_TOUCHES;

// What LRU fetches on so many frames, by a replay.
fn fetches_on(
    frames: usize,
    keys: &[VolumeKey],
    slots: &mut [Slot<VolumeKey>],
) -> Result<u64, Refusal> {
    let geometry = Geometry::new(frames, 0)?;
    replay_keys::<Lru, VolumeKey>((), &geometry, keys, slots, &mut [0; MAX_FRAMES])
}

fn replay_all(
    keys: &[VolumeKey],
    slots: &mut [Slot<VolumeKey>],
    counts: &mut [u64; MAX_FRAMES],
) -> Result<(), Refusal> {
    for (place, count) in counts.iter_mut().enumerate() {
        let fetches = fetches_on(place + 1, keys, slots)?;
        *count = fetches;
    }
    Ok(())
}

fn run_rounds(
    keys: &[VolumeKey],
    rounds: u32,
    kind: RoundKind,
    distances: &mut [u8],
    slots: &mut [Slot<VolumeKey>],
) -> Result<[u64; MAX_FRAMES], Refusal> {
    let mut counts = [0; MAX_FRAMES];
    for _ in 0..rounds {
        match kind {
            RoundKind::Curve => lru_curve(keys, distances, &mut counts)?,
            RoundKind::Replays => replay_all(keys, slots, &mut counts)?,
        }
    }
    Ok(counts)
}

// The same of the trace in a text.
fn run_trace(
    text: &[u8],
    keys: &mut [VolumeKey],
    rounds: u32,
    kind: RoundKind,
    distances: &mut [u8],
    slots: &mut [Slot<VolumeKey>],
) -> Result<[u64; MAX_FRAMES], ReplayFault> {
    let touches = read_trace(text, keys)?;
    Ok(run_rounds(&keys[..touches], rounds, kind, distances, slots)?)
}

pub fn print_rounds(rt: &HostRuntime, rounds: u32, kind: RoundKind) -> anyhow::Result<()> {
    let text = read_text(rt, None)?;
    let heap = rt.alloc();
    let mut keys = vec![in heap; VolumeKey::new(0, 0); MAX_TOUCHES]?;
    let mut distances = vec![in heap; 0; MAX_TOUCHES]?;
    let mut slots = vec![in heap; None; SLOTS]?;
    match run_trace(&text, &mut keys, rounds, kind, &mut distances, &mut slots) {
        Ok(counts) => println!(rt; "{:?}", counts.as_slice())?,
        Err(fault) => return Err(anyhow!("{}", Plain(fault))),
    }
    Ok(())
}
