// What a cache fetches by each policy, on a list of reads on which FIFO fetches more often with four frames than with three.
use crate::anomaly_touches;
use crate::cache_helpers::*;
use crate::helpers::FETCHES;
use crate::turn_helpers::*;
use policy::{Clock, Fifo, Lru, Policy};
use std::alloc::Global;
use std::test::Fail;

// Whether the image serves as many reads as the cache fetches.
fn check_fetches<P: Policy + Drop>(
    heap: Global,
    setting: P::Setting,
    frames: usize,
    fetches: u64,
) -> Result<(), Fail>
where
    P::Setting: Drop,
{
    let turns = anomaly_touches().map(|sector| read_case(sector, (sector % 100) as u8 + 10));
    let session = Session {
        frames,
        pin_places: 0,
        image_bytes: 6 * 512,
        dead: &[],
        pins: &[],
        turns: &turns,
        fetches,
        tallies: (fetches, 0),
        bytes: &[],
    };
    check_session::<P>(heap, setting, &session)
}

#[test]
fn policies_fetch_by_their_rules(rt: HostRuntime) -> Result<(), Fail> {
    for (frames, [lru, fifo, clock], _) in &FETCHES {
        check_fetches::<Lru>(rt.alloc(), (), *frames, *lru)?;
        check_fetches::<Fifo>(rt.alloc(), (), *frames, *fifo)?;
        check_fetches::<Clock>(rt.alloc(), (), *frames, *clock)?;
    }
    Ok(())
}
