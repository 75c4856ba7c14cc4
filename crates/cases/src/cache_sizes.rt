// The largest cache: 64 frames and 8 pin places for 72 sectors, read once and read twice.
use crate::cache_helpers::*;
use crate::turn_helpers::*;
use policy::Lru;
use std::alloc::{AllocError, Global};
use std::test::Fail;

// The first time each sector comes from the image, the second time from its place.
fn rounds(heap: Global, reads: u32) -> Result<Vec<Case>, AllocError> {
    (0..reads)
        .map(|turn| read_case(turn % 72, (turn % 72) as u8 + 10))
        .collect(heap)
}

const EIGHT: [Pin; 8] = [
    (0, Ok(())),
    (1, Ok(())),
    (2, Ok(())),
    (3, Ok(())),
    (4, Ok(())),
    (5, Ok(())),
    (6, Ok(())),
    (7, Ok(())),
];

#[test]
fn largest_cache_holds_72_sectors(rt: HostRuntime) -> Result<(), Fail> {
    for reads in [72, 144] {
        let turns = rounds(rt.alloc(), reads)?;
        let session = Session {
            frames: 64,
            pin_places: 8,
            image_bytes: 72 * 512,
            dead: &[],
            pins: &EIGHT,
            turns: &turns,
            fetches: 64,
            tallies: (72, 0),
            bytes: &[],
        };
        check_session::<Lru>(rt.alloc(), (), &session)?;
    }
    Ok(())
}
