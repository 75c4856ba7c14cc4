// Sectors in memory: the pinned ones first, then those of the frames.
use arrayvec::ArrayVec;
use base::{MAX_FRAMES, MAX_PINS, SECTOR_BYTES};

mod calls;

// Room for every frame and every pinned sector.
const MAX_PLACES: usize = MAX_FRAMES + MAX_PINS;

// A sector that is held: its number, whether it is dirty, and its bytes.
#[derive(Drop, Default)]
pub struct Place {
    pub sector: u32,
    pub dirty: bool,
    pub block: [u8; SECTOR_BYTES],
}

#[derive(Drop)]
pub struct Store {
    // how many of the places hold a pinned sector
    pub pinned: usize,
    pub places: ArrayVec<Place, MAX_PLACES>,
}
