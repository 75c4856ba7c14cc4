// The recorded touches as turns of six tasks, each touch a turn, and the plan's list of the touches that a cache sees.
use base::{SECTOR_BYTES, Sector, VolumeKey};
use disk::{Request, Turn};
use std::alloc::{AllocError, Global};

// The image has so many sectors; a recorded sector number is folded into it.
pub const SECTORS: u32 = 64;

pub const TASKS: usize = 6;

// The sector that is pinned; its turns are no touches.
pub const PINNED: u32 = 0;

pub fn image_sector(key: &VolumeKey) -> u32 {
    (key.lba() ^ (key.asu() as u32)) % SECTORS
}

// Every third turn writes, the others read.
fn request_at(place: usize) -> Request {
    if place % 3 == 2 {
        Request::Write
    } else {
        Request::Read
    }
}

// A turn for each touch, dealt to the six tasks in order, and a flush at the end.
pub fn turns_of(heap: Global, keys: &[VolumeKey]) -> Result<Vec<Turn>, AllocError> {
    let mut turns: Vec<Turn> = keys
        .iter()
        .enumerate()
        .map(|(place, key)| -> Result<Turn, AllocError> {
            let task = (place % TASKS) as u8 + 1;
            let buffer = vec![in heap; (place % 251) as u8; SECTOR_BYTES]?;
            Ok(Turn::new(task, request_at(place), image_sector(key), buffer))
        })
        .try_collect(heap)?;
    turns.push(Turn::new(1, Request::Flush, 0, Vec::new(heap)))?;
    Ok(turns)
}

// The touches that the cache sees, as plain sectors.
pub fn touches_of(heap: Global, keys: &[VolumeKey]) -> Result<Vec<Sector>, AllocError> {
    keys.iter()
        .map(image_sector)
        .filter(|number| *number != PINNED)
        .map(|number| Sector { number })
        .collect(heap)
}
