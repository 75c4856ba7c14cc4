// Turns of one kind through a cache of 64 frames over an image of 128 sectors. F is printed, with a sum of the bytes that went through the
// buffer and one of the image at the end.
ghost use Rattle.std.specs.Prelude.{◌≤◌};
ghost use Rattle.cache.specs.Reading.{Safe};

use crate::kind::TurnKind;
use base::{Geometry, SECTOR_BYTES};
use cache::{Cache, SetUpCache};
use disk::{Disk, ImageDisk};
use policy::{Lru, Policy};
use std::alloc::{AllocError, Global};

const FRAMES: usize = 64;

const SECTORS: u32 = 2 * FRAMES as u32;

const IMAGE_BYTES: usize = SECTORS as usize * SECTOR_BYTES;

// Reads sectors 0 to `sectors` - 1 in turn, over and over. Answers a sum of bytes that were read, so that no copy is left out as unused.
fn read_turns<D: Disk, P: Policy>(
    cache: &mut Cache<D, P>,
    turns: u32,
    sectors: u32,
    buffer: &mut [u8; SECTOR_BYTES],
) -> u8
    requires some { 1 ≤ sectors }
    requires safe { Safe D.Disk P.Policy cache.old }
    ensures { Safe D.Disk P.Policy cache.new }
{
    let mut sum = 0u8;
    for turn in 0..turns {
        let _ = cache.read_sector(turn % sectors, buffer);
        sum = sum.wrapping_add(buffer[turn as usize % SECTOR_BYTES]);
    }
    sum
}

// Writes them, with another byte of the buffer changed before each write.
fn write_turns<D: Disk, P: Policy>(
    cache: &mut Cache<D, P>,
    turns: u32,
    sectors: u32,
    buffer: &mut [u8; SECTOR_BYTES],
) -> u8
    requires some { 1 ≤ sectors }
    requires safe { Safe D.Disk P.Policy cache.old }
    ensures { Safe D.Disk P.Policy cache.new }
{
    let mut sum = 0u8;
    for turn in 0..turns {
        sum = sum.wrapping_add(1);
        buffer[turn as usize % SECTOR_BYTES] = sum;
        let _ = cache.write_sector(turn % sectors, buffer);
    }
    sum
}

// F, and the sum of the bytes that went through the buffer.
fn run_turns(geometry: Geometry, image: &mut [u8], turns: u32, kind: TurnKind) -> (u64, u8) {
    let disk = ImageDisk::new(image, &[]);
    let set_up = SetUpCache::<ImageDisk<'_>, Lru>::new(geometry, disk, ());
    let (mut cache, slip) = set_up.start();
    let mut buffer = [0u8; SECTOR_BYTES];
    let sum = match kind {
        TurnKind::Hit => read_turns(&mut cache, turns, FRAMES as u32, &mut buffer),
        TurnKind::Clean => read_turns(&mut cache, turns, SECTORS, &mut buffer),
        TurnKind::Dirty => write_turns(&mut cache, turns, SECTORS, &mut buffer),
    };
    let fetches = cache.fetches();
    drop(cache.end(slip));
    (fetches, sum)
}

fn image_of(heap: Global) -> Result<Vec<u8>, AllocError> {
    (0..IMAGE_BYTES).map(|at| (at % 251) as u8).collect(heap)
}

// The byte that every place of an image adds up to.
fn sum_of(image: &[u8]) -> u8 {
    image.iter().fold(0u8, |sum, byte| sum.wrapping_add(*byte))
}

pub fn print_turns(rt: &HostRuntime, turns: u32, kind: TurnKind) -> anyhow::Result<()> {
    let geometry = Geometry::new(FRAMES, 0).unwrap();
    let mut image = image_of(rt.alloc())?;
    let (fetches, sum) = run_turns(geometry, &mut image, turns, kind);
    let left = sum_of(&image);
    println!(rt; "F is {fetches}, sums {sum} and {left}")?;
    Ok(())
}
