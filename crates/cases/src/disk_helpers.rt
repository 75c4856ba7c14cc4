// Calls of a disk of any kind, with buffers of one byte throughout.
ghost use Rattle.std.specs.Prelude.{◌≤◌};

use crate::helpers::check_eq;
use base::{Refusal, SECTOR_BYTES};
use disk::Disk;
use std::alloc::{AllocError, Global};
use std::test::Fail;

// What a buffer holds before a read.
pub const BLANK: u8 = 0xee;

// The byte that a list has in every place, if it has one.
pub fn only_byte(bytes: &[u8]) -> Option<u8> {
    let first = *bytes.first()?;
    bytes.iter().all(|byte| *byte == first).then_some(first)
}

// What a read into a buffer of so many bytes answers, and the buffer's byte afterwards.
pub fn read_of<const LEN: usize, D: Disk>(
    disk: &mut D,
    sector: u32,
) -> (Result<(), Refusal>, Option<u8>)
    requires short { LEN ≤ 513 }
    requires sound { D.Disk.sound disk.old }
    ensures { D.Disk.sound disk.new }
{
    let mut buffer = [BLANK; LEN];
    let answer = disk.read(sector, &mut buffer);
    (answer, only_byte(&buffer))
}

// What a write of so many bytes, all the same, answers.
pub fn write_of<const LEN: usize, D: Disk>(
    disk: &mut D,
    sector: u32,
    byte: u8,
) -> Result<(), Refusal>
    requires short { LEN ≤ 513 }
    requires sound { D.Disk.sound disk.old }
    ensures { D.Disk.sound disk.new }
{
    disk.write(sector, &[byte; LEN])
}

// An image of so many bytes, with 10 throughout its first sector, 11 throughout the next, and so on.
pub fn image_of(heap: Global, len: usize) -> Result<Vec<u8>, AllocError> {
    (0..len)
        .map(|at| ((at / SECTOR_BYTES + 10) % 256) as u8)
        .collect(heap)
}

// The byte that an image has throughout a sector, or throughout the part of it that there is.
fn byte_in(image: &[u8], sector: usize) -> Option<u8> {
    only_byte(image.chunks(SECTOR_BYTES).nth(sector)?)
}

// An error where one of an image's first sectors has another byte.
pub fn check_bytes(image: &[u8], bytes: &[u8]) -> Result<(), Fail> {
    for (sector, byte) in bytes.iter().enumerate() {
        check_eq(byte_in(image, sector), Some(*byte))?;
    }
    Ok(())
}
