// The image disk: its count, its refusals, and what it leaves alone.
use crate::disk_helpers::*;
use crate::helpers::check_eq;
use crate::turn_helpers::*;
use disk::{Disk, ImageDisk, Request};
use std::alloc::Global;
use std::test::Fail;

// Bytes of an image, and its whole sectors.
const COUNTS: [(usize, u32); 5] = [(0, 0), (511, 0), (512, 1), (1025, 2), (2048, 4)];

#[test]
fn images_have_whole_sectors(rt: HostRuntime) -> Result<(), Fail> {
    for (len, count) in &COUNTS {
        let mut image = image_of(rt.alloc(), *len)?;
        check_eq(ImageDisk::new(&mut image, &[]).count(), *count)?;
    }
    Ok(())
}

// Turns of a disk of four sectors, of which sector 2 is dead.
const REFUSED: [Case; 8] = [
    (1, Request::Read, 4, (511, BLANK), SHORT, BLANK),
    (1, Request::Read, 2, (513, BLANK), SHORT, BLANK),
    (1, Request::Read, 4, (512, BLANK), NO_SECTOR, BLANK),
    (1, Request::Read, 2, (512, BLANK), DEAD, BLANK),
    (1, Request::Write, 4, (513, 99), SHORT, 99),
    (1, Request::Write, 2, (511, 99), SHORT, 99),
    (1, Request::Write, 4, (512, 99), NO_SECTOR, 99),
    (1, Request::Write, 2, (512, 99), DEAD, 99),
];

const READ: [Case; 1] = [(1, Request::Read, 3, (512, BLANK), Ok(()), 13)];

const WRITTEN: [Case; 1] = [(1, Request::Write, 1, (512, 99), Ok(()), 99)];

const READ_AND_WRITTEN: [Case; 2] = [
    (1, Request::Read, 1, (512, BLANK), Ok(()), 99),
    (1, Request::Write, 3, (512, 98), Ok(()), 98),
];

fn check_disk(heap: Global, image: &mut [u8]) -> Result<(), Fail> {
    let mut disk = ImageDisk::new(image, &[9, 2, 4, 2]);
    check_eq(disk.count(), 4)?;
    check_served(heap, &mut disk, &REFUSED, (0, 0))?;
    check_served(heap, &mut disk, &READ, (1, 0))?;
    check_served(heap, &mut disk, &WRITTEN, (1, 1))?;
    check_served(heap, &mut disk, &READ_AND_WRITTEN, (2, 2))
}

#[test]
fn images_are_read_and_written(rt: HostRuntime) -> Result<(), Fail> {
    let mut image = image_of(rt.alloc(), 4 * 512 + 7)?;
    check_disk(rt.alloc(), &mut image)?;
    check_eq(image.len(), 4 * 512 + 7)?;
    check_bytes(&image, &[10, 99, 12, 98, 14])
}
