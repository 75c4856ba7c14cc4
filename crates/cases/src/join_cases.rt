// Joined disks.
use crate::disk_helpers::*;
use crate::helpers::check_eq;
use crate::turn_helpers::*;
use disk::{Disk, ImageDisk, JoinedDisk, Request, Tallies};
use std::alloc::Global;
use std::test::Fail;

// Turns of a disk of four sectors, the last of them dead. Sectors 1 and 2 hold 10 and 11.
const CASES: [Case; 9] = [
    (1, Request::Read, 1, (512, BLANK), Ok(()), 10),
    (1, Request::Read, 2, (512, BLANK), Ok(()), 11),
    (1, Request::Read, 3, (512, BLANK), DEAD, BLANK),
    (1, Request::Read, 4, (512, BLANK), NO_SECTOR, BLANK),
    (1, Request::Read, 4, (511, BLANK), SHORT, BLANK),
    (1, Request::Write, 0, (512, 50), Ok(()), 50),
    (1, Request::Write, 2, (512, 52), Ok(()), 52),
    (1, Request::Write, 3, (512, 53), DEAD, 53),
    (1, Request::Read, 2, (512, BLANK), Ok(()), 52),
];

// Joins two joins: an image of one sector and one of two, and an image of none and one of a dead sector.
fn check_join(
    heap: Global,
    one: &mut [u8],
    two: &mut [u8],
    none: &mut [u8],
    dead: &mut [u8],
) -> Result<(), Fail> {
    let left = JoinedDisk::new(ImageDisk::new(one, &[]), ImageDisk::new(two, &[]));
    let right = JoinedDisk::new(ImageDisk::new(none, &[]), ImageDisk::new(dead, &[0]));
    let mut all = JoinedDisk::new(left, right);
    check_eq(all.count(), 4)?;
    check_served(heap, &mut all, &CASES, (3, 2))?;
    let (left, right) = all.into_parts();
    check_eq(left.tallies(), Tallies::new(3, 2))?;
    check_eq(right.tallies(), Tallies::new(0, 0))?;
    let (first, second) = left.into_parts();
    check_eq(first.tallies(), Tallies::new(0, 1))?;
    check_eq(second.tallies(), Tallies::new(3, 1))
}

#[test]
fn joins_serve_both_disks(rt: HostRuntime) -> Result<(), Fail> {
    let mut one = image_of(rt.alloc(), 512)?;
    let mut two = image_of(rt.alloc(), 1024)?;
    check_join(
        rt.alloc(),
        &mut one,
        &mut two,
        &mut [7; 511],
        &mut [10; 512],
    )?;
    check_bytes(&one, &[50])?;
    check_bytes(&two, &[10, 52])
}
