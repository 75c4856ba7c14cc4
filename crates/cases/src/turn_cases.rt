// Turns of several tasks, served one after another.
use crate::disk_helpers::*;
use crate::helpers::check_shown;
use crate::turn_helpers::*;
use disk::{ImageDisk, Request};
use std::test::Fail;

const CASES: [Case; 8] = [
    (1, Request::Write, 0, (512, 41), Ok(()), 41),
    (2, Request::Read, 0, (512, 42), Ok(()), 41),
    (1, Request::Read, 3, (512, 41), Ok(()), 13),
    (3, Request::Write, 2, (512, 43), DEAD, 43),
    (3, Request::Flush, 9, (1, 43), Ok(()), 43),
    (2, Request::Read, 4, (512, 42), NO_SECTOR, 42),
    (1, Request::Read, 4, (511, 41), SHORT, 41),
    (2, Request::Write, 3, (512, 42), Ok(()), 42),
];

#[test]
fn turns_are_served_in_order(rt: HostRuntime) -> Result<(), Fail> {
    let mut image = image_of(rt.alloc(), 2048)?;
    let mut disk = ImageDisk::new(&mut image, &[2]);
    check_served(rt.alloc(), &mut disk, &CASES, (2, 2))?;
    check_bytes(&image, &[41, 11, 12, 42])
}

#[test]
fn requests_are_printed_in_words(rt: HostRuntime) -> Result<(), Fail> {
    check_shown(rt.alloc(), Request::Read, "read")?;
    check_shown(rt.alloc(), Request::Write, "write")?;
    check_shown(rt.alloc(), Request::Flush, "flush")
}
