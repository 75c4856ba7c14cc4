// Four sectors, of which sector 2 is dead, behind one frame: sessions by turns, and one of them by calls.
ghost use Rattle.cache.specs.Reading.{Safe};

use crate::cache_helpers::*;
use crate::disk_helpers::*;
use crate::helpers::check_eq;
use crate::turn_helpers::*;
use base::{Geometry, Refusal};
use cache::{Cache, SetUpCache};
use disk::{Disk, ImageDisk, Request, Tallies};
use policy::{Lru, Policy};
use std::test::Fail;

// No pins and no turns.
const EMPTY: Session<'static> = Session {
    frames: 1,
    pin_places: 0,
    image_bytes: 2048,
    dead: &[2],
    pins: &[],
    turns: &[],
    fetches: 0,
    tallies: (0, 0),
    bytes: &[10, 11, 12, 13],
};

const ONE_FRAME: Session<'static> = Session {
    turns: &[
        (1, Request::Write, 0, (512, 50), Ok(()), 50),
        (1, Request::Read, 1, (512, BLANK), Ok(()), 11),
        (1, Request::Write, 2, (512, 52), DEAD, 52),
        (1, Request::Read, 4, (512, BLANK), NO_SECTOR, BLANK),
        (1, Request::Flush, 9, (512, 1), Ok(()), 1),
        (1, Request::Read, 0, (512, BLANK), Ok(()), 50),
    ],
    fetches: 3,
    tallies: (3, 1),
    bytes: &[50, 11, 12, 13],
    ..EMPTY
};

#[test]
fn turns_behind_one_frame(rt: HostRuntime) -> Result<(), Fail> {
    check_session::<Lru>(rt.alloc(), (), &ONE_FRAME)
}

fn check_calls<D: Disk, P: Policy>(cache: &mut Cache<D, P>) -> Result<(), Fail>
    requires { Safe D.Disk P.Policy cache.old }
    ensures { Safe D.Disk P.Policy cache.new }
{
    check_eq(write_of::<512, Cache<D, P>>(cache, 0, 50), Ok(()))?;
    check_eq(read_of::<512, Cache<D, P>>(cache, 1), (Ok(()), Some(11)))?;
    let dead = write_of::<512, Cache<D, P>>(cache, 2, 52);
    check_eq(dead, Err(Refusal::DeadSector))?;
    let past = read_of::<512, Cache<D, P>>(cache, 4);
    check_eq(past, (Err(Refusal::NoSuchSector), Some(BLANK)))?;
    cache.flush();
    check_eq(read_of::<512, Cache<D, P>>(cache, 0), (Ok(()), Some(50)))?;
    check_eq(cache.fetches(), 3)
}

#[test]
fn calls_behind_one_frame(rt: HostRuntime) -> Result<(), Fail> {
    let geometry = Geometry::new(1, 0)?;
    let mut image = image_of(rt.alloc(), 2048)?;
    let disk = ImageDisk::new(&mut image, &[2]);
    let set_up = SetUpCache::<ImageDisk<'_>, Lru>::new(geometry, disk, ());
    let (disk, checked) = run(set_up, check_calls::<ImageDisk<'_>, Lru>);
    let tallies = disk.tallies();
    checked?;
    check_eq(tallies, Tallies::new(3, 1))?;
    check_bytes(&image, &[50, 11, 12, 13])
}

// Buffers that are one byte short, with sectors that are wrong, dead and live.
const SHORT_BUFFERS: Session<'static> = Session {
    turns: &[
        (1, Request::Read, 4, (511, BLANK), SHORT, BLANK),
        (1, Request::Read, 2, (511, BLANK), SHORT, BLANK),
        (1, Request::Read, 0, (511, BLANK), SHORT, BLANK),
        (1, Request::Write, 4, (511, 54), SHORT, 54),
        (1, Request::Write, 2, (511, 52), SHORT, 52),
        (1, Request::Write, 0, (511, 50), SHORT, 50),
    ],
    ..EMPTY
};

#[test]
fn short_buffers_are_refused_first(rt: HostRuntime) -> Result<(), Fail> {
    check_session::<Lru>(rt.alloc(), (), &SHORT_BUFFERS)
}

// Pins while there is a free place, the last of which takes it, and then without one. There are no turns, so the image has served the
// pins alone.
const PINS: Session<'static> = Session {
    pin_places: 2,
    pins: &[
        (1, Ok(())),
        (2, Err(Refusal::DeadSector)),
        (4, Err(Refusal::NoSuchSector)),
        (1, Err(Refusal::AlreadyPinned)),
        (0, Ok(())),
        (3, Err(Refusal::PinPlacesTaken)),
        (2, Err(Refusal::PinPlacesTaken)),
        (0, Err(Refusal::AlreadyPinned)),
        (4, Err(Refusal::NoSuchSector)),
    ],
    tallies: (2, 0),
    ..EMPTY
};

#[test]
fn pins_are_refused(rt: HostRuntime) -> Result<(), Fail> {
    check_session::<Lru>(rt.alloc(), (), &PINS)
}

// Pinned sectors are no touches of the frames. Some pins between them are refused.
const PINNED: Session<'static> = Session {
    pin_places: 2,
    pins: &[
        (1, Ok(())),
        (2, Err(Refusal::DeadSector)),
        (4, Err(Refusal::NoSuchSector)),
        (1, Err(Refusal::AlreadyPinned)),
        (0, Ok(())),
    ],
    turns: &[
        (1, Request::Read, 1, (512, BLANK), Ok(()), 11),
        (1, Request::Write, 1, (512, 61), Ok(()), 61),
        (1, Request::Write, 0, (512, 60), Ok(()), 60),
        (1, Request::Read, 1, (512, BLANK), Ok(()), 61),
    ],
    tallies: (2, 2),
    bytes: &[60, 61, 12, 13],
    ..EMPTY
};

#[test]
fn pinned_sectors_are_not_fetched(rt: HostRuntime) -> Result<(), Fail> {
    check_session::<Lru>(rt.alloc(), (), &PINNED)
}
