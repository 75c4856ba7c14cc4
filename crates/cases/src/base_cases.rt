// Geometries at their bounds, and the numbers of refusals.
use crate::helpers::{check_eq, check_shown};
use base::{Geometry, Refusal};
use std::test::Fail;

// The frames and the pin places of a geometry.
fn judged(frames: usize, pins: usize) -> Result<(usize, usize), Refusal> {
    let geometry = Geometry::new(frames, pins)?;
    Ok((geometry.frames(), geometry.pins()))
}

// Frames and pin places, and what a geometry of them answers for both.
const GEOMETRIES: [(usize, usize, Result<(usize, usize), Refusal>); 7] = [
    (0, 0, Err(Refusal::FrameCount)),
    (1, 0, Ok((1, 0))),
    (64, 8, Ok((64, 8))),
    (65, 8, Err(Refusal::FrameCount)),
    (64, 9, Err(Refusal::PinPlaceCount)),
    (65, 9, Err(Refusal::FrameCount)),
    (0, 9, Err(Refusal::FrameCount)),
];

#[test]
fn geometry_has_bounds() -> Result<(), Fail> {
    for (frames, pins, answer) in &GEOMETRIES {
        check_eq(judged(*frames, *pins), *answer)?;
    }
    Ok(())
}

const REFUSALS: [Refusal; 20] = [
    Refusal::FrameCount,
    Refusal::PinPlaceCount,
    Refusal::BufferLength,
    Refusal::NoSuchSector,
    Refusal::AlreadyPinned,
    Refusal::PinPlacesTaken,
    Refusal::DeadSector,
    Refusal::FrameNotFilled,
    Refusal::TraceTooLong,
    Refusal::FieldCount,
    Refusal::NotANumber,
    Refusal::BadSize,
    Refusal::BadOpcode,
    Refusal::BadTimeStamp,
    Refusal::PastLastSector,
    Refusal::TooManyTouches,
    Refusal::ListTooLong,
    Refusal::TooFewPlaces,
    Refusal::SmallerFrameCount,
    Refusal::IndexFull,
];

#[test]
fn refusals_have_numbers_in_order() -> Result<(), Fail> {
    for (i, refusal) in REFUSALS.iter().enumerate() {
        check_eq(refusal.number() as usize, i + 1)?;
    }
    Ok(())
}

#[test]
fn refusals_are_printed_as_their_numbers(rt: HostRuntime) -> Result<(), Fail> {
    check_shown(rt.alloc(), Refusal::FrameCount, "1")?;
    check_shown(rt.alloc(), Refusal::IndexFull, "20")
}
