// Curves at their limits: what is refused, and that a refusal leaves the lists as they were.
use crate::helpers::*;
use crate::trace_helpers::ANOMALY_TRACE;
use base::{Refusal, VolumeKey};
use curve::{curve_of_trace, lru_curve};
use std::alloc::Global;
use std::test::Fail;
use trace::{Field, FieldFault, LineFault, ReplayFault};

// How many keys, the places for distances and for counts, and what is answered.
type Case = (u32, usize, usize, Result<(), Refusal>);

const CASES: [Case; 11] = [
    (0, 0, 64, Ok(())),
    (0, 0, 63, Err(Refusal::TooFewPlaces)),
    (12, 12, 64, Ok(())),
    (12, 11, 64, Err(Refusal::TooFewPlaces)),
    (12, 12, 63, Err(Refusal::TooFewPlaces)),
    (4096, 4096, 64, Ok(())),
    (4096, 4095, 64, Err(Refusal::TooFewPlaces)),
    (4097, 4097, 64, Err(Refusal::ListTooLong)),
    (4097, 4096, 64, Err(Refusal::ListTooLong)),
    (4097, 4097, 63, Err(Refusal::ListTooLong)),
    (4097, 0, 0, Err(Refusal::ListTooLong)),
];

// An accepted list has its counts written.
fn check_answer(heap: Global, case: &Case) -> Result<(), Fail> {
    let (keys, distances, counts, answer) = *case;
    let keys = different_sectors(heap, keys)?;
    let mut distances = vec![in heap; 77; distances]?;
    let mut counts = vec![in heap; 77; counts]?;
    let found = lru_curve(&keys, &mut distances, &mut counts);
    let is_kept = has_fill(&distances, &77) && has_fill(&counts, &77);
    check_eq((*case, found, is_kept), (*case, answer, answer.is_err()))
}

// A trace, the places for keys and for distances, and what is answered.
type TraceCase = (&'static str, usize, usize, Result<(), ReplayFault>);

const FAULTY_TRACE: &str = "0,1,512,R,0\n0,2,500,R,0\n";

const FAULT: Result<(), ReplayFault> = Err(ReplayFault::Line(LineFault::Field(FieldFault {
    line: 2,
    field: Field::Size,
    refusal: Refusal::BadSize,
})));

const TOO_FEW: Result<(), ReplayFault> = Err(ReplayFault::Refused(Refusal::TooFewPlaces));

const TRACE_CASES: [TraceCase; 5] = [
    (ANOMALY_TRACE, 12, 12, Ok(())),
    (ANOMALY_TRACE, 11, 12, TOO_FEW),
    (ANOMALY_TRACE, 12, 11, TOO_FEW),
    (FAULTY_TRACE, 12, 12, FAULT),
    (FAULTY_TRACE, 0, 0, FAULT),
];

fn check_trace_answer(heap: Global, case: &TraceCase) -> Result<(), Fail> {
    let (text, keys, distances, answer) = *case;
    let fill = VolumeKey::new(9, 9);
    let mut keys = vec![in heap; fill; keys]?;
    let mut distances = vec![in heap; 77; distances]?;
    let found = curve_of_trace(text.as_bytes(), &mut keys, &mut distances).map(|_| ());
    let is_kept = has_fill(&keys, &fill) && has_fill(&distances, &77);
    check_eq((*case, found, is_kept), (*case, answer, answer.is_err()))
}

#[test]
fn curves_are_judged(rt: HostRuntime) -> Result<(), Fail> {
    for case in &CASES {
        check_answer(rt.alloc(), case)?;
    }
    for case in &TRACE_CASES {
        check_trace_answer(rt.alloc(), case)?;
    }
    Ok(())
}
