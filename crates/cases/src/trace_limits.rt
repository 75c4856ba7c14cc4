// Traces at their limits, and what the list of keys is afterwards.
use crate::helpers::check_eq;
use crate::trace_helpers::{Numbers, judge, report_of};
use base::VolumeKey;
use std::alloc::{AllocError, Global};
use std::test::Fail;
use trace::{Report, judge_trace};

// A line so many times, and one text more.
fn repeat(heap: Global, line: &str, times: usize, last: &str) -> Result<String, AllocError> {
    let mut text = line.repeat(heap, times)?;
    text.push_str(last)?;
    Ok(text)
}

// A line, how often it stands in the text, and what stands behind; how many bytes the text has; into how many places it is read, and
// what is answered.
type Limit = (
    &'static str,
    usize,
    &'static str,
    usize,
    usize,
    Result<usize, Numbers>,
);

// A line of 16 bytes, one of 17, and one of 128 touches.
const SHORT_LINE: &str = "0,0,512,R,00000\n";

const ONE_BYTE_MORE: &str = "0,0,512,R,000000\n";

const LONG_LINE: &str = "0,0,65536,R,0\n";

const TOO_LONG: Result<usize, Numbers> = Err((9, 0, 0));

const TOO_MANY: Result<usize, Numbers> = Err((16, 33, 0));

const LIMITS: [Limit; 7] = [
    (SHORT_LINE, 2048, "", 32768, 4096, Ok(2048)),
    (SHORT_LINE, 2047, ONE_BYTE_MORE, 32769, 4096, TOO_LONG),
    (LONG_LINE, 32, "", 448, 4096, Ok(4096)),
    (LONG_LINE, 32, "", 448, 4097, Ok(4096)),
    (LONG_LINE, 32, "1,0,512,R,0\n", 460, 4097, TOO_MANY),
    // the next line's fault comes later
    (LONG_LINE, 32, "1,0,512,R,0\nx\n", 462, 4097, TOO_MANY),
    (LONG_LINE, 32, "", 448, 4095, Err((18, 0, 0))),
];

#[test]
fn traces_have_limits(rt: HostRuntime) -> Result<(), Fail> {
    for (line, times, last, len, places, answer) in &LIMITS {
        let text = repeat(rt.alloc(), *line, *times, *last)?;
        check_eq(text.len(), *len)?;
        let expected = answer.map_err(report_of);
        let judged = judge_trace(text.as_bytes(), *places).map(|trace| trace.touches());
        check_eq(judged.map_err(|fault| fault.report()), expected)?;
        let mut keys = vec![in rt.alloc(); VolumeKey::new(0, 0); *places]?;
        check_eq(judge(text.as_str(), &mut keys), expected)?;
    }
    Ok(())
}

// What reading a text into a list of so many places answers, and the list afterwards.
fn check_keys(
    heap: Global,
    places: usize,
    text: &str,
    answer: Result<usize, Report>,
    after: &[VolumeKey],
) -> Result<(), Fail> {
    let mut keys = vec![in heap; VolumeKey::new(9, 9); places]?;
    check_eq(judge(text, &mut keys), answer)?;
    check_eq(&keys[..], after)
}

#[test]
fn keys_are_written_once_all_is_judged(rt: HostRuntime) -> Result<(), Fail> {
    let heap = rt.alloc();
    let text = "3,4294967294,1024,R,0\n5,7,512,W,0\n";
    let written = [(3, 4294967294), (3, 4294967295), (5, 7), (9, 9), (9, 9)].map(|(
        asu,
        lba,
    )| VolumeKey::new(asu, lba));
    check_keys(heap, 5, text, Ok(3), &written)?;
    check_keys(heap, 3, text, Ok(3), &written[0..3])?;
    let unchanged = [VolumeKey::new(9, 9); 5];
    check_keys(heap, 2, text, Err(report_of((18, 0, 0))), &unchanged[0..2])?;
    let faulty = "3,1,512,R,0\n3,x,512,R,0\n";
    check_keys(heap, 5, faulty, Err(report_of((11, 2, 2))), &unchanged)?;
    check_keys(heap, 0, "", Ok(0), &[])
}
