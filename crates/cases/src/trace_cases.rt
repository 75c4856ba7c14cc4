// Texts that the trace reader accepts or refuses, each with its answer.
use crate::helpers::{check_eq, check_shown};
use crate::trace_helpers::{Numbers, judge, report_of};
use base::{Refusal, VolumeKey};
use std::test::Fail;
use trace::{ReplayFault, Report};

// A text of at most 128 touches.
fn judge_text(text: &str) -> Result<usize, Report> {
    judge(text, &mut [VolumeKey::new(0, 0); 128])
}

// Texts and their touches.
const ACCEPTED: [(&str, usize); 9] = [
    ("", 0),
    ("0,7,512,R,0.0", 1),
    ("0,7,512,R,0.0\n", 1),
    ("0,7,512,R,0.0\r\n", 1),
    ("0,7,512,r,0\r\n1,8,1024,W,0\n2,9,512,w,1", 4),
    ("0,4294967295,512,R,0", 1),
    ("0,4294967168,65536,R,0", 128),
    ("255,0,65536,w,1234567890.123456789", 128),
    ("0000000255,0000000007,0000001024,W,0", 2),
];

// Unit, sector number and size.
const NUMBERS: [(&str, Numbers); 17] = [
    ("256,7,512,R,0", (11, 1, 1)),
    (",7,512,R,0", (11, 1, 1)),
    ("-1,7,512,R,0", (11, 1, 1)),
    (" 1,7,512,R,0", (11, 1, 1)),
    ("00000000001,7,512,R,0", (11, 1, 1)),
    ("0,4294967296,512,R,0", (11, 1, 2)),
    ("0,,512,R,0", (11, 1, 2)),
    ("0,00000000007,512,R,0", (11, 1, 2)),
    ("0,7,,R,0", (11, 1, 3)),
    ("0,7,00000000512,R,0", (11, 1, 3)),
    ("0,7,0,R,0", (12, 1, 3)),
    ("0,7,513,R,0", (12, 1, 3)),
    ("0,7,66048,R,0", (12, 1, 3)),
    ("0,7,9999999999,R,0", (12, 1, 3)),
    ("0,6,512,R,0.0\n0,6,512,R,0.0\n0,7,500,R,0.0", (12, 3, 3)),
    ("0,4294967295,1024,R,0", (15, 1, 2)),
    ("0,4294967169,65536,R,0", (15, 1, 2)),
];

// Opcode and time stamp.
const WORDS: [(&str, Numbers); 9] = [
    ("0,7,512,X,0", (13, 1, 4)),
    ("0,7,512,RW,0", (13, 1, 4)),
    ("0,7,512,,0", (13, 1, 4)),
    ("0,7,512,R,", (14, 1, 5)),
    ("0,7,512,R,.5", (14, 1, 5)),
    ("0,7,512,R,5.", (14, 1, 5)),
    ("0,7,512,R,1.2.3", (14, 1, 5)),
    ("0,7,512,R,12345678901", (14, 1, 5)),
    ("0,7,512,R,1.1234567890", (14, 1, 5)),
];

// Lines with several faults, and lines with other than five fields.
const ORDER: [(&str, Numbers); 10] = [
    ("x,x,x,x,x", (11, 1, 1)),
    ("0,x,x,x,x", (11, 1, 2)),
    ("0,7,x,x,x", (11, 1, 3)),
    ("0,7,1,x,x", (12, 1, 3)),
    ("0,7,512,x,x", (13, 1, 4)),
    ("0,7,512,R,x", (14, 1, 5)),
    ("0,4294967295,1024,R,x", (14, 1, 5)),
    ("0,7,512,R", (10, 1, 0)),
    ("x,7,512,R", (10, 1, 0)),
    ("0,7,512,R,0,0", (10, 1, 0)),
];

// Empty lines, and carriage returns that end no line.
const ENDINGS: [(&str, Numbers); 10] = [
    ("\n", (10, 1, 0)),
    ("0,7,512,R,0\n\n0,7,512,R,0\n", (10, 2, 0)),
    ("0,7,512,R,0\r\n\r\n", (10, 2, 0)),
    ("\r", (10, 1, 0)),
    ("0,7\r,512,R,0\n", (11, 1, 2)),
    ("0,7,512\r,R,0\n", (11, 1, 3)),
    ("0,7,512,R\r,0\n", (13, 1, 4)),
    ("0,7,512,R,0\r", (14, 1, 5)),
    ("0,7,512,R,0\r\r\n", (14, 1, 5)),
    ("0,7,512,R,0\r0,7,512,R,0\n", (10, 1, 0)),
];

fn check_refused(cases: &[(&str, Numbers)]) -> Result<(), Fail> {
    for (text, numbers) in cases {
        let expected = (*text, Err(report_of(*numbers)));
        check_eq((*text, judge_text(*text)), expected)?;
    }
    Ok(())
}

#[test]
fn accepts() -> Result<(), Fail> {
    for (text, touches) in &ACCEPTED {
        check_eq((*text, judge_text(*text)), (*text, Ok(*touches)))?;
    }
    Ok(())
}

#[test]
fn refuses() -> Result<(), Fail> {
    check_refused(&NUMBERS)?;
    check_refused(&WORDS)?;
    check_refused(&ORDER)?;
    check_refused(&ENDINGS)
}

#[test]
fn reports_are_printed_as_their_numbers(rt: HostRuntime) -> Result<(), Fail> {
    check_shown(rt.alloc(), report_of((12, 3, 3)), "12,3,3")
}

#[test]
fn faults_are_printed_as_refusals(rt: HostRuntime) -> Result<(), Fail> {
    let fault = ReplayFault::Refused(Refusal::TraceTooLong);
    check_shown(rt.alloc(), fault, "refused,9,0,0")
}
