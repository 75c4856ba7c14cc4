// A trace that several groups of tests use, and what reading a trace answers, where a fault is told by what is reported of it.
use base::VolumeKey;
use trace::{Report, read_trace};

pub fn judge(text: &str, keys: &mut [VolumeKey]) -> Result<usize, Report> {
    read_trace(text.as_bytes(), keys).map_err(|fault| fault.report())
}

// The number, line and field that are reported.
pub type Numbers = (u8, u32, u8);

pub fn report_of(numbers: Numbers) -> Report {
    let (number, line, field) = numbers;
    Report {
        number,
        line,
        field,
    }
}

// The touches of `anomaly_touches` as a trace.
pub const ANOMALY_TRACE: &str = "\
    0,1,512,R,0\n0,2,512,R,0\n0,3,512,R,0\n0,4,512,R,0\n\
    0,1,512,R,0\n0,2,512,R,0\n0,5,512,R,0\n\
    0,1,512,R,0\n0,2,512,R,0\n0,3,512,R,0\n0,4,512,R,0\n0,5,512,R,0\n";
