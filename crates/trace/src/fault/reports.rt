// The number, line and field under which a fault is reported.
ghost use Rattle.std.specs.Prelude.{◌≡◌, Some};
ghost use Rattle.trace.specs.Faults.{field_number, field_report, line_report, reported, shown_fault, shown_report};

use super::{Field, FieldFault, LineFault, ReplayFault, Report};
use base::Refusal;
use std::fmt;

impl Field {
    pub fn number(self) -> u8
        ensures { result ≡ field_number self }
    {
        self as u8
    }
}

impl FieldFault {
    pub fn report(&self) -> Report
        ensures { result ≡ field_report self.now }
    {
        Report {
            number: self.refusal.number(),
            line: self.line,
            field: self.field.number(),
        }
    }
}

impl LineFault {
    pub fn report(&self) -> Report
        ensures { result ≡ line_report self.now }
    {
        match self {
            LineFault::Field(fault) => fault.report(),
            LineFault::FieldCount { line } => Report {
                number: Refusal::FieldCount.number(),
                line: *line,
                field: 0,
            },
            LineFault::TooManyTouches { line } => Report {
                number: Refusal::TooManyTouches.number(),
                line: *line,
                field: 0,
            },
        }
    }
}

impl ReplayFault {
    pub fn report(&self) -> Report
        ensures { result ≡ reported self.now }
    {
        match self {
            ReplayFault::Line(fault) => fault.report(),
            ReplayFault::Refused(refusal) => Report {
                number: refusal.number(),
                line: 0,
                field: 0,
            },
        }
    }
}

// A report is printed as its three numbers, with commas between them.
impl fmt::Display for Report {
    ghost output = { λ report. Some (shown_report report) };

    fn fmt<W: fmt::Write>(&self, f: &mut fmt::Formatter<W>) -> fmt::Result {
        write!(f, "{},{},{}", self.number, self.line, self.field)
    }
}

// A fault is printed as a refusal with its report.
impl fmt::Display for ReplayFault {
    ghost output = { λ fault. Some (shown_fault fault) };

    fn fmt<W: fmt::Write>(&self, f: &mut fmt::Formatter<W>) -> fmt::Result {
        write!(f, "refused,{}", self.report())
    }
}
