// Why a trace is refused: a field's fault stands whole inside its line's, and that inside the replay's.
// The line is put in where the fault is found, so `?` alone carries it on.
ghost use Rattle.std.specs.Prelude.{◌≡◌};
ghost use Rattle.trace.specs.declared.fault.LineFault.TheVariants as line_fault;
ghost use Rattle.trace.specs.declared.fault.ReplayFault.TheVariants as replay_fault;

use base::Refusal;

mod plain;
mod reports;

pub use plain::Plain;

// The five fields of a line, in their order, and their numbers in a report.
#[derive(Clone, Copy, PartialEq, Eq, Debug)]
pub enum Field {
    Asu = 1,
    Lba = 2,
    Size = 3,
    Opcode = 4,
    TimeStamp = 5,
}

#[derive(Clone, Copy, PartialEq, Eq, Debug)]
pub struct FieldFault {
    pub line: u32,
    pub field: Field,
    pub refusal: Refusal,
}

#[derive(Clone, Copy, PartialEq, Eq, Debug)]
pub enum LineFault {
    Field(FieldFault),
    // The line has other than five fields.
    FieldCount { line: u32 },
    // The touches up to this line exceed 4,096.
    TooManyTouches { line: u32 },
}

#[derive(Clone, Copy, PartialEq, Eq, Debug)]
pub enum ReplayFault {
    Line(LineFault),
    // A refusal that no line is at fault for.
    Refused(Refusal),
}

// What a fault is reported by: lines and fields count from 1, and 0 stands for none.
#[derive(Clone, Copy, PartialEq, Eq, Debug)]
pub struct Report {
    pub number: u8,
    pub line: u32,
    pub field: u8,
}

impl From<FieldFault> for LineFault {
    ghost from_gives = { λ fault r. r ≡ line_fault.Field fault };

    fn from(fault: FieldFault) -> LineFault {
        LineFault::Field(fault)
    }
}

impl From<LineFault> for ReplayFault {
    ghost from_gives = { λ fault r. r ≡ replay_fault.Line fault };

    fn from(fault: LineFault) -> ReplayFault {
        ReplayFault::Line(fault)
    }
}

impl From<Refusal> for ReplayFault {
    ghost from_gives = { λ refusal r. r ≡ replay_fault.Refused refusal };

    fn from(refusal: Refusal) -> ReplayFault {
        ReplayFault::Refused(refusal)
    }
}
