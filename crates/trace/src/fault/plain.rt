// A fault in plain words, for the one who has to mend the trace or the plan.
ghost use Rattle.std.specs.Prelude.{Some};
ghost use Rattle.trace.specs.Plain.{field_name, plain_field, plain_fault};

use super::{Field, FieldFault, LineFault, ReplayFault};
use base::Refusal;
use std::fmt;

// A field is printed as its name.
impl fmt::Display for Field {
    ghost output = { λ field. Some (field_name field) };

    fn fmt<W: fmt::Write>(&self, f: &mut fmt::Formatter<W>) -> fmt::Result {
        f.write_str(match self {
            Field::Asu => "ASU",
            Field::Lba => "LBA",
            Field::Size => "size",
            Field::Opcode => "opcode",
            Field::TimeStamp => "time stamp",
        })
    }
}

// A field's fault is printed as its line, the field by number and name, and the words of the refusal.
impl fmt::Display for FieldFault {
    ghost output = { λ fault. Some (plain_field fault) };

    fn fmt<W: fmt::Write>(&self, f: &mut fmt::Formatter<W>) -> fmt::Result {
        write!(f, "line {}, field {} ", self.line, self.field.number())?;
        write!(f, "({}): {}", self.field, self.refusal.words())
    }
}

// A fault as it is printed in plain words: its line and field where it has them, and the words of its refusal.
#[derive(Clone, Copy, PartialEq, Eq, Debug)]
pub struct Plain(pub ReplayFault);

impl fmt::Display for Plain {
    ghost output = { λ plain. Some (plain_fault plain.0) };

    fn fmt<W: fmt::Write>(&self, f: &mut fmt::Formatter<W>) -> fmt::Result {
        match self.0 {
            ReplayFault::Line(LineFault::Field(fault)) => write!(f, "{fault}"),
            ReplayFault::Line(LineFault::FieldCount { line }) => {
                write!(f, "line {line}: {}", Refusal::FieldCount.words())
            }
            ReplayFault::Line(LineFault::TooManyTouches { line }) => {
                write!(f, "line {line}: {}", Refusal::TooManyTouches.words())
            }
            ReplayFault::Refused(refusal) => f.write_str(refusal.words()),
        }
    }
}
