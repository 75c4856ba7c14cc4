// Trace text as volume keys: reads lines of unit, sector number, size, opcode and time stamp, and refuses what has another form.
#![tactic(auto)]

mod access;
mod fault;
mod fields;
mod judged;
mod line;
mod reader;
mod splits;
mod touches;

pub use fault::{Field, FieldFault, LineFault, Plain, ReplayFault, Report};
pub use judged::{JudgedTrace, judge_trace, read_trace};
