// What a planner reads of a trace: the sheet, with what each policy and the optimum fetch for a few numbers of frames, and the line
// of a plan.
#![tactic(auto)]

mod plan_line;
mod row;
mod sheet;

pub use plan_line::{PLAN_HEADER, PlanLine, plan_of_keys, plan_of_trace};
pub use row::{HEADER, Row};
pub use sheet::{FRAME_COUNTS, sheet_of_trace};
