// The program recipe_week: one recorded trace through the record, the sheet, the plan, the run of six tasks through the cache, and the
// end. This run of it, in the gate, takes a trace through the whole week.
#![tactic(auto)]

mod program;
mod run;
mod tasks;

use std::io;
use std::process::ExitCode;

fn main(rt: HostRuntime) -> io::Result<ExitCode> {
    program::recipe_week(&rt)
}
