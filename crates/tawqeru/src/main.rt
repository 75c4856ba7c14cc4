// The program tawqeru. This run of it, in the gate, prints a sheet.
#![tactic(auto)]

use std::io;
use std::process::ExitCode;

fn main(rt: HostRuntime) -> io::Result<ExitCode> {
    planner::tawqeru(&rt)
}
