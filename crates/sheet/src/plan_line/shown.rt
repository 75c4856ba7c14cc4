// How a plan's line is printed.
ghost use Rattle.std.specs.Prelude.{Some};
ghost use Rattle.sheet.specs.PlanLines.{shown_line};

use super::PlanLine;
use std::fmt;

// The frames, the smaller number of frames, the fewest fetches on them, the ceiling, and the fetches of each policy.
impl fmt::Display for PlanLine {
    ghost output = { λ line. Some (shown_line line) };

    fn fmt<W: fmt::Write>(&self, f: &mut fmt::Formatter<W>) -> fmt::Result {
        write!(
            f,
            "{},{},{},{},",
            self.frames, self.smaller, self.plan.fetches, self.plan.ceiling
        )?;
        write!(f, "{},{},{}", self.lru, self.fifo, self.clock)
    }
}
