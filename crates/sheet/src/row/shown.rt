// How a row is printed.
ghost use Rattle.std.specs.Prelude.{Some};
ghost use Rattle.sheet.specs.Rows.{shown_row};

use super::Row;
use std::fmt;

impl fmt::Display for Row {
    ghost output = { λ row. Some (shown_row row) };

    fn fmt<W: fmt::Write>(&self, f: &mut fmt::Formatter<W>) -> fmt::Result {
        write!(
            f,
            "{},{},{},{},{}",
            self.frames, self.lru, self.fifo, self.clock, self.min
        )
    }
}
