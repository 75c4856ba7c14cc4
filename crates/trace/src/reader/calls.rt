// Handing out one line after another.
ghost use Rattle.std.specs.Prelude.{◌≡◌, ◌<◌, ◌≤◌, [], ◌∷◌, length, drop, MatchOption};
ghost use Rattle.std.specs.Iterator.{at_most};
ghost use Rattle.trace.specs.Splits.{lines};
ghost use Rattle.trace.specs.Reading.{unread, lines_read, Advanced, Stripped};

use super::TraceReader;
use crate::line::Line;
use crate::splits::split_once;
use base::MAX_TEXT_BYTES;

impl<'a> TraceReader<'a> {
    pub fn new(text: &'a [u8]) -> TraceReader<'a>
        requires { length text.now ≤ MAX_TEXT_BYTES }
        ensures text { unread result ≡ text.now }
        ensures line { lines_read result ≡ 0 }
    {
        TraceReader {
            text,
            place: 0,
            line: 0,
        }
    }
}

// The lines without their endings, until the text is at its end.
impl<'a> Iterator for TraceReader<'a> {
    type Item = Line<'a>;

    ghost next_gives = { λ before line after. MatchOption line (unread before ≡ []) (λ l. Advanced before after l.number l.text.now) };

    ghost remaining = { λ reader. at_most (length (unread reader)) };

    fn next(&mut self) -> Option<Line<'a>> {
        let rest = &self.text[self.place..];
        if rest.is_empty() {
            return None;
        }
        let (text, len) = first_line(rest);
        self.place += len;
        self.line += 1;
        Some(Line {
            number: self.line,
            text,
        })
    }
}

// The first line of a text that is not empty, without its ending, and how many bytes it has with it.
#[tactic(auto, using(crate::proofs::Splitting::first_fed, crate::proofs::Splitting::first_last, crate::proofs::Splitting::stripped_is))]
fn first_line(text: &[u8]) -> (&[u8], usize)
    requires { 0 < length text.now }
    ensures split { lines text.now ≡ result.0.now ∷ lines (drop result.1 text.now) }
    ensures some { 0 < result.1 }
    ensures within { result.1 ≤ length text.now }
{
    match split_once(text, b'\n') {
        Some((before, _)) => (without_return(before), before.len() + 1),
        None => (text, text.len()),
    }
}

// A line that a line feed ended, without the carriage return of its ending.
fn without_return(line: &[u8]) -> &[u8]
    ensures { Stripped line.now result.now }
{
    line.strip_suffix(b"\r").unwrap_or(line)
}
