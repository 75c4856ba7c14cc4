// How a request is printed.
ghost use Rattle.std.specs.Prelude.{Some};
ghost use Rattle.disk.specs.Turns.{shown_request};

use super::Request;
use std::fmt;

impl fmt::Display for Request {
    ghost output = { λ request. Some (shown_request request) };

    fn fmt<W: fmt::Write>(&self, f: &mut fmt::Formatter<W>) -> fmt::Result {
        f.write_str(match self {
            Request::Read => "read",
            Request::Write => "write",
            Request::Flush => "flush",
        })
    }
}
