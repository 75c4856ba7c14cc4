// How a turn is made.
ghost use Rattle.std.specs.Prelude.{◌≡◌, None};

use super::{Request, Turn};

impl Turn {
    // A turn that is still to be taken.
    pub fn new(task: u8, request: Request, sector: u32, buffer: Vec<u8>) -> Turn
        ensures { result ≡ record { task = task; request = request; sector = sector; buffer = buffer; answer = None } }
    {
        Turn {
            task,
            request,
            sector,
            buffer,
            answer: None,
        }
    }
}
