// Making a geometry, and reading it.
ghost use Rattle.std.specs.Prelude.{◌≡◌};
ghost use Rattle.base.specs.Geometries.{built, frames_of, pins_of, Bounded};

use super::Geometry;
use crate::limits::{MAX_FRAMES, MAX_PINS};
use crate::refusal::Refusal;

impl Geometry {
    // Checks the frames first, then the pin places.
    pub fn new(frames: usize, pins: usize) -> Result<Geometry, Refusal>
        ensures { built frames pins result }
    {
        if frames == 0 || frames > MAX_FRAMES {
            return Err(Refusal::FrameCount);
        }
        if pins > MAX_PINS {
            return Err(Refusal::PinPlaceCount);
        }
        Ok(Geometry {
            frames: frames as u8,
            pins: pins as u8,
        })
    }

    pub fn frames(&self) -> usize
        ensures value { result ≡ frames_of self.now }
        ensures bounded { Bounded self.now }
    {
        self.frames as usize
    }

    pub fn pins(&self) -> usize
        ensures value { result ≡ pins_of self.now }
        ensures bounded { Bounded self.now }
    {
        self.pins as usize
    }
}
