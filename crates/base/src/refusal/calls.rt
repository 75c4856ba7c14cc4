// The number under which a refusal is reported, and its words.
ghost use Rattle.std.specs.Prelude.{◌≡◌, Some, decimal};
ghost use Rattle.base.specs.Refusals.{number, words};

use super::Refusal;
use std::fmt;

impl Refusal {
    pub fn number(self) -> u8
        ensures { result ≡ number self }
    {
        self as u8
    }

    // What is refused, in plain words.
    pub fn words(self) -> &'static str
        ensures { result.now ≡ words self }
    {
        match self {
            Refusal::FrameCount => "the number of frames is 0 or above 64",
            Refusal::PinPlaceCount => "the number of pin places is above 8",
            Refusal::BufferLength => "the sector buffer is not 512 bytes long",
            Refusal::NoSuchSector => "the sector number is not below the sector count",
            Refusal::AlreadyPinned => "the sector is pinned already",
            Refusal::PinPlacesTaken => "all pin places are taken",
            Refusal::DeadSector => "the sector is dead",
            Refusal::FrameNotFilled => "the frame is not filled",
            Refusal::TraceTooLong => "the trace is longer than 32768 bytes",
            Refusal::FieldCount => "the line has other than five fields",
            Refusal::NotANumber =>
                "the field is not a number of 1 to 10 digits, or above its largest value",
            Refusal::BadSize => "the size is not a multiple of 512 from 512 to 65536",
            Refusal::BadOpcode => "the opcode is none of R, r, W and w",
            Refusal::BadTimeStamp =>
                "the time stamp is not 1 to 10 digits, nor these with a point and 1 to 9 digits behind",
            Refusal::PastLastSector => "the last sector touched lies above 4294967295",
            Refusal::TooManyTouches => "the touches so far exceed 4096",
            Refusal::ListTooLong => "the list of keys is longer than 4096",
            Refusal::TooFewPlaces => "a lent list has too few places",
            Refusal::SmallerFrameCount => "the smaller number of frames is 0 or above the larger",
            Refusal::IndexFull => "every slot of the index is taken",
        }
    }
}

// A refusal is printed as its number.
impl fmt::Display for Refusal {
    ghost output = { λ refusal. Some (decimal (number refusal)) };

    fn fmt<W: fmt::Write>(&self, f: &mut fmt::Formatter<W>) -> fmt::Result {
        write!(f, "{}", self.number())
    }
}
