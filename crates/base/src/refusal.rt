// Why a call refuses its input: one enum for the whole product, so that a refusal has one number everywhere.
mod calls;

// Its numbers are those under which a refusal is reported.
#[derive(Clone, Copy, PartialEq, Eq, Debug)]
pub enum Refusal {
    // A number of frames is 0 or above 64.
    FrameCount = 1,
    // A number of pin places is above 8.
    PinPlaceCount = 2,
    // A sector buffer is not 512 bytes long.
    BufferLength = 3,
    // A sector number is not below the sector count.
    NoSuchSector = 4,
    // A sector to be pinned is pinned already.
    AlreadyPinned = 5,
    // All pin places are taken.
    PinPlacesTaken = 6,
    // The sector is dead.
    DeadSector = 7,
    // A frame given to a use is not filled.
    FrameNotFilled = 8,
    // A trace is longer than 32,768 bytes.
    TraceTooLong = 9,
    // A trace line has other than five fields.
    FieldCount = 10,
    // A unit, sector number or size is no number, or is above its largest value.
    NotANumber = 11,
    // A size is not a multiple of 512 from 512 to 65,536.
    BadSize = 12,
    // An opcode is none of R, r, W and w.
    BadOpcode = 13,
    // A time stamp has another form.
    BadTimeStamp = 14,
    // The last sector that a line touches lies above 4,294,967,295.
    PastLastSector = 15,
    // The touches so far exceed 4,096.
    TooManyTouches = 16,
    // A list of keys is longer than 4,096.
    ListTooLong = 17,
    // A list that the caller lends has too few places.
    TooFewPlaces = 18,
    // The smaller number of frames, in planning, is 0 or above the larger.
    SmallerFrameCount = 19,
    // A new key is put into an index whose every slot is taken.
    IndexFull = 20,
}
