// The rules' numbers that several layers share. Code, contracts and definitions speak of them by these names, and each is kept to its
// value by what is proved of it below.

// The bytes of a sector.
pub const SECTOR_BYTES: usize = 512;

// The most frames that a cache has.
pub const MAX_FRAMES: usize = 64;

// The most pin places that it has.
pub const MAX_PINS: usize = 8;

// The most touches of a trace, and the most keys of a list.
pub const MAX_TOUCHES: usize = 4096;

// The bytes of the longest trace.
pub const MAX_TEXT_BYTES: usize = 32_768;

const _: () = prove!(SECTOR_BYTES == 512);

const _: () = prove!(MAX_FRAMES == 64);

const _: () = prove!(MAX_PINS == 8);

const _: () = prove!(MAX_TOUCHES == 4096);

const _: () = prove!(MAX_TEXT_BYTES == 32_768);
