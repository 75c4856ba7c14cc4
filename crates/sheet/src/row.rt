// One line of the sheet.
#[derive(Clone, Copy, PartialEq, Eq, Debug)]
pub struct Row {
    pub frames: u8,
    pub lru: u64,
    pub fifo: u64,
    pub clock: u64,
    pub min: u64,
}

// The names of a row's numbers, in the order in which they are printed.
pub const HEADER: &str = "frames,LRU,FIFO,CLOCK,MIN";

mod calls;
mod shown;

pub(crate) use calls::row_of_keys;
