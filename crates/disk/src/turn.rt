// What a task asks of a disk: a turn with its own buffer, and the place for its answer.
use base::Refusal;

mod calls;
mod shown;

#[derive(Clone, Copy, PartialEq, Eq, Debug)]
pub enum Request {
    Read,
    Write,
    Flush,
}

#[derive(Drop)]
pub struct Turn {
    pub task: u8,
    pub request: Request,
    pub sector: u32,
    pub buffer: Vec<u8>,
    // nothing until the turn has been taken
    pub answer: Option<Result<(), Refusal>>,
}
