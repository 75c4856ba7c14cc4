// Turns, each with a buffer of one byte throughout.
use crate::disk_helpers::{BLANK, only_byte};
use crate::helpers::check_eq;
use base::Refusal;
use disk::{Disk, Request, Tallies, Turn, serve_turns};
use std::alloc::{AllocError, Global};
use std::test::Fail;

pub type Answer = Result<(), Refusal>;

pub const SHORT: Answer = Err(Refusal::BufferLength);

pub const NO_SECTOR: Answer = Err(Refusal::NoSuchSector);

pub const DEAD: Answer = Err(Refusal::DeadSector);

// A turn: its task, request and sector, and its buffer's length and byte; and how it ends: its answer, and the buffer's byte.
pub type Case = (u8, Request, u32, (usize, u8), Answer, u8);

// A read that is accepted, and the byte that it brings.
pub fn read_case(sector: u32, byte: u8) -> Case {
    (1, Request::Read, sector, (512, BLANK), Ok(()), byte)
}

pub fn turns_of(heap: Global, cases: &[Case]) -> Result<Vec<Turn>, AllocError> {
    cases
        .iter()
        .map(|(task, request, sector, (len, byte), ..)| -> Result<Turn, AllocError> {
            let buffer = vec![in heap; *byte; *len]?;
            Ok(Turn::new(*task, *request, *sector, buffer))
        })
        .try_collect(heap)
}

pub fn check_turns(turns: &[Turn], cases: &[Case]) -> Result<(), Fail> {
    check_eq(turns.len(), cases.len())?;
    for (turn, (task, _, _, (len, _), answer, after)) in turns.iter().zip(cases) {
        check_eq((turn.task, turn.answer), (*task, Some(*answer)))?;
        let found = (turn.buffer.len(), only_byte(&turn.buffer));
        check_eq(found, (*len, Some(*after)))?;
    }
    Ok(())
}

// Has a disk serve turns, after which it has these tallies: reads and writes.
pub fn check_served<D: Disk>(
    heap: Global,
    disk: &mut D,
    cases: &[Case],
    tallies: (u64, u64),
) -> Result<(), Fail>
    requires { D.Disk.sound disk.old }
    ensures { D.Disk.sound disk.new }
{
    let mut turns = turns_of(heap, cases)?;
    let served = serve_turns(disk, &mut turns);
    check_turns(&turns, cases)?;
    let (reads, writes) = tallies;
    check_eq(served, Tallies::new(reads, writes))
}
