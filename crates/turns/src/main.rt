// Serves turns of several tasks on two images joined to one disk, and prints each turn with its answer, then the tallies.
#![tactic(auto)]

use base::SECTOR_BYTES;
use disk::{Disk, ImageDisk, JoinedDisk, Request, Turn, serve_turns};
use std::alloc::{AllocError, Global};
use std::io;

// A turn with a buffer whose bytes are all the same.
fn turn(
    heap: Global,
    task: u8,
    request: Request,
    sector: u32,
    byte: u8,
    len: usize,
) -> Result<Turn, AllocError> {
    let buffer = vec![in heap; byte; len]?;
    Ok(Turn::new(task, request, sector, buffer))
}

// What is served: the first image has sectors 0 and 1, the second 2 to 4, of which sector 3 is dead.
fn turns_of_tasks(heap: Global) -> Result<Vec<Turn>, AllocError> {
    Ok(vec![in heap;
        turn(heap, 1, Request::Write, 1, 17, SECTOR_BYTES)?,
        turn(heap, 2, Request::Write, 2, 34, SECTOR_BYTES)?,
        turn(heap, 3, Request::Read, 2, 0, SECTOR_BYTES)?,
        turn(heap, 1, Request::Write, 3, 51, SECTOR_BYTES)?,
        turn(heap, 2, Request::Read, 5, 0, SECTOR_BYTES)?,
        turn(heap, 3, Request::Read, 5, 0, SECTOR_BYTES - 1)?,
        turn(heap, 1, Request::Flush, 0, 0, 0)?,
        turn(heap, 2, Request::Read, 1, 0, SECTOR_BYTES)?,
    ]?)
}

// A turn's line, in one write.
fn print_turn(rt: &HostRuntime, turn: &Turn) -> io::Result<()> {
    let (task, request, sector) = (turn.task, turn.request, turn.sector);
    match turn.answer {
        Some(Ok(())) => {
            let first = turn.buffer.first().copied().unwrap_or(0);
            println!(rt; "task {task}: {request} sector {sector}: served, first byte {first}")
        }
        Some(Err(refusal)) => println!(rt;
            "task {task}: {request} sector {sector}: refused by {refusal}"
        ),
        None => println!(rt; "task {task}: {request} sector {sector}: not taken"),
    }
}

fn run(rt: &HostRuntime) -> anyhow::Result<()> {
    let heap = rt.alloc();
    let mut first = vec![in heap; 1u8; 2 * SECTOR_BYTES]?;
    let mut second = vec![in heap; 2u8; 3 * SECTOR_BYTES]?;
    let none: [u32; 0] = [];
    let dead = [1u32];
    let mut turns = turns_of_tasks(heap)?;
    let left = ImageDisk::new(&mut first, &none);
    let right = ImageDisk::new(&mut second, &dead);
    let mut joined = JoinedDisk::new(left, right);
    let tallies = serve_turns(&mut joined, &mut turns);
    for turn in &turns {
        print_turn(rt, turn)?;
    }
    println!(rt;
        "served: {} reads, {} writes",
        tallies.reads, tallies.writes
    )?;
    Ok(())
}

fn main(rt: HostRuntime) -> anyhow::Result<()> {
    run(&rt)
}
