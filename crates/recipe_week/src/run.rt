// Planning, the run through the cache, and the end.
use crate::tasks::{PINNED, SECTORS, TASKS, touches_of, turns_of};
use base::{Geometry, Refusal, SECTOR_BYTES, Sector, VolumeKey};
use cache::{SetUpCache, run_turns};
use disk::{Disk, ImageDisk, Tallies, Turn, serve_turns};
use policy::Lru;
use sheet::{PLAN_HEADER, PlanLine, plan_of_keys};
use std::alloc::{AllocError, Global};
use std::io;
use workspace::Workspace;

// The machine's cache, and the smaller one that the plan's schedule has.
const FRAMES: usize = 4;

const SMALLER: usize = 2;

const IMAGE_BYTES: usize = SECTORS as usize * SECTOR_BYTES;

// What a run through the cache came to.
#[derive(Clone, Copy)]
struct Outcome {
    fetches: u64,
    sectors: u32,
    below: Tallies,
}

fn plan_for(heap: Global, touches: &[Sector]) -> Result<Result<PlanLine, Refusal>, AllocError> {
    let mut workspace = Workspace::new(heap)?;
    Ok(plan_of_keys(touches, FRAMES, SMALLER, &mut workspace.lists()))
}

// Runs the turns through a cache over the image, by LRU, then reads the pinned sector directly and ends the cache.
fn run_cached(geometry: Geometry, image: &mut [u8], turns: &mut [Turn]) -> Outcome {
    let disk = ImageDisk::new(image, &[]);
    let mut set_up = SetUpCache::<ImageDisk<'_>, Lru>::new(geometry, disk, ());
    let _ = set_up.pin(PINNED);
    let (mut cache, slip) = run_turns(set_up, turns);
    let mut buffer = [0u8; SECTOR_BYTES];
    let _ = cache.read_sector(PINNED, &mut buffer);
    let fetches = cache.fetches();
    let disk = cache.end(slip);
    Outcome {
        fetches,
        sectors: disk.count(),
        below: disk.tallies(),
    }
}

fn run_alone(image: &mut [u8], turns: &mut [Turn]) -> Tallies {
    let mut disk = ImageDisk::new(image, &[]);
    serve_turns(&mut disk, turns)
}

fn yes_or_no(b: bool) -> &'static str {
    if b { "yes" } else { "no" }
}

fn print_plan(
    rt: &HostRuntime,
    touches: usize,
    unpinned: usize,
    line: &PlanLine,
) -> io::Result<()> {
    println!(rt; "Wednesday: the plan for {FRAMES} frames, by a schedule on {SMALLER}")?;
    println!(rt;
        "  sector LBA of unit ASU is sector (LBA xor ASU) mod {SECTORS} of the image; sector {PINNED} is pinned"
    )?;
    println!(rt;
        "  {touches} touches recorded, {unpinned} of them on sectors that are not pinned"
    )?;
    println!(rt; "  {PLAN_HEADER}")?;
    println!(rt; "  {line}")
}

fn print_outcome(
    rt: &HostRuntime,
    turns: &[Turn],
    line: &PlanLine,
    outcome: Outcome,
) -> io::Result<()> {
    let Outcome {
        fetches,
        sectors,
        below,
    } = outcome;
    let refused = turns
        .iter()
        .filter(|turn| turn.answer != Some(Ok(())))
        .count();
    let within = yes_or_no(fetches <= line.plan.ceiling);
    println!(rt;
        "Thursday: {TASKS} tasks take {} turns over {sectors} sectors, the last of them a flush; then sector {PINNED} is read",
        turns.len()
    )?;
    println!(rt; "  {refused} turns are refused")?;
    println!(rt;
        "  F is {fetches}; below, {} reads and {} writes were served",
        below.reads, below.writes
    )?;
    println!(rt; "  within the ceiling: {within}")
}

// From Wednesday to Friday, unless the plan is refused.
pub fn run_week(rt: &HostRuntime, keys: &[VolumeKey]) -> anyhow::Result<Result<(), Refusal>> {
    let heap = rt.alloc();
    let touches = touches_of(heap, keys)?;
    let line = match plan_for(heap, &touches)? {
        Ok(line) => line,
        Err(refusal) => return Ok(Err(refusal)),
    };
    print_plan(rt, keys.len(), touches.len(), &line)?;
    let geometry = Geometry::new(FRAMES, 1).unwrap();
    let mut turns = turns_of(heap, keys)?;
    let mut again = turns_of(heap, keys)?;
    let mut image = vec![in heap; 0u8; IMAGE_BYTES]?;
    let mut alone = vec![in heap; 0u8; IMAGE_BYTES]?;
    let outcome = run_cached(geometry, &mut image, &mut turns);
    print_outcome(rt, &turns, &line, outcome)?;
    let _ = run_alone(&mut alone, &mut again);
    let same = yes_or_no(image.as_slice() == alone.as_slice());
    println!(rt; "Friday: the cache is ended")?;
    println!(rt; "  the image holds the bytes of the same turns on the disk alone: {same}")?;
    Ok(Ok(()))
}
