// A session with a cache, from its set-up to its end.
ghost use Rattle.std.specs.Fn.{FnOnceTakesAtMut, FnOnceReturnsAtMut};
ghost use Rattle.cache.specs.Reading.{Safe};
ghost use Rattle.cache.specs.SetUp.{Ready};

use crate::disk_helpers::*;
use crate::helpers::check_eq;
use crate::turn_helpers::*;
use base::Geometry;
use cache::{Cache, SetUpCache, run_turns};
use disk::{Disk, ImageDisk, Tallies};
use policy::Policy;
use std::alloc::Global;
use std::test::Fail;

// Starts the cache, makes the calls and ends it. What they answer is given back, since a cache cannot be let go where a check fails.
pub fn run<D: Disk, P: Policy + Drop, R, F: FnOnce(&mut Cache<D, P>) -> R>(
    set_up: SetUpCache<D, P>,
    calls: F,
) -> (D, R)
    requires ready { Ready D.Disk P.Policy set_up }
    requires takes { (cache : _) → Safe D.Disk P.Policy cache → FnOnceTakesAtMut F.FnOnce calls cache }
    requires keeps { (before : _) (answer : R) (after : _) → Safe D.Disk P.Policy before →
        FnOnceReturnsAtMut F.FnOnce calls before answer after → Safe D.Disk P.Policy after }
    ensures { D.Disk.sound result.0 }
{
    let (mut cache, slip) = set_up.start();
    let answer = calls(&mut cache);
    (cache.end(slip), answer)
}

// A sector to be pinned, and the answer.
pub type Pin = (u32, Answer);

// A cache over an image and what is done with it, and what comes of it.
#[derive(Drop)]
pub struct Session<'a> {
    pub frames: usize,
    pub pin_places: usize,
    pub image_bytes: usize,
    pub dead: &'a [u32],
    pub pins: &'a [Pin],
    pub turns: &'a [Case],
    // F, and what the image has served, reads and writes, once the cache has ended
    pub fetches: u64,
    pub tallies: (u64, u64),
    // the byte throughout each of the first sectors
    pub bytes: &'a [u8],
}

fn check_pins<D: Disk, P: Policy>(set_up: &mut SetUpCache<D, P>, pins: &[Pin]) -> Result<(), Fail>
    requires { Ready D.Disk P.Policy set_up.old }
    ensures { Ready D.Disk P.Policy set_up.new }
{
    for (sector, answer) in pins {
        check_eq(set_up.pin(*sector), *answer)?;
    }
    Ok(())
}

pub fn check_session<P: Policy + Drop>(
    heap: Global,
    setting: P::Setting,
    session: &Session<'_>,
) -> Result<(), Fail>
where
    P::Setting: Drop,
{
    let geometry = Geometry::new(session.frames, session.pin_places)?;
    let mut image = image_of(heap, session.image_bytes)?;
    let mut turns = turns_of(heap, session.turns)?;
    let disk = ImageDisk::new(&mut image, session.dead);
    let mut set_up = SetUpCache::<ImageDisk<'_>, P>::new(geometry, disk, setting);
    let pinned = check_pins(&mut set_up, session.pins);
    let (cache, slip) = run_turns(set_up, &mut turns);
    let fetches = cache.fetches();
    let tallies = cache.end(slip).tallies();
    pinned?;
    check_turns(&turns, session.turns)?;
    let (reads, writes) = session.tallies;
    check_eq(
        (fetches, tallies),
        (session.fetches, Tallies::new(reads, writes)),
    )?;
    check_bytes(&image, session.bytes)
}
