// A whole run: a cache is started and takes the turns of several tasks, one after another.
ghost use Rattle.cache.specs.Reading.{Safe};
ghost use Rattle.cache.specs.SetUp.{Ready, Begins};
ghost use Rattle.cache.specs.Runs.{TakesOne, Runs};

use crate::cache::Cache;
use crate::set_up::SetUpCache;
use crate::slip::EndingSlip;
use disk::{Disk, Request, Turn};
use policy::Policy;

fn take_turn<D: Disk, P: Policy>(cache: &mut Cache<D, P>, turn: &mut Turn)
    requires { Safe D.Disk P.Policy cache.old }
    ensures kept { Safe D.Disk P.Policy cache.new }
    ensures takes { TakesOne D.Disk P.Policy cache.old turn.old turn.new cache.new }
{
    match turn.request {
        Request::Read => turn.answer = Some(cache.read_sector(turn.sector, &mut turn.buffer)),
        Request::Write => turn.answer = Some(cache.write_sector(turn.sector, &turn.buffer)),
        Request::Flush => {
            cache.flush();
            turn.answer = Some(Ok(()));
        }
    }
}

// Takes turns one after another: a run, whatever set-up cache this one was started from.
fn take_turns<D: Disk, P: Policy>(cache: &mut Cache<D, P>, turns: &mut [Turn])
    requires { Safe D.Disk P.Policy cache.old }
    ensures kept { Safe D.Disk P.Policy cache.new }
    ensures runs { (s : SetUpCache D P) → Begins D.Disk P.Policy s cache.old → Runs D.Disk P.Policy s turns.old turns.new cache.new }
{
    for turn in turns.iter_mut() {
        take_turn(cache, turn);
    }
}

// The started cache after the turns, with its slip; the answers and buffers stand in the turns.
pub fn run_turns<D: Disk, P: Policy>(
    set_up: SetUpCache<D, P>,
    turns: &mut [Turn],
) -> (Cache<D, P>, EndingSlip)
    requires { Ready D.Disk P.Policy set_up }
    ensures safe { Safe D.Disk P.Policy result.0 }
    ensures runs { Runs D.Disk P.Policy set_up turns.old turns.new result.0 }
{
    let (mut cache, slip) = set_up.start();
    take_turns(&mut cache, turns);
    (cache, slip)
}
