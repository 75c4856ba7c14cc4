// Lists of turns, served by a disk of any kind.
ghost use Rattle.std.specs.Prelude.{◌≡◌, []};
ghost use Rattle.disk.specs.Meaning.{Tallied};
ghost use Rattle.disk.specs.Asked.{after_asked};
ghost use Rattle.disk.specs.Turns.{asked_in, Done, AllAnswered, after_turns};

use crate::disk::Disk;
use crate::tallies::Tallies;
use crate::turn::{Request, Turn};

// Takes one turn. A disk alone has nothing to flush.
fn take_turn<D: Disk>(disk: &mut D, turn: &mut Turn)
    requires { D.Disk.sound disk.old }
    ensures kept { D.Disk.sound disk.new }
    ensures done { Done (D.Disk.meaning disk.old) turn.old turn.new }
    ensures after { D.Disk.meaning disk.new ≡ after_asked (D.Disk.meaning disk.old) (asked_in turn.old) }
{
    match turn.request {
        Request::Read => turn.answer = Some(disk.read(turn.sector, &mut turn.buffer)),
        Request::Write => turn.answer = Some(disk.write(turn.sector, &turn.buffer)),
        Request::Flush => turn.answer = Some(Ok(())),
    }
}

// Takes the turns one after another. That the tallies have 64 bits is known of a disk only once it has been asked for them.
fn take_turns<D: Disk>(disk: &mut D, turns: &mut [Turn])
    requires { D.Disk.sound disk.old }
    ensures kept { D.Disk.sound disk.new }
    ensures answers { AllAnswered (D.Disk.meaning disk.old) [] turns.old turns.new }
    ensures after { Tallied (D.Disk.meaning disk.new) → D.Disk.meaning disk.new ≡ after_turns (D.Disk.meaning disk.old) turns.old }
{
    for turn in turns.iter_mut() {
        take_turn(disk, turn);
    }
}

// Takes the turns one after another, and answers what the disk has served by then.
pub fn serve_turns<D: Disk>(disk: &mut D, turns: &mut [Turn]) -> Tallies
    requires { D.Disk.sound disk.old }
    ensures kept { D.Disk.sound disk.new }
    ensures answers { AllAnswered (D.Disk.meaning disk.old) [] turns.old turns.new }
    ensures after { D.Disk.meaning disk.new ≡ after_turns (D.Disk.meaning disk.old) turns.old }
    ensures reads { result.reads ≡ (D.Disk.meaning disk.new).reads }
    ensures writes { result.writes ≡ (D.Disk.meaning disk.new).writes }
{
    take_turns(disk, turns);
    disk.tallies()
}
