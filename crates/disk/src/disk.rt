// A disk: what its calls do is said once, by its meaning, and each kind of disk is proved to do it.
ghost use Rattle.std.specs.Prelude.{◌≡◌, length};
ghost use Rattle.disk.specs.Meaning.{Meaning, Sized, Tallied, answer, judged_call, after_read, buffer_read, after_write};

use crate::tallies::Tallies;
use base::{Refusal, SECTOR_BYTES};

pub trait Disk {
    ghost meaning: { Self → Meaning };

    // what every call needs and keeps; a disk that needs nothing asks nothing
    ghost sound: { Self → Type 0 };

    fn count(&self) -> u32
        requires { sound self.now }
        ensures value { result ≡ (meaning self.now).count }
        ensures sized { Sized (meaning self.now) };

    fn tallies(&self) -> Tallies
        requires { sound self.now }
        ensures reads { result.reads ≡ (meaning self.now).reads }
        ensures writes { result.writes ≡ (meaning self.now).writes }
        ensures bounded { Tallied (meaning self.now) };

    fn read(&mut self, sector: u32, buffer: &mut [u8]) -> Result<(), Refusal>
        requires { sound self.old }
        ensures kept { sound self.new }
        ensures answers { result ≡ answer (meaning self.old) sector (length buffer.old) }
        ensures after { meaning self.new ≡ after_read (meaning self.old) sector buffer.old }
        ensures fills { buffer.new ≡ buffer_read (meaning self.old) sector buffer.old };

    fn write(&mut self, sector: u32, buffer: &[u8]) -> Result<(), Refusal>
        requires { sound self.old }
        ensures kept { sound self.new }
        ensures answers { result ≡ answer (meaning self.old) sector (length buffer.now) }
        ensures after { meaning self.new ≡ after_write (meaning self.old) sector buffer.now };
}

// What a disk of so many sectors refuses before it looks at the sector.
pub(crate) fn judge(count: u32, sector: u32, len: usize) -> Result<(), Refusal>
    ensures { result ≡ judged_call count sector len }
{
    if len != SECTOR_BYTES {
        return Err(Refusal::BufferLength);
    }
    if sector >= count {
        return Err(Refusal::NoSuchSector);
    }
    Ok(())
}
