// What the image disk does.
ghost use Rattle.std.specs.Prelude.{◌≡◌, ◌*◌, ◌/◌, ◌<◌, length, if◌then◌else◌};
ghost use Rattle.base.specs.Lists.{member};
ghost use Rattle.base.specs.declared.limits.TheConstants.{SECTOR_BYTES};
ghost use Rattle.disk.specs.Meaning.{answer, serves, after_read, buffer_read, after_write};
ghost use Rattle.disk.specs.Image.{imaged, image_of, image_written, sector_of};

use super::ImageDisk;
use crate::disk::{Disk, judge};
use crate::tallies::Tallies;
use base::{Refusal, SECTOR_BYTES};

// Copies a buffer into a whole sector of an image.
fn copy_in(image: &mut [u8], sector: u32, buffer: &[u8])
    requires { (sector < length image.old / SECTOR_BYTES) × (length buffer.now ≡ SECTOR_BYTES) }
    ensures { image.new ≡ image_written image.old sector buffer.now }
{
    let at = sector as usize * SECTOR_BYTES;
    let part = &mut image[at..at + SECTOR_BYTES];
    part.copy_from_slice(buffer);
}

impl<'a> ImageDisk<'a> {
    // Whole sectors only: what stands behind the last of them is never touched.
    pub fn new(image: &'a mut [u8], dead: &'a [u32]) -> ImageDisk<'a>
        ensures { imaged result ≡ image_of image.old dead.now 0 0 }
    {
        ImageDisk {
            image,
            dead,
            tallies: Tallies::new(0, 0),
        }
    }

    fn is_dead(&self, sector: u32) -> bool
        ensures { result ≡ member sector self.now.dead.now }
    {
        self.dead.contains(&sector)
    }

    fn judge(&self, sector: u32, len: usize) -> Result<(), Refusal>
        ensures { result ≡ answer (imaged self.now) sector len }
    {
        judge(self.count(), sector, len)?;
        if self.is_dead(sector) {
            return Err(Refusal::DeadSector);
        }
        Ok(())
    }

    // Copies a whole sector of the image into a buffer.
    fn copy_out(&self, sector: u32, buffer: &mut [u8])
        requires { (sector < length self.now.image.now / SECTOR_BYTES) × (length buffer.old ≡ SECTOR_BYTES) }
        ensures { buffer.new ≡ sector_of self.now.image.now sector }
    {
        let at = sector as usize * SECTOR_BYTES;
        buffer.copy_from_slice(&self.image[at..at + SECTOR_BYTES]);
    }
}

impl Disk for ImageDisk<'_> {
    ghost meaning = { imaged };

    // nothing is asked
    ghost sound = { λ _. Unit {0} };

    #[tactic(auto, using(crate::proofs::Images::image_sized))]
    fn count(&self) -> u32 {
        let whole = self.image.len() / SECTOR_BYTES;
        u32::try_from(whole).unwrap_or(u32::MAX)
    }

    fn tallies(&self) -> Tallies {
        self.tallies.snapshot()
    }

    // Beside what the trait promises: a read leaves the image.
    fn read(&mut self, sector: u32, buffer: &mut [u8]) -> Result<(), Refusal>
        ensures answers { result ≡ answer (imaged self.old) sector (length buffer.old) }
        ensures after { imaged self.new ≡ after_read (imaged self.old) sector buffer.old }
        ensures fills { buffer.new ≡ buffer_read (imaged self.old) sector buffer.old }
        ensures image { self.new.image.now ≡ self.old.image.now }
    {
        self.judge(sector, buffer.len())?;
        self.copy_out(sector, buffer);
        self.tallies.count_read();
        Ok(())
    }

    // And a write changes the image in its sector alone.
    #[tactic(auto, using(crate::proofs::Images::disk_written, crate::proofs::Images::image_put))]
    fn write(&mut self, sector: u32, buffer: &[u8]) -> Result<(), Refusal>
        ensures answers { result ≡ answer (imaged self.old) sector (length buffer.now) }
        ensures after { imaged self.new ≡ after_write (imaged self.old) sector buffer.now }
        ensures image { self.new.image.now ≡ (if serves (imaged self.old) sector (length buffer.now)
            then image_written self.old.image.now sector buffer.now
            else self.old.image.now) }
    {
        let len = buffer.len();
        self.judge(sector, len)?;
        copy_in(self.image, sector, buffer);
        self.tallies.count_write();
        Ok(())
    }
}
