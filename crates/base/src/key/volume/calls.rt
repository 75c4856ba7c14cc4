// Making a volume key, and its code.
ghost use Rattle.std.specs.Prelude.{◌≡◌, ◌+◌, ◌*◌, ◌^◌};
ghost use Rattle.std.proofs.Common.{ap};
ghost use Rattle.base.specs.Keys.{volume_code, volume_spread};
ghost use Rattle.base.specs.VolumeCodes.{same_key};

use super::VolumeKey;
use crate::key::Key;
use crate::mix::mix64;

impl VolumeKey {
    pub fn new(asu: u8, lba: u32) -> VolumeKey
        ensures asu { result.asu ≡ asu }
        ensures lba { result.lba ≡ lba }
        ensures code { volume_code result ≡ asu * 2 ^ 32 + lba }
    {
        VolumeKey { asu, lba }
    }

    pub fn asu(&self) -> u8
        ensures { result ≡ self.now.asu }
    {
        self.asu
    }

    pub fn lba(&self) -> u32
        ensures { result ≡ self.now.lba }
    {
        self.lba
    }
}

impl Key for VolumeKey {
    ghost code = { volume_code };

    ghost spread = { volume_spread };

    ghost faithful = { same_key };

    ghost coded = { λ a b. ap volume_code };

    ghost together = { λ a b. ap volume_spread };

    fn code(&self) -> u64 {
        (self.asu as u64) * 0x1_0000_0000 + self.lba as u64
    }

    fn spread(&self) -> u32 {
        mix64(self.code())
    }
}
