// A sector of a volume of several units: the trace format's unit number (ASU) and sector number (LBA).
ghost use Rattle.std.specs.Prelude.{◌^◌, ◌<◌};

mod calls;

// The bound says again what the field's type says: by it a proof takes the two parts back out of a code.
#[derive(Clone, Copy, PartialEq, Eq, Debug)]
pub struct VolumeKey {
    asu: u8,
    lba: u32,
    ghost fits: { lba < 2 ^ 32 },
}
