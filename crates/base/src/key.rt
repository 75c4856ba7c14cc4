// Keys: what frames hold and the index finds. Code above the trait is one text for every kind of key.
ghost use Rattle.std.specs.Prelude.{◌≡◌, ℕ};

mod sector;
mod volume;

pub use sector::Sector;
pub use volume::VolumeKey;

pub trait Key: Copy {
    // the 64-bit code, by which definitions speak of the key
    ghost code: { Self → ℕ };

    // a 32-bit number that places the key in an index
    ghost spread: { Self → ℕ };

    fn code(&self) -> u64
        ensures { result ≡ code self.now };

    fn spread(&self) -> u32
        ensures { result ≡ spread self.now };

    // two keys are equal exactly when their codes are
    ghost faithful: { (a b : Self) → code a ≡ code b → a ≡ b };

    ghost coded: { (a b : Self) → a ≡ b → code a ≡ code b };

    // equal keys have the same spread
    ghost together: { (a b : Self) → a ≡ b → spread a ≡ spread b };
}
