// Spreads a code over 32 bits.
ghost use Rattle.std.specs.Prelude.{◌≡◌};
ghost use Rattle.base.specs.Keys.{mixed};

pub fn mix64(code: u64) -> u32
    ensures { result ≡ mixed code }
{
    (code.wrapping_mul(0x9e37_79b9_7f4a_7c15) >> 32) as u32
}
