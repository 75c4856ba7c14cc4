// The latest different keys, the latest first: as many as the largest cache holds.
ghost use Rattle.std.specs.Prelude.{◌≡◌, []};
ghost use Rattle.base.specs.declared.limits.TheConstants.{MAX_FRAMES};
ghost use Rattle.curve.specs.Recency.{to_front, found_at, keys_in, Padded};

use base::MAX_FRAMES;
use std::mem::swap;

#[derive(Drop)]
pub struct Recency {
    // The keys by their codes, and behind them zeros, so that the walk has as many places at every touch: the compiler unrolls it.
    codes: [u64; MAX_FRAMES],
    len: usize,
}

// Puts a code at the front, and answers where it stood, or `MAX_FRAMES` if it did not. In one walk each code takes the place of the next,
// up to where the one put in front stood; where it did not, the last is let go.
fn bring_to_front(codes: &mut [u64; MAX_FRAMES], code: u64) -> usize
    ensures place { result ≡ found_at MAX_FRAMES code codes.old }
    ensures after { codes.new ≡ to_front MAX_FRAMES code codes.old }
{
    let mut carried = code;
    for (place, entry) in codes.iter_mut().enumerate() {
        swap(entry, &mut carried);
        if carried == code {
            return place;
        }
    }
    MAX_FRAMES
}

impl Recency {
    pub fn new() -> Recency
        ensures keys { keys_in result ≡ [] }
        ensures padded { Padded result }
    {
        Recency {
            codes: [0; MAX_FRAMES],
            len: 0,
        }
    }

    // Puts a key at the front, and answers where it stood, or `MAX_FRAMES` if it did not.
    pub fn touch(&mut self, code: u64) -> usize
        requires { Padded self.old }
        ensures place { result ≡ found_at MAX_FRAMES code (keys_in self.old) }
        ensures after { keys_in self.new ≡ to_front MAX_FRAMES code (keys_in self.old) }
        ensures padded { Padded self.new }
    {
        let place = bring_to_front(&mut self.codes, code);
        if place < self.len {
            place
        } else {
            // A new key, also where it is that of the zeros behind the others.
            self.len = MAX_FRAMES.min(self.len + 1);
            MAX_FRAMES
        }
    }
}
