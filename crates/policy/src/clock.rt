// CLOCK: a place with all frames filled answers the first frame from the hand on whose mark is clear, and clears
// the marks on the way there.
ghost use Rattle.std.specs.Prelude.{◌<◌, ◌≤◌};
ghost use Rattle.arrayvec.specs.ArrayVec.{array_vec_len};

use arrayvec::ArrayVec;
use base::MAX_FRAMES;

mod calls;
mod steps;

#[derive(Drop)]
pub struct Clock {
    filled: usize,
    hand: usize,
    // The mark of each frame, so that there are as many as frames.
    marks: ArrayVec<bool, MAX_FRAMES>,
    ghost fits: { filled ≤ array_vec_len marks },
    ghost within: { hand < array_vec_len marks },
}
