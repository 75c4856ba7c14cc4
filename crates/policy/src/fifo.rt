// FIFO: a place with all frames filled answers the frame whose place is the earliest.
ghost use Rattle.std.specs.Prelude.{◌≡◌, ◌<◌, ◌≤◌};
ghost use Rattle.base.specs.declared.limits.TheConstants.{MAX_FRAMES};

mod calls;
mod order;

// Frames are filled in their order, and taken again in their order, so the earliest is known by a hand.
#[derive(Drop)]
pub struct Fifo {
    size: usize,
    filled: usize,
    hand: usize,
    ghost some: { 1 ≤ size },
    ghost most: { size ≤ MAX_FRAMES },
    ghost fits: { filled ≤ size },
    ghost within: { hand < size },
    // the hand leaves frame 0 only once all frames are filled
    ghost waits: { filled < size → hand ≡ 0 },
}
