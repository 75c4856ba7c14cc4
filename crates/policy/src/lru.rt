// LRU: a place with all frames filled answers the frame whose latest place or use is the earliest.
ghost use Rattle.std.specs.Prelude.{◌≤◌, length};
ghost use Rattle.base.specs.declared.limits.TheConstants.{MAX_FRAMES};
ghost use Rattle.policy.specs.FrameList.{frames_in};
ghost use Rattle.policy.specs.Queues.{Covers};

use list::FrameList;

mod calls;
mod links;
mod list;
mod order;

#[derive(Drop)]
pub struct Lru {
    size: usize,
    // The filled frames, in order of their latest place or use.
    order: FrameList,
    ghost some: { 1 ≤ size },
    ghost most: { size ≤ MAX_FRAMES },
    ghost fits: { length (frames_in order) ≤ size },
    // the order has the frames below its length
    ghost frames: { Covers (frames_in order) },
}
