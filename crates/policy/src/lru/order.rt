// How LRU's order changes.
ghost use Rattle.std.specs.Prelude.{◌≡◌, ◌<◌, ◌≤◌, length};
ghost use Rattle.policy.specs.Queue.{to_back, queue_place};
ghost use Rattle.policy.specs.Lru.{lru_queue};

use super::Lru;

impl Lru {
    // Puts the next frame at the end of the order.
    pub(super) fn fill_next(&mut self) -> usize
        requires { length (lru_queue self.old).order < self.old.size }
        ensures value { result ≡ queue_place (lru_queue self.old) }
        ensures after { lru_queue self.new ≡ to_back (lru_queue self.old) result }
    {
        let frame = self.order.len();
        self.order.push(frame);
        frame
    }

    // Moves the first of a full order to its end.
    #[tactic(auto, using(crate::proofs::Orders::first_below))]
    pub(super) fn take_earliest(&mut self) -> usize
        requires { self.old.size ≤ length (lru_queue self.old).order }
        ensures value { result ≡ queue_place (lru_queue self.old) }
        ensures after { lru_queue self.new ≡ to_back (lru_queue self.old) result }
    {
        let frame = self.order.first();
        self.move_to_back(frame);
        frame
    }

    // Moves a filled frame to the end of the order.
    pub(super) fn move_to_back(&mut self, frame: usize)
        requires { frame < length (lru_queue self.old).order }
        ensures { lru_queue self.new ≡ to_back (lru_queue self.old) frame }
    {
        self.order.remove(frame);
        self.order.push(frame);
    }
}
