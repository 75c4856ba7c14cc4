// How FIFO's order changes.
ghost use Rattle.std.specs.Prelude.{◌≡◌, ◌<◌, ◌≤◌, length};
ghost use Rattle.policy.specs.Queue.{to_back, queue_place};
ghost use Rattle.policy.specs.Fifo.{fifo_queue};

use super::Fifo;
use base::next_in_ring;

impl Fifo {
    // How many frames the order has.
    pub(super) fn filled(&self) -> usize
        ensures value { result ≡ self.now.filled }
        ensures order { result ≡ length (fifo_queue self.now).order }
    {
        self.filled
    }

    // Puts the next frame at the end of the order.
    pub(super) fn fill_next(&mut self) -> usize
        requires { self.old.filled < self.old.size }
        ensures value { result ≡ queue_place (fifo_queue self.old) }
        ensures after { fifo_queue self.new ≡ to_back (fifo_queue self.old) result }
    {
        let frame = self.filled;
        self.filled = frame + 1;
        frame
    }

    // Moves the first of a full order to its end.
    pub(super) fn take_earliest(&mut self) -> usize
        requires { self.old.size ≤ self.old.filled }
        ensures value { result ≡ queue_place (fifo_queue self.old) }
        ensures after { fifo_queue self.new ≡ to_back (fifo_queue self.old) result }
    {
        let frame = self.hand;
        self.hand = next_in_ring(self.size, frame);
        frame
    }
}
