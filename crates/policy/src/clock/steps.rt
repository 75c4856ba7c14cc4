// The parts of CLOCK's calls.
ghost use Rattle.std.specs.Prelude.{◌≡◌, ◌<◌};
ghost use Rattle.arrayvec.specs.ArrayVec.{array_vec_len};
ghost use Rattle.policy.specs.Clock.{clock_rules, clock_state, clock_place, cleared, sweep, swept, taken};

use super::Clock;
use base::next_in_ring;

impl Clock {
    // The frame for the next key: the next to fill, or the one at which a sweep comes to stand.
    pub(super) fn choose(&mut self) -> usize
        ensures value { result ≡ clock_place (clock_state self.old) }
        ensures after { clock_state self.new ≡ swept (clock_state self.old) }
        ensures within { result < array_vec_len self.new.marks }
    {
        if self.filled < self.marks.len() {
            return self.filled;
        }
        self.sweep();
        self.hand
    }

    // Clears marks and moves the hand on, until the mark under it is clear.
    fn sweep(&mut self)
        ensures { clock_state self.new ≡ sweep (array_vec_len self.old.marks) (clock_state self.old) }
    {
        while self.marks[self.hand] {
            self.clear_mark();
        }
    }

    // Clears the mark under the hand and moves the hand on.
    fn clear_mark(&mut self)
        ensures { clock_state self.new ≡ cleared (clock_state self.old) }
    {
        self.marks[self.hand] = false;
        self.hand = next_in_ring(self.marks.len(), self.hand);
    }

    // Gives a frame to a key: the next to fill, or a filled one.
    pub(super) fn take(&mut self, frame: usize)
        requires { frame < array_vec_len self.old.marks }
        ensures { clock_state self.new ≡ taken (clock_state self.old) frame }
    {
        let size = self.marks.len();
        if self.filled < size {
            self.filled += 1;
        }
        self.mark(frame);
        self.hand = next_in_ring(size, frame);
    }

    // Sets the mark of a frame.
    pub(super) fn mark(&mut self, frame: usize)
        requires { frame < array_vec_len self.old.marks }
        ensures { clock_state self.new ≡ clock_rules.used (clock_state self.old) frame }
    {
        self.marks[frame] = true;
    }
}
