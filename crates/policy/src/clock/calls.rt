// CLOCK as a policy.
ghost use Rattle.policy.specs.Clock.{ClockState, clock_rules, clock_state};
ghost use Rattle.policy.specs.Laws;
ghost use Rattle.policy.specs.Marks.{clock_ordered};
ghost use Rattle.policy.specs.Shapes.{ordered_shape};

use super::Clock;
use crate::policy::Policy;
use arrayvec::ArrayVec;
use base::{Geometry, MAX_FRAMES, Refusal};

impl Policy for Clock {
    type Setting = ();

    ghost State = { ClockState };

    ghost rules = { clock_rules };

    ghost model = { clock_state };

    ghost conservative = { Laws.conservative clock_ordered };

    ghost shape = { ordered_shape clock_ordered };

    #[tactic(auto, using(crate::proofs::ClockSweeps::first_marks))]
    fn new(_setting: (), geometry: &Geometry) -> Clock {
        let mut marks = ArrayVec::from([false; MAX_FRAMES]);
        marks.truncate(geometry.frames());
        Clock {
            filled: 0,
            hand: 0,
            marks,
        }
    }

    fn place(&mut self) -> usize {
        let frame = self.choose();
        self.take(frame);
        frame
    }

    fn use_frame(&mut self, frame: usize) -> Result<(), Refusal> {
        if frame >= self.filled {
            return Err(Refusal::FrameNotFilled);
        }
        self.mark(frame);
        Ok(())
    }
}
