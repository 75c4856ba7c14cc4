// FIFO as a policy.
ghost use Rattle.policy.specs.Queue.{Queue};
ghost use Rattle.policy.specs.Fifo.{fifo_rules, fifo_queue};
ghost use Rattle.policy.specs.Laws;
ghost use Rattle.policy.specs.Queues.{stay_ordered};
ghost use Rattle.policy.specs.Shapes.{ordered_shape};

use super::Fifo;
use crate::policy::Policy;
use base::{Geometry, Refusal};

impl Policy for Fifo {
    type Setting = ();

    ghost State = { Queue };

    ghost rules = { fifo_rules };

    ghost model = { fifo_queue };

    ghost conservative = { Laws.conservative stay_ordered };

    ghost shape = { ordered_shape stay_ordered };

    fn new(_setting: (), geometry: &Geometry) -> Fifo {
        Fifo {
            size: geometry.frames(),
            filled: 0,
            hand: 0,
        }
    }

    fn place(&mut self) -> usize {
        if self.filled() < self.size {
            self.fill_next()
        } else {
            self.take_earliest()
        }
    }

    fn use_frame(&mut self, frame: usize) -> Result<(), Refusal> {
        if frame >= self.filled() {
            return Err(Refusal::FrameNotFilled);
        }
        Ok(())
    }
}
