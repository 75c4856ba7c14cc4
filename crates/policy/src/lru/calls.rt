// LRU as a policy.
ghost use Rattle.policy.specs.Queue.{Queue};
ghost use Rattle.policy.specs.Lru.{lru_rules, lru_queue};
ghost use Rattle.policy.specs.Laws;
ghost use Rattle.policy.specs.Queues.{back_ordered};
ghost use Rattle.policy.specs.Shapes.{ordered_shape};

use super::Lru;
use super::list::FrameList;
use crate::policy::Policy;
use base::{Geometry, Refusal};

impl Policy for Lru {
    type Setting = ();

    ghost State = { Queue };

    ghost rules = { lru_rules };

    ghost model = { lru_queue };

    ghost conservative = { Laws.conservative back_ordered };

    ghost shape = { ordered_shape back_ordered };

    fn new(_setting: (), geometry: &Geometry) -> Lru {
        Lru {
            size: geometry.frames(),
            order: FrameList::new(),
        }
    }

    fn place(&mut self) -> usize {
        if self.order.len() < self.size {
            self.fill_next()
        } else {
            self.take_earliest()
        }
    }

    fn use_frame(&mut self, frame: usize) -> Result<(), Refusal> {
        if frame >= self.order.len() {
            return Err(Refusal::FrameNotFilled);
        }
        self.move_to_back(frame);
        Ok(())
    }
}
