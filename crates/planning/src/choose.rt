// The frame that MIN gives to a fetched key.
ghost use Rattle.std.specs.Prelude.{◌≤◌, length};
ghost use Rattle.planning.specs.Chosen.{LowestFurthest, Chosen, HeldBelow, next_of};

use crate::held::HeldKeys;
use base::Key;

impl<K: Key> HeldKeys<'_, K> {
    // The lowest empty frame, and where none is empty the one that MIN empties. `next` has for each touch where its key is touched again.
    pub fn choose(&self, next: &[u32]) -> usize
        requires some { (1 ≤ length self.now.held.now) × (self.now.filled ≤ length self.now.held.now) }
        requires inside { HeldBelow self.now.filled self.now.held.now (length next.now) }
        ensures { Chosen self.now.filled (length self.now.held.now) (next_of next.now self.now.held.now) result }
    {
        if self.filled < self.held.len() {
            self.filled
        } else {
            self.furthest(next)
        }
    }

    // The lowest of the filled frames whose keys are touched again last.
    fn furthest(&self, next: &[u32]) -> usize
        requires some { (1 ≤ self.now.filled) × (self.now.filled ≤ length self.now.held.now) }
        requires inside { HeldBelow self.now.filled self.now.held.now (length next.now) }
        ensures { LowestFurthest self.now.filled (next_of next.now self.now.held.now) result }
    {
        let mut best = 0;
        let mut latest = next[self.held[0] as usize];
        for (frame, place) in self.held[..self.filled].iter().enumerate() {
            let again = next[*place as usize];
            if again > latest {
                best = frame;
                latest = again;
            }
        }
        best
    }
}
