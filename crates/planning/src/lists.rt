// The lists that planning works in, lent by the caller.
ghost use Rattle.std.specs.Prelude.{◌≡◌};
ghost use Rattle.planning.specs.Lists.{places, room_in, enough};

use index::Slot;

#[derive(Drop)]
pub struct Lists<'a, K> {
    // of an index of the keys
    pub slots: &'a mut [Slot<K>],
    // for each touch, where its key is touched again
    pub next: &'a mut [u32],
    // for each frame, a touch of the key that it holds
    pub held: &'a mut [u32],
    // for each touch, the frame that serves it
    pub serving: &'a mut [u8],
}

// How many places each of them has.
#[derive(Clone, Copy, PartialEq, Eq, Debug)]
pub struct Places {
    pub slots: usize,
    pub next: usize,
    pub held: usize,
    pub serving: usize,
}

impl<K> Lists<'_, K> {
    pub fn places(&self) -> Places
        ensures { result ≡ places self.now }
    {
        Places {
            slots: self.slots.len(),
            next: self.next.len(),
            held: self.held.len(),
            serving: self.serving.len(),
        }
    }
}

impl Places {
    // How many touches the slots, the next-touch list and the serving list all have places for.
    pub fn room(&self) -> usize
        ensures { result ≡ room_in self.now }
    {
        self.slots.min(self.next).min(self.serving)
    }

    // Whether there are places for so many touches and frames.
    pub fn suffice(&self, touches: usize, frames: usize) -> bool
        ensures { result ≡ enough touches frames self.now }
    {
        touches <= self.room() && frames <= self.held
    }
}
