// The lists that the programs lend to the library, on the heap: places for the longest list of touches, and for as many
// frames as a cache can have; and a recording, which has them beside the text of its trace.
#![tactic(auto)]

ghost use Rattle.std.specs.Prelude.{◌≡◌, IfOk};
ghost use Rattle.workspace.specs.Sizes.{FullSize};

mod recording;

use base::{Key, MAX_FRAMES, MAX_TEXT_BYTES, MAX_TOUCHES};
use index::Slot;
use planning::Lists;
pub use recording::Recording;
use std::alloc::{AllocError, Global};

// One byte past the longest trace shows that a trace is too long.
pub const MAX_INPUT_BYTES: u64 = MAX_TEXT_BYTES as u64 + 1;

const _: () = prove!(MAX_INPUT_BYTES > MAX_TEXT_BYTES as u64);

// More than a third of the slots stay free, so that the index answers in a constant number of steps.
pub const SLOTS: usize = 8192;

const _: () = prove!(2 * SLOTS > 3 * MAX_TOUCHES);

#[derive(Drop)]
pub struct Workspace<K> {
    slots: Vec<Slot<K>>,
    next: Vec<u32>,
    held: Vec<u32>,
    serving: Vec<u8>,
}

impl<K: Key> Workspace<K> {
    // What the lists have at first does not matter: each call writes what it reads.
    pub fn new(heap: Global) -> Result<Workspace<K>, AllocError>
        ensures { IfOk result FullSize }
    {
        Ok(Workspace {
            slots: vec![in heap; None; SLOTS]?,
            next: vec![in heap; 0; MAX_TOUCHES]?,
            held: vec![in heap; 0; MAX_FRAMES]?,
            serving: vec![in heap; 0; MAX_TOUCHES]?,
        })
    }

    // All four, to be lent to a call.
    pub fn lists(&mut self) -> Lists<'_, K>
        ensures slots { result.slots.now ≡ self.old.slots.items }
        ensures next { result.next.now ≡ self.old.next.items }
        ensures held { result.held.now ≡ self.old.held.items }
        ensures serving { result.serving.now ≡ self.old.serving.items }
    {
        Lists {
            slots: &mut self.slots,
            next: &mut self.next,
            held: &mut self.held,
            serving: &mut self.serving,
        }
    }
}
