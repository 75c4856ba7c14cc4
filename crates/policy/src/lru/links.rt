// The links of a doubly linked list of frames. A sentinel stands before the first frame and after the last, so that no link
// is ever missing, and none has to be asked for.
ghost use Rattle.policy.specs.LinkedList.{Leads};

use base::MAX_FRAMES;

// The sentinel's number, which is no frame's.
const SENTINEL: u8 = MAX_FRAMES as u8;

// The frames and the sentinel.
const PLACES: usize = MAX_FRAMES + 1;

#[derive(Drop)]
pub struct Links {
    // The one after each frame, and the one before it.
    next: [u8; PLACES],
    previous: [u8; PLACES],
    ghost onward: { Leads next },
    ghost backward: { Leads previous },
}

impl Links {
    ghost use Rattle.std.specs.Prelude.{◌≡◌, ◌<◌, ◌≤◌, slice_index};
    ghost use Rattle.base.specs.declared.limits.TheConstants.{MAX_FRAMES};
    ghost use Rattle.policy.specs.LinkedList.{sentinel, sentinel_alone, connected, unlinked, appended};
    ghost use Rattle.policy.specs.Links.{ring};

    // The sentinel alone, which comes after itself.
    pub(super) fn new() -> Links
        ensures { ring result ≡ sentinel_alone }
    {
        Links {
            next: [SENTINEL; PLACES],
            previous: [SENTINEL; PLACES],
        }
    }

    // The first frame, or the sentinel if there is none.
    pub(super) fn first(&self) -> u8
        ensures { result ≡ slice_index self.now.next sentinel }
    {
        self.next[SENTINEL as usize]
    }

    // Takes a frame out: the ones before and after it become neighbours.
    pub(super) fn unlink(&mut self, frame: u8)
        requires { frame < MAX_FRAMES }
        ensures { ring self.new ≡ unlinked (ring self.old) frame }
    {
        self.connect(self.previous[frame as usize], self.next[frame as usize]);
    }

    // Puts a frame last: between the last so far and the sentinel.
    pub(super) fn append(&mut self, frame: u8)
        requires { frame < MAX_FRAMES }
        ensures { ring self.new ≡ appended (ring self.old) frame }
    {
        self.connect(self.previous[SENTINEL as usize], frame);
        self.connect(frame, SENTINEL);
    }

    // Makes two neighbours.
    fn connect(&mut self, before: u8, after: u8)
        requires before { before ≤ sentinel }
        requires after { after ≤ sentinel }
        ensures { ring self.new ≡ connected (ring self.old) before after }
    {
        self.next[before as usize] = after;
        self.previous[after as usize] = before;
    }
}
