// A doubly linked list of frames, each at most once. A call takes the same few steps wherever in the list the frame stands.
ghost use Rattle.std.specs.Prelude.{◌≡◌, ◌+◌, ◌≤◌, ◌∷◌, true};
ghost use Rattle.base.specs.Lists.{distinct};
ghost use Rattle.base.specs.declared.limits.TheConstants.{MAX_FRAMES};
ghost use Rattle.policy.specs.LinkedList.{sentinel, linked, following};
ghost use Rattle.policy.specs.Links.{ring};

use super::links::Links;

#[derive(Drop)]
pub struct FrameList {
    len: usize,
    links: Links,
    ghost fits: { len ≤ MAX_FRAMES },
    // the frames after the sentinel are linked to each other, and the last of them to the sentinel again
    ghost closed: { linked (ring links) sentinel (following (ring links) sentinel len) sentinel ≡ true },
    // they and the sentinel are all different
    ghost once: { distinct (sentinel ∷ following (ring links) sentinel len) ≡ len + 1 },
}

impl FrameList {
    ghost use Rattle.std.specs.Prelude.{◌<◌, false, [], ◌++◌, length, slice_index};
    ghost use Rattle.base.specs.Lists.{member, without};
    ghost use Rattle.policy.specs.FrameList.{frames_in};

    pub(super) fn new() -> FrameList
        ensures { frames_in result ≡ [] }
    {
        FrameList {
            len: 0,
            links: Links::new(),
        }
    }

    // How many frames the list has.
    #[tactic(auto, using(crate::proofs::LinkedLists::following_many))]
    pub(super) fn len(&self) -> usize
        ensures { result ≡ length (frames_in self.now) }
    {
        self.len
    }

    // The first frame of a list that has one.
    pub(super) fn first(&self) -> usize
        requires { 1 ≤ length (frames_in self.now) }
        ensures { result ≡ slice_index (frames_in self.now) 0 }
    {
        self.links.first() as usize
    }

    // Puts a new frame at the end.
    pub(super) fn push(&mut self, frame: usize)
        requires low { frame < MAX_FRAMES }
        requires new { member frame (frames_in self.old) ≡ false }
        requires room { length (frames_in self.old) < MAX_FRAMES }
        ensures { frames_in self.new ≡ frames_in self.old ++ (frame ∷ []) }
    {
        self.links.append(frame as u8);
        self.len += 1;
    }

    // Takes a frame out.
    pub(super) fn remove(&mut self, frame: usize)
        requires low { frame < MAX_FRAMES }
        requires has { member frame (frames_in self.old) ≡ true }
        ensures { frames_in self.new ≡ without frame (frames_in self.old) }
    {
        self.links.unlink(frame as u8);
        self.len -= 1;
    }
}
