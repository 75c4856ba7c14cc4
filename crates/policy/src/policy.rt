// What a policy is: it numbers frames from 0, knows no keys, and says which frame takes the next key.
// Code above the trait is proved once for every policy.
ghost use Rattle.std.specs.Prelude.{◌≡◌};
ghost use Rattle.base.specs.Geometries.{frames_of};
ghost use Rattle.policy.specs.Machine.{Rules};
ghost use Rattle.policy.specs.Law.{Conservative};
ghost use Rattle.policy.specs.Shape.{Shape};
ghost use Rattle.policy.specs.Calls.{use_answer, after_use};

use base::{Geometry, Refusal};

pub trait Policy: Sized {
    type Setting;

    // the states that the policy's meaning goes through, and its rules over them
    ghost State: { Type 0 };

    ghost rules: { Rules Self.Setting State };

    ghost model: { Self → State };

    fn new(setting: Self::Setting, geometry: &Geometry) -> Self
        ensures { model result ≡ rules.first setting (frames_of geometry.now) };

    // The frame for the next key.
    fn place(&mut self) -> usize
        ensures value { result ≡ rules.place (model self.old) }
        ensures after { model self.new ≡ rules.placed (model self.old) };

    // A key held in a frame was touched.
    fn use_frame(&mut self, frame: usize) -> Result<(), Refusal>
        ensures value { result ≡ use_answer rules (model self.old) frame }
        ensures after { model self.new ≡ after_use rules (model self.old) frame };

    // a stretch of touches with at most k different keys has at most k fetches
    ghost conservative: { Conservative rules };

    // frames fill in order, and then a place answers one of them
    ghost shape: { Shape rules };
}
