// A trace that has been read, with the lists that it is read into and planned in.
ghost use Rattle.std.specs.Prelude.{◌≡◌, IfOk, vec_len};
ghost use Rattle.base.specs.declared.limits.TheConstants.{MAX_TOUCHES};
ghost use Rattle.trace.specs.Touches.{judged, Written};
ghost use Rattle.curve.specs.Points.{touches_read, points_of};
ghost use Rattle.sheet.specs.Rows.{touches_for, sheet_of};
ghost use Rattle.planning.specs.Plan.{answer_of};
ghost use Rattle.sheet.specs.PlanLines.{line_of};
ghost use Rattle.workspace.specs.Recordings.{lent_by, most_lent};

use crate::Workspace;
use base::{MAX_FRAMES, MAX_TOUCHES, VolumeKey};
use curve::{Point, curve_of_trace};
use sheet::{PlanLine, Row, plan_of_trace, sheet_of_trace};
use std::alloc::{AllocError, Global};
use trace::ReplayFault;

#[derive(Drop)]
pub struct Recording {
    text: Vec<u8>,
    keys: Vec<VolumeKey>,
    workspace: Workspace<VolumeKey>,
}

impl Recording {
    pub fn new(heap: Global, text: Vec<u8>) -> Result<Recording, AllocError>
        ensures text { IfOk result (λ recording. recording.text ≡ text) }
        ensures lent { IfOk result (λ recording. lent_by recording ≡ most_lent) }
    {
        Ok(Recording {
            text,
            keys: vec![in heap; VolumeKey::new(0, 0); MAX_TOUCHES]?,
            workspace: Workspace::new(heap)?,
        })
    }

    pub fn sheet(&mut self) -> Result<[Row; 6], ReplayFault>
        ensures answer { result ≡ sheet_of self.old.text.items (lent_by self.old) }
        ensures text { self.new.text ≡ self.old.text }
        ensures keys { Written (touches_for self.old.text.items (lent_by self.old)) self.old.keys.items self.new.keys.items }
    {
        sheet_of_trace(&self.text, &mut self.keys, &mut self.workspace.lists())
    }

    // The plan for so many frames by a schedule on a smaller number, and what each policy fetches.
    pub fn plan(&mut self, frames: usize, smaller: usize) -> Result<PlanLine, ReplayFault>
        ensures answer { result ≡ answer_of (line_of self.old.text.items (lent_by self.old) frames smaller) }
        ensures text { self.new.text ≡ self.old.text }
        ensures keys { Written (judged self.old.text.items (vec_len self.old.keys)) self.old.keys.items self.new.keys.items }
    {
        let lists = &mut self.workspace.lists();
        plan_of_trace(&self.text, &mut self.keys, frames, smaller, lists)
    }

    // What LRU fetches on each number of frames.
    pub fn curve(&mut self) -> Result<[Point; MAX_FRAMES], ReplayFault>
        ensures answer { result ≡ points_of (touches_read self.old.text.items (vec_len self.old.keys) MAX_TOUCHES) }
        ensures text { self.new.text ≡ self.old.text }
        ensures keys { Written (touches_read self.old.text.items (vec_len self.old.keys) MAX_TOUCHES)
            self.old.keys.items self.new.keys.items }
        ensures workspace { self.new.workspace ≡ self.old.workspace }
    {
        curve_of_trace(&self.text, &mut self.keys, &mut [0; MAX_TOUCHES])
    }
}
