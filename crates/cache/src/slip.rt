// The slip that a start gives beside the cache. It cannot be let go: only the end of a cache takes it.
pub struct EndingSlip {
    started: (),
}

impl EndingSlip {
    pub(crate) fn new() -> EndingSlip {
        EndingSlip { started: () }
    }

    pub(crate) fn hand_in(self) {
        let EndingSlip { started: _ } = self;
    }
}
