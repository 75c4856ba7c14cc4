// A trace that was judged: its lines are accepted, and their touches counted, so that what is read from it needs no second look.
ghost use Rattle.std.specs.Prelude.{◌≡◌, ◌≤◌, length, Ok};
ghost use Rattle.base.specs.declared.limits.TheConstants.{MAX_TEXT_BYTES};
ghost use Rattle.trace.specs.Splits.{lines};
ghost use Rattle.trace.specs.Touches.{judged_lines, counted};

mod calls;

pub use calls::{judge_trace, read_trace};

#[derive(Drop)]
pub struct JudgedTrace<'a> {
    text: &'a [u8],
    touches: usize,
    ghost short: { length text.now ≤ MAX_TEXT_BYTES },
    ghost accepted: { counted (judged_lines 1 0 (lines text.now)) ≡ Ok touches },
}
