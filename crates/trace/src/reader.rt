// A trace text that is read line by line.
ghost use Rattle.std.specs.Prelude.{◌≤◌, length};
ghost use Rattle.base.specs.declared.limits.TheConstants.{MAX_TEXT_BYTES};

mod calls;

// `place` is where the next line begins, and `line` how many lines were handed out: no more than the bytes before
// `place`, so the count always fits.
#[derive(Drop)]
pub struct TraceReader<'a> {
    text: &'a [u8],
    place: usize,
    line: u32,
    ghost short: { length text.now ≤ MAX_TEXT_BYTES },
    ghost within: { place ≤ length text.now },
    ghost counted: { line ≤ place },
}
