// Cutting a text at a byte. The parts are parts of the text, not copies.
ghost use Rattle.std.specs.Option.{MatchOption};
ghost use Rattle.trace.specs.Splits.{Lacks, Cut};

// What stands before the first such byte, and what stands behind it.
pub fn split_once(text: &[u8], mark: u8) -> Option<(&[u8], &[u8])>
    ensures { MatchOption result (Lacks mark text.now) (λ p. Cut mark text.now p.0.now p.1.now) }
{
    let at = text.iter().position(|b| *b == mark)?;
    Some((&text[..at], &text[at + 1..]))
}
