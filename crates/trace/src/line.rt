// One line of a trace, and what it asks for.
ghost use Rattle.std.specs.Prelude.{◌≡◌, [], ◌∷◌, length, MatchOption, ◌≢◌};
ghost use Rattle.trace.specs.Accesses.{fields, access_of};

use crate::access::Access;
use crate::fault::LineFault;
use crate::fields::Fields;
use crate::splits::split_once;

// A line without its ending. Its text is a part of the trace.
#[derive(Clone, Copy)]
pub struct Line<'a> {
    pub number: u32,
    pub text: &'a [u8],
}

impl<'a> Line<'a> {
    pub fn access(&self) -> Result<Access, LineFault>
        ensures { result ≡ access_of self.now.number self.now.text.now }
    {
        let Some(fields) = self.split() else {
            return Err(LineFault::FieldCount { line: self.number });
        };
        Ok(fields.access()?)
    }

    // The five fields between commas, unless there are more or fewer.
    fn split(&self) -> Option<Fields<'a>>
        ensures { MatchOption result (length (fields self.now.text.now) ≢ 5)
            (λ f. (f.line ≡ self.now.number)
            × (fields self.now.text.now ≡ f.asu.now ∷ (f.lba.now ∷ (f.size.now ∷ (f.opcode.now ∷ (f.stamp.now ∷ [])))))) }
    {
        let (asu, rest) = split_once(self.text, b',')?;
        let (lba, rest) = split_once(rest, b',')?;
        let (size, rest) = split_once(rest, b',')?;
        let (opcode, stamp) = split_once(rest, b',')?;
        match split_once(stamp, b',') {
            Some(_) => None,
            None => Some(Fields {
                line: self.number,
                asu,
                lba,
                size,
                opcode,
                stamp,
            }),
        }
    }
}
