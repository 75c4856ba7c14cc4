// The five fields of a line, and what they say.
ghost use Rattle.std.specs.Prelude.{◌≡◌, ◌≤◌};
ghost use Rattle.trace.specs.Numerals.{numeral};
ghost use Rattle.trace.specs.Accesses.{number_in, sectors_in, opcode_in, stamp_in, time_stamp, fault_at, access_in};

use crate::access::{Access, Opcode};
use crate::fault::{Field, FieldFault};
use crate::splits::split_once;
use base::{Refusal, SECTOR_BYTES};

const NUMBER_DIGITS: usize = 10;

const FRACTION_DIGITS: usize = 9;

// The greatest unit number and the greatest sector number.
const LAST_UNIT: u32 = u8::MAX as u32;

const LAST_SECTOR: u32 = u32::MAX;

// The sizes of an access: up to so many sectors.
const MAX_SECTORS: u64 = 128;

const SECTOR: u64 = SECTOR_BYTES as u64;

const MAX_BYTES: u64 = MAX_SECTORS * SECTOR;

const _: () = prove!(LAST_UNIT == 255);

const _: () = prove!(LAST_SECTOR == 4_294_967_295);

const _: () = prove!(MAX_BYTES == 65_536);

// The fields' texts are parts of the trace, and `line` is the number of their line.
#[derive(Clone, Copy)]
pub struct Fields<'a> {
    pub line: u32,
    pub asu: &'a [u8],
    pub lba: &'a [u8],
    pub size: &'a [u8],
    pub opcode: &'a [u8],
    pub stamp: &'a [u8],
}

impl Fields<'_> {
    // Judges the fields from the left to the right, and last where the access ends.
    pub fn access(&self) -> Result<Access, FieldFault>
        ensures { result ≡ access_in self.now.line self.now.asu.now self.now.lba.now self.now.size.now
            self.now.opcode.now self.now.stamp.now }
    {
        let asu = self.number(Field::Asu, self.asu, LAST_UNIT)? as u8;
        let lba = self.number(Field::Lba, self.lba, LAST_SECTOR)?;
        let sectors = self.sectors()?;
        let opcode = self.opcode()?;
        self.check_time_stamp()?;
        if lba.checked_add(sectors - 1).is_none() {
            return Err(self.fault(Field::Lba, Refusal::PastLastSector));
        }
        Ok(Access {
            asu,
            lba,
            sectors,
            opcode,
        })
    }

    // The number in a field's text, up to a greatest one.
    fn number(&self, field: Field, text: &[u8], greatest: u32) -> Result<u32, FieldFault>
        ensures { result ≡ number_in self.now.line field greatest text.now }
    {
        match read_digits(text, NUMBER_DIGITS) {
            Some(n) if n <= greatest as u64 => Ok(n as u32),
            _ => Err(self.fault(field, Refusal::NotANumber)),
        }
    }

    // The number of sectors that the size in bytes asks for.
    fn sectors(&self) -> Result<u32, FieldFault>
        ensures { result ≡ sectors_in self.now.line self.now.size.now }
    {
        let Some(size) = read_digits(self.size, NUMBER_DIGITS) else {
            return Err(self.fault(Field::Size, Refusal::NotANumber));
        };
        if (SECTOR..=MAX_BYTES).contains(&size) && size % SECTOR == 0 {
            Ok((size / SECTOR) as u32)
        } else {
            Err(self.fault(Field::Size, Refusal::BadSize))
        }
    }

    fn opcode(&self) -> Result<Opcode, FieldFault>
        ensures { result ≡ opcode_in self.now.line self.now.opcode.now }
    {
        match self.opcode {
            [b'R' | b'r'] => Ok(Opcode::Read),
            [b'W' | b'w'] => Ok(Opcode::Write),
            _ => Err(self.fault(Field::Opcode, Refusal::BadOpcode)),
        }
    }

    fn check_time_stamp(&self) -> Result<(), FieldFault>
        ensures { result ≡ stamp_in self.now.line self.now.stamp.now }
    {
        if is_time_stamp(self.stamp) {
            Ok(())
        } else {
            Err(self.fault(Field::TimeStamp, Refusal::BadTimeStamp))
        }
    }

    fn fault(&self, field: Field, refusal: Refusal) -> FieldFault
        ensures { result ≡ fault_at self.now.line field refusal }
    {
        FieldFault {
            line: self.line,
            field,
            refusal,
        }
    }
}

fn is_time_stamp(text: &[u8]) -> bool
    ensures { result ≡ time_stamp text.now }
{
    match split_once(text, b'.') {
        Some((whole, fraction)) => {
            read_digits(whole, NUMBER_DIGITS).is_some()
                && read_digits(fraction, FRACTION_DIGITS).is_some()
        }
        None => read_digits(text, NUMBER_DIGITS).is_some(),
    }
}

// The number that one to `most` decimal digits write.
fn read_digits(text: &[u8], most: usize) -> Option<u64>
    requires { most ≤ 10 }
    ensures { result ≡ numeral most text.now }
{
    if text.is_empty() || text.len() > most {
        return None;
    }
    let mut value: u64 = 0;
    for b in text {
        let digit = char::from(*b).to_digit(10)?;
        value = value * 10 + u64::from(digit);
    }
    Some(value)
}
