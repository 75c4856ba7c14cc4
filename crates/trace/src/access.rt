// What a line of a trace asks for. Reads and writes touch their sectors alike.

#[derive(Clone, Copy, PartialEq, Eq, Debug)]
pub enum Opcode {
    Read,
    Write,
}

#[derive(Clone, Copy, PartialEq, Eq, Debug)]
pub struct Access {
    pub asu: u8,
    pub lba: u32,
    // from 1 to 128
    pub sectors: u32,
    pub opcode: Opcode,
}
