ghost use Rattle.std.specs.Prelude.{◌≡◌, ◌≤◌, ◌<◌, ◌++◌, length, IfSome, OnOk};

use byteorder::{ByteOrder, LittleEndian};
use std::alloc::AllocError;

/// A slot of eight bytes by its fields (RFC 9669 section 3.1), the signed ones as two's complement.
#[derive(Clone, Copy, PartialEq, Eq)]
pub struct Slot {
    pub opcode: u8,
    pub dst: u8,
    pub src: u8,
    pub offset: u16,
    pub imm: u32,
}

impl Slot {
    ghost use Rattle.bpf_decode.specs.Fields.{fields_of};
    ghost use Rattle.bpf_decode.specs.Instruction.{slot};

    /// The slot of the first eight bytes, if there are that many.
    pub fn of(bytes: &[u8]) -> Option<Slot>
        ensures fields { result ≡ fields_of bytes.now }
        ensures long { IfSome result (λ _. 8 ≤ length bytes.now) }
    {
        if bytes.len() < 8 {
            return None;
        }
        Some(Slot {
            opcode: bytes[0],
            dst: bytes[1] % 16,
            src: bytes[1] / 16,
            offset: LittleEndian::read_u16(&bytes[2..4]),
            imm: LittleEndian::read_u32(&bytes[4..8]),
        })
    }

    /// Writes the eight bytes at the end.
    pub(crate) fn put(self, out: &mut Vec<u8>) -> Result<(), AllocError>
        requires dst { self.dst < 16 }
        requires src { self.src < 16 }
        ensures { OnOk result (out.new.items ≡ out.old.items ++
            slot self.opcode self.dst self.src self.offset self.imm) }
    {
        let mut bytes = [self.opcode, self.dst + 16 * self.src, 0, 0, 0, 0, 0, 0];
        LittleEndian::write_u16(&mut bytes[2..4], self.offset);
        LittleEndian::write_u32(&mut bytes[4..8], self.imm);
        out.extend_from_slice(&bytes)
    }
}
