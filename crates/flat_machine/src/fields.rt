//! The fields of an instruction, out of the bytes of a method.

ghost use Rattle.std.specs.Prelude.{◌≡◌, ◌≤◌, ◌<◌, ◌*◌, ◌+◌, length};
ghost use Rattle.bpf_machine.specs.Flat.{signed16, signed32, width_of, signed_width_of, at_slot};

use bpf_decode::SignedWidth;

/// The bytes from a slot on, none past the end.
pub fn at_slot(code: &[u8], slot: u64) -> &[u8]
    ensures bytes { result.now ≡ at_slot code.now slot }
    ensures within { 0 < length result.now → 8 * slot + length result.now ≡ length code.now }
{
    if slot <= code.len() as u64 / 8 {
        &code[8 * slot as usize..]
    } else {
        &code[..0]
    }
}

/// A field of 16 bits with its sign, as a number of 64 bits.
pub fn signed16(field: u16) -> u64
    ensures { result ≡ signed16 field }
{
    if field < 0x8000 {
        u64::from(field)
    } else {
        u64::from(field) + 0xffff_ffff_ffff_0000
    }
}

/// A field of 32 bits with its sign, as a number of 64 bits.
pub fn signed32(field: u32) -> u64
    ensures { result ≡ signed32 field }
{
    if field < 0x8000_0000 {
        u64::from(field)
    } else {
        u64::from(field) + 0xffff_ffff_0000_0000
    }
}

/// The bytes that a load or store moves, by its size modifier (section 5): 1, 2, 4 or 8.
pub fn width_of(opcode: u8) -> usize
    ensures width { result ≡ width_of opcode }
    ensures short { result ≤ 8 }
{
    match opcode / 8 % 4 {
        0 => 4,
        1 => 2,
        2 => 1,
        _ => 8,
    }
}

/// The width of a load with sign extension (section 5.2); there is none of eight bytes.
pub fn signed_width_of(opcode: u8) -> Option<SignedWidth>
    ensures { result ≡ signed_width_of opcode }
{
    match opcode / 8 % 4 {
        0 => Some(SignedWidth::Word),
        1 => Some(SignedWidth::Half),
        2 => Some(SignedWidth::Byte),
        _ => None,
    }
}
