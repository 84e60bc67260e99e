//! Rows of instructions and images: 12 NoMemory.

use crate::ending::Ending;
use bpf_asm::assemble_class;
use bpf_decode::{ClassImage, DecodeError, Insn, decode, encode, read_image, write_image};
use std::alloc::Global;

/// Ten instructions; the first is wide: `lddw r0, 1`, eight times `add r0, 1`, `exit`.
const CODE: [u8; 88] = [
    0x18, 0, 0, 0, 1, 0, 0, 0, 0, 0, 0, 0, 0, 0, 0, 0, 0x07, 0, 0, 0, 1, 0, 0, 0, 0x07, 0, 0, 0, 1,
    0, 0, 0, 0x07, 0, 0, 0, 1, 0, 0, 0, 0x07, 0, 0, 0, 1, 0, 0, 0, 0x07, 0, 0, 0, 1, 0, 0, 0, 0x07,
    0, 0, 0, 1, 0, 0, 0, 0x07, 0, 0, 0, 1, 0, 0, 0, 0x07, 0, 0, 0, 1, 0, 0, 0, 0x95, 0, 0, 0, 0, 0,
    0, 0,
];

/// Five methods `a` to `e`, each `mov r0, 0`, `exit`.
const IMAGE: [u8; 133] = [
    0x52, 0x43, 0x4c, 0x31, 5, 0, 0, 0, //
    1, b'a', 1, 0, 0, 0, 0, 2, 0, 0xb7, 0, 0, 0, 0, 0, 0, 0, 0x95, 0, 0, 0, 0, 0, 0, 0, //
    1, b'b', 1, 0, 0, 0, 0, 2, 0, 0xb7, 0, 0, 0, 0, 0, 0, 0, 0x95, 0, 0, 0, 0, 0, 0, 0, //
    1, b'c', 1, 0, 0, 0, 0, 2, 0, 0xb7, 0, 0, 0, 0, 0, 0, 0, 0x95, 0, 0, 0, 0, 0, 0, 0, //
    1, b'd', 1, 0, 0, 0, 0, 2, 0, 0xb7, 0, 0, 0, 0, 0, 0, 0, 0x95, 0, 0, 0, 0, 0, 0, 0, //
    1, b'e', 1, 0, 0, 0, 0, 2, 0, 0xb7, 0, 0, 0, 0, 0, 0, 0, 0x95, 0, 0, 0, 0, 0, 0, 0, //
];

/// The same as text.
pub const TEXT: &str =
    ".method a r 0 0\nmov r0, 0\nexit\n.method b r 0 0\nmov r0, 0\nexit\n.method c r 0 0\nmov r0, 0\nexit\n\
    .method d r 0 0\nmov r0, 0\nexit\n.method e r 0 0\nmov r0, 0\nexit\n";

/// The end of a refused call.
fn refused(error: DecodeError) -> Ending {
    Ending::refused(error == DecodeError::NoMemory && error.number() == 12)
}

/// True if they are the ten instructions.
fn are_ten(insns: &[Insn]) -> bool {
    let mut wide = 0usize;
    let mut exits = 0usize;
    for insn in insns {
        match insn {
            Insn::LoadWide { value, .. } if *value == 1 => wide = wide.wrapping_add(1),
            Insn::Exit => exits = exits.wrapping_add(1),
            _ => {}
        }
    }
    insns.len() == 10 && wide == 1 && exits == 1
}

/// `decode`.
pub fn decoded(alloc: Global) -> Ending {
    match decode(alloc, &CODE) {
        Ok(insns) => Ending::of(are_ten(&insns)),
        Err(error) => refused(error),
    }
}

/// `encode`.
pub fn encoded(alloc: Global) -> Option<Ending> {
    let insns = decode(alloc, &CODE).ok()?;
    Some(match encode(alloc, &insns) {
        Ok(code) => Ending::of(code.as_slice() == CODE.as_slice()),
        Err(error) => refused(error),
    })
}

/// True if its methods are `a` to `e`.
pub fn has_five(image: &ClassImage) -> bool {
    match image.methods() {
        [a, b, c, d, e] => {
            a.name() == "a"
                && b.name() == "b"
                && c.name() == "c"
                && d.name() == "d"
                && e.name() == "e"
        }
        _ => false,
    }
}

/// `read_image`.
pub fn read(alloc: Global) -> Ending {
    match read_image(alloc, &IMAGE) {
        Ok(image) => Ending::of(has_five(&image)),
        Err(refusal) => refused(refusal.error),
    }
}

/// `write_image`.
pub fn written(alloc: Global) -> Option<Ending> {
    let image = assemble_class(alloc, TEXT).ok()?;
    Some(match write_image(alloc, &image) {
        Ok(bytes) => Ending::of(bytes.as_slice() == IMAGE.as_slice()),
        Err(error) => refused(error),
    })
}
