//! Code alone: what its instructions are, and what is refused.

use bpf_asm::assemble;
use bpf_decode::{
    Arithmetic, ByteOrder, Comparison, DecodeError, EndWidth, Insn, OpWidth, Operand, Register,
    SignedMove, SignedWidth, Width, check, decode, encode,
};
use std::alloc::Global;
use std::process::Abort;

/// Instructions of several forms, as text.
const SEVERAL: &str = "ldxw r0, [r1+4]
jgt r2, 15, +3
add32 r0, r2
lddw r1, 5
movsx8_32 r0, r1
bswap16 r2
ldxsh r0, [r1]
stxdw [r1-8], r2
neg r1
mov r0, -1
call local -1
ja +2
exit";

/// They themselves.
#[rattlefmt::skip]
fn several(r0: Register, r1: Register, r2: Register) -> [Insn; 13] {
    [
        Insn::Load { width: Width::Word, dst: r0, base: r1, offset: 4 },
        Insn::Branch {
            bits: OpWidth::Bits64, comparison: Comparison::Greater, dst: r2, source: Operand::Immediate(15), offset: 3,
        },
        Insn::Alu { bits: OpWidth::Bits32, operation: Arithmetic::Add, dst: r0, source: Operand::Register(r2) },
        Insn::LoadWide { dst: r1, value: 5 },
        Insn::MovSigned { extension: SignedMove::Byte32, dst: r0, src: r1 },
        Insn::End { order: ByteOrder::Swap, width: EndWidth::End16, dst: r2 },
        Insn::LoadSigned { width: SignedWidth::Half, dst: r0, base: r1, offset: 0 },
        Insn::Store { width: Width::Double, base: r1, offset: -8, source: Operand::Register(r2) },
        Insn::Neg { bits: OpWidth::Bits64, dst: r1 },
        Insn::Mov { bits: OpWidth::Bits64, dst: r0, source: Operand::Immediate(-1) },
        Insn::CallLocal { distance: -1 },
        Insn::Jump { offset: 2 },
        Insn::Exit,
    ]
}

/// True if the text is assembled as those instructions.
fn is_assembled(alloc: Global, text: &str, wanted: &[Insn]) -> bool {
    match assemble(alloc, text) {
        Ok(insns) => insns.as_slice() == wanted,
        Err(_) => false,
    }
}

pub fn register_of(rt: &impl Abort, number: u8) -> Register {
    Register::new(number).expect(rt, "a register")
}

#[test]
fn instructions_of_lines(rt: HostRuntime) {
    let (r0, r1) = (register_of(&rt, 0), register_of(&rt, 1));
    let wanted = several(r0, r1, register_of(&rt, 2));
    assert!(rt; is_assembled(rt.alloc(), SEVERAL, &wanted));
    assert!(rt; Register::new(11).is_none() && register_of(&rt, 10).number() == 10);
    assert!(rt; Width::Byte.bytes() == 1 && Width::Double.bytes() == 8);
}

/// Code and its refusal.
#[rattlefmt::skip]
const REFUSED: [(&str, DecodeError); 21] = [
    ("0701 0000 fcffff", DecodeError::Truncated),
    ("0701 0000 fcffffff b7", DecodeError::Truncated),
    ("9500 0000 00000000 8520 0000 00000000", DecodeError::NonzeroField(1)),
    // an opcode before a register, that before a field
    ("00bb 0400 01000000", DecodeError::Opcode(0)),
    ("95b0 0400 01000000", DecodeError::Register(0)),
    // the wide load's second half
    ("1805 0000 88776655", DecodeError::WideHalf(0)),
    ("1805 0000 88776655 9500 0000 44332211", DecodeError::WideHalf(0)),
    ("1805 0000 88776655 0001 0000 44332211", DecodeError::WideHalf(0)),
    ("1805 0000 88776655 0000 0001 44332211", DecodeError::WideHalf(0)),
    // fields that select no instruction
    ("1815 0000 88776655 0000 0000 44332211", DecodeError::NonzeroField(0)),
    ("1865 0000 88776655 0000 0000 44332211", DecodeError::NonzeroField(0)),
    ("8520 0000 01000000", DecodeError::NonzeroField(0)),
    ("3403 0200 01000000", DecodeError::NonzeroField(0)),
    ("9f93 ffff 00000000", DecodeError::NonzeroField(0)),
    ("b703 0800 01000000", DecodeError::NonzeroField(0)),
    ("bc93 2000 00000000", DecodeError::NonzeroField(0)),
    ("bf93 1800 00000000", DecodeError::NonzeroField(0)),
    ("bf93 0001 00000000", DecodeError::NonzeroField(0)),
    ("d403 0000 00000000", DecodeError::NonzeroField(0)),
    ("dc03 0000 08000000", DecodeError::NonzeroField(0)),
    ("d703 0000 80000000", DecodeError::NonzeroField(0)),
];

/// The bytes of digits, with spaces between them.
pub fn bytes_of(rt: &impl Abort, alloc: Global, text: &str) -> Vec<u8> {
    let digits = text.replace(alloc, ' ', "").expect(rt, "memory");
    hex::decode(alloc, &digits).expect(rt, "digits")
}

#[test]
fn refused(rt: HostRuntime) {
    for (text, error) in &REFUSED {
        let code = bytes_of(&rt, rt.alloc(), *text);
        assert!(rt; check(&code) == Err(*error), "{text}");
        assert!(rt; decode(rt.alloc(), &code).err() == Some(*error), "{text}");
    }
    assert!(rt; check(&[]) == Ok(0));
}

/// The number of bytes of the instructions' spelling.
fn spelled_length(alloc: Global, insns: &[Insn]) -> Option<usize> {
    Some(encode(alloc, insns).ok()?.len())
}

/// More instructions than any method has.
#[test]
fn many_instructions(rt: HostRuntime) {
    let insns = [Insn::Exit]
        .repeat(rt.alloc(), 10_000)
        .expect(&rt, "memory");
    assert!(rt; spelled_length(rt.alloc(), &insns) == Some(80_000));
}
