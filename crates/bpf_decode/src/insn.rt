ghost use Rattle.std.specs.Prelude.{◌≡◌};
ghost use Rattle.bpf_decode.specs.Instruction.{slot_count};

use crate::access::{SignedWidth, Width};
use crate::operation::{Arithmetic, ByteOrder, Comparison, EndWidth, OpWidth, SignedMove};
use crate::register::Register;

/// The source operand of an instruction: an immediate, or a register.
#[derive(Clone, Copy, PartialEq, Eq)]
pub enum Operand {
    Immediate(i32),
    Register(Register),
}

/// One instruction (RFC 9669 sections 4 and 5). The wide load takes two slots, every other one.
#[derive(Clone, Copy, PartialEq, Eq)]
pub enum Insn {
    /// Arithmetic of a register and an operand: on all 64 bits, a number sign-extended to them, or
    /// on the low 32 of both.
    Alu {
        bits: OpWidth,
        operation: Arithmetic,
        dst: Register,
        source: Operand,
    },
    /// The negative of a register.
    Neg {
        bits: OpWidth,
        dst: Register,
    },
    /// A copy: to all 64 bits, a number sign-extended to them, or of the low 32.
    Mov {
        bits: OpWidth,
        dst: Register,
        source: Operand,
    },
    /// A copy with sign extension.
    MovSigned {
        extension: SignedMove,
        dst: Register,
        src: Register,
    },
    /// A change of byte order.
    End {
        order: ByteOrder,
        width: EndWidth,
        dst: Register,
    },
    /// The wide load of a 64-bit number.
    LoadWide {
        dst: Register,
        value: u64,
    },
    /// A load from the address that is offset from `base`, zero-extended.
    Load {
        width: Width,
        dst: Register,
        base: Register,
        offset: i16,
    },
    /// A load from the address that is offset from `base`, sign-extended.
    LoadSigned {
        width: SignedWidth,
        dst: Register,
        base: Register,
        offset: i16,
    },
    /// A store to the address that is offset from `base`.
    Store {
        width: Width,
        base: Register,
        offset: i16,
        source: Operand,
    },
    /// A jump, in slots from the slot after it.
    Jump {
        offset: i16,
    },
    /// A jump whose distance is the immediate.
    JumpLong {
        distance: i32,
    },
    /// A conditional jump: the register is compared with the operand.
    Branch {
        bits: OpWidth,
        comparison: Comparison,
        dst: Register,
        source: Operand,
        offset: i16,
    },
    /// A call of the helper of that id.
    Call {
        helper: u32,
    },
    /// A call within the program, in slots from the slot after it. It is read, and no machine runs
    /// it.
    CallLocal {
        distance: i32,
    },
    /// The end of the method.
    Exit,
}

/// The number of slots of eight bytes that an instruction takes: 2 for the wide load, else 1.
#[rattlefmt::skip]
pub fn width(insn: &Insn) -> usize
    ensures { result ≡ slot_count insn.now }
{
    match insn {
        Insn::LoadWide { .. } => 2,
        Insn::Alu { .. } | Insn::Neg { .. } | Insn::Mov { .. } | Insn::MovSigned { .. } | Insn::End { .. } => 1,
        Insn::Load { .. } | Insn::LoadSigned { .. } | Insn::Store { .. } => 1,
        Insn::Jump { .. } | Insn::JumpLong { .. } | Insn::Branch { .. } | Insn::Call { .. } | Insn::CallLocal { .. }
        | Insn::Exit => 1,
    }
}
