//! The table of opcodes, by which code is both read and spelled.

ghost use Rattle.std.specs.Prelude.{◌≡◌, ◌<◌, ◌/◌, ◌%◌};
ghost use Rattle.bpf_decode.specs.Table.{opcode, row_of, alu_row, branch_row, other_row, fields_allowed, high_half};
ghost use Rattle.bpf_decode.specs.Table.{instruction};

use crate::access::{SignedWidth, Width};
use crate::insn::{Insn, Operand};
use crate::operation::{Arithmetic, ByteOrder, Comparison, EndWidth, OpWidth, SignedMove};
use crate::register::Register;
use crate::slot::Slot;

/// A row of the table of opcodes (RFC 9669 sections 4 and 5): which fields an instruction uses, and
/// how.
#[derive(Clone, Copy)]
pub enum OpcodeRow {
    AluImmediate(OpWidth, Arithmetic),
    AluRegister(OpWidth, Arithmetic),
    Neg(OpWidth),
    MovImmediate(OpWidth),
    MovRegister(OpWidth),
    End(ByteOrder),
    Wide,
    Load(Width),
    LoadSigned(SignedWidth),
    StoreImmediate(Width),
    StoreRegister(Width),
    Jump,
    JumpLong,
    BranchImmediate(OpWidth, Comparison),
    BranchRegister(OpWidth, Comparison),
    Call,
    Exit,
}

impl OpcodeRow {
    /// A row of arithmetic, by class, source bit and code.
    fn alu(bits: OpWidth, source: u8, code: u8) -> Option<OpcodeRow>
        ensures { result ≡ alu_row bits source code }
    {
        if code == 0x8 {
            return if source == 0 {
                Some(OpcodeRow::Neg(bits))
            } else {
                None
            };
        }
        if code == 0xb {
            return if source == 0 {
                Some(OpcodeRow::MovImmediate(bits))
            } else {
                Some(OpcodeRow::MovRegister(bits))
            };
        }
        if code == 0xd {
            return match ByteOrder::of(bits, source) {
                Some(order) => Some(OpcodeRow::End(order)),
                None => None,
            };
        }
        match Arithmetic::of(code) {
            Some(operation) if source == 0 => Some(OpcodeRow::AluImmediate(bits, operation)),
            Some(operation) => Some(OpcodeRow::AluRegister(bits, operation)),
            None => None,
        }
    }

    /// A row of comparisons, by class, source bit and code.
    fn branch(bits: OpWidth, source: u8, code: u8) -> Option<OpcodeRow>
        ensures { result ≡ branch_row bits source code }
    {
        match Comparison::of(code) {
            Some(comparison) if source == 0 => Some(OpcodeRow::BranchImmediate(bits, comparison)),
            Some(comparison) => Some(OpcodeRow::BranchRegister(bits, comparison)),
            None => None,
        }
    }

    /// Any other row, by opcode.
    #[tactic(auto, unfolding(crate::specs::Table::other_row))]
    fn other(opcode: u8) -> Option<OpcodeRow>
        ensures { result ≡ other_row opcode }
    {
        match opcode {
            0x05 => Some(OpcodeRow::Jump),
            0x06 => Some(OpcodeRow::JumpLong),
            0x18 => Some(OpcodeRow::Wide),
            0x61 => Some(OpcodeRow::Load(Width::Word)),
            0x62 => Some(OpcodeRow::StoreImmediate(Width::Word)),
            0x63 => Some(OpcodeRow::StoreRegister(Width::Word)),
            0x69 => Some(OpcodeRow::Load(Width::Half)),
            0x6a => Some(OpcodeRow::StoreImmediate(Width::Half)),
            0x6b => Some(OpcodeRow::StoreRegister(Width::Half)),
            0x71 => Some(OpcodeRow::Load(Width::Byte)),
            0x72 => Some(OpcodeRow::StoreImmediate(Width::Byte)),
            0x73 => Some(OpcodeRow::StoreRegister(Width::Byte)),
            0x79 => Some(OpcodeRow::Load(Width::Double)),
            0x7a => Some(OpcodeRow::StoreImmediate(Width::Double)),
            0x7b => Some(OpcodeRow::StoreRegister(Width::Double)),
            0x81 => Some(OpcodeRow::LoadSigned(SignedWidth::Word)),
            0x89 => Some(OpcodeRow::LoadSigned(SignedWidth::Half)),
            0x91 => Some(OpcodeRow::LoadSigned(SignedWidth::Byte)),
            0x85 => Some(OpcodeRow::Call),
            0x95 => Some(OpcodeRow::Exit),
            _ => None,
        }
    }

    /// The row of an opcode, if there is one.
    pub fn of(opcode: u8) -> Option<OpcodeRow>
        ensures { result ≡ row_of opcode }
    {
        let class = opcode % 8;
        let source = opcode / 8 % 2;
        let code = opcode / 16;
        // Codes 0, 8 and 9 of class 5 (JA, CALL, EXIT), and code 0 of class 6, compare nothing.
        if class == 4 {
            OpcodeRow::alu(OpWidth::Bits32, source, code)
        } else if class == 7 {
            OpcodeRow::alu(OpWidth::Bits64, source, code)
        } else if class == 5 && (code == 0 || code == 8 || code == 9) {
            OpcodeRow::other(opcode)
        } else if class == 5 {
            OpcodeRow::branch(OpWidth::Bits64, source, code)
        } else if class == 6 && code == 0 {
            OpcodeRow::other(opcode)
        } else if class == 6 {
            OpcodeRow::branch(OpWidth::Bits32, source, code)
        } else {
            OpcodeRow::other(opcode)
        }
    }

    /// Its opcode.
    #[rattlefmt::skip]
    pub fn opcode(self) -> u8
        ensures value { result ≡ opcode self }
    {
        match self {
            OpcodeRow::AluImmediate(bits, operation) => bits.alu_class() + 16 * operation.code(),
            OpcodeRow::AluRegister(bits, operation) => bits.alu_class() + 8 + 16 * operation.code(),
            OpcodeRow::Neg(bits) => bits.alu_class() + 0x80,
            OpcodeRow::MovImmediate(bits) => bits.alu_class() + 0xb0,
            OpcodeRow::MovRegister(bits) => bits.alu_class() + 0xb8,
            OpcodeRow::End(order) => order.opcode(),
            OpcodeRow::Wide => 0x18,
            OpcodeRow::Load(width) => 0x61 + 8 * width.size_code(),
            OpcodeRow::LoadSigned(width) => 0x81 + 8 * width.size_code(),
            OpcodeRow::StoreImmediate(width) => 0x62 + 8 * width.size_code(),
            OpcodeRow::StoreRegister(width) => 0x63 + 8 * width.size_code(),
            OpcodeRow::Jump => 0x05,
            OpcodeRow::JumpLong => 0x06,
            OpcodeRow::BranchImmediate(bits, comparison) => bits.jump_class() + 16 * comparison.code(),
            OpcodeRow::BranchRegister(bits, comparison) => bits.jump_class() + 8 + 16 * comparison.code(),
            OpcodeRow::Call => 0x85,
            OpcodeRow::Exit => 0x95,
        }
    }

    /// True if the fields that it doesn't use are zero, and a selecting field has a value of an
    /// instruction.
    #[rattlefmt::skip]
    pub fn allows(self, slot: &Slot) -> bool
        ensures { result ≡ fields_allowed self slot.now }
    {
        let Slot { opcode: _, dst, src, offset, imm } = *slot;
        match self {
            OpcodeRow::AluImmediate(_, operation) => src == 0 && operation.allows(offset),
            OpcodeRow::AluRegister(_, operation) => imm == 0 && operation.allows(offset),
            OpcodeRow::Neg(_) => src == 0 && offset == 0 && imm == 0,
            OpcodeRow::MovImmediate(_) | OpcodeRow::Wide => src == 0 && offset == 0,
            OpcodeRow::MovRegister(bits) => imm == 0 && (offset == 0 || SignedMove::exists(bits, offset)),
            OpcodeRow::End(_) => src == 0 && offset == 0 && EndWidth::exists(imm),
            OpcodeRow::Load(_) | OpcodeRow::LoadSigned(_) | OpcodeRow::StoreRegister(_) => imm == 0,
            OpcodeRow::StoreImmediate(_) => src == 0,
            OpcodeRow::Jump => dst == 0 && src == 0 && imm == 0,
            OpcodeRow::JumpLong => dst == 0 && src == 0 && offset == 0,
            OpcodeRow::BranchImmediate(_, _) => src == 0,
            OpcodeRow::BranchRegister(_, _) => imm == 0,
            OpcodeRow::Call => dst == 0 && src <= 1 && offset == 0,
            OpcodeRow::Exit => dst == 0 && src == 0 && offset == 0 && imm == 0,
        }
    }

    /// The high half of a wide load, from the bytes after its first slot: `None` if they are no
    /// second half. Every other row has 0.
    #[rattlefmt::skip]
    pub fn high_half(self, bytes: &[u8]) -> Option<u32>
        ensures { result ≡ high_half self bytes.now }
    {
        match self {
            OpcodeRow::Wide => match Slot::of(bytes) {
                Some(Slot { opcode: 0, dst: 0, src: 0, offset: 0, imm }) => Some(imm),
                _ => None,
            },
            OpcodeRow::AluImmediate(_, _) | OpcodeRow::AluRegister(_, _) | OpcodeRow::Neg(_) => Some(0),
            OpcodeRow::MovImmediate(_) | OpcodeRow::MovRegister(_) | OpcodeRow::End(_) => Some(0),
            OpcodeRow::Load(_) | OpcodeRow::LoadSigned(_) | OpcodeRow::StoreImmediate(_)
            | OpcodeRow::StoreRegister(_) => Some(0),
            OpcodeRow::Jump | OpcodeRow::JumpLong | OpcodeRow::BranchImmediate(_, _)
            | OpcodeRow::BranchRegister(_, _) => Some(0),
            OpcodeRow::Call | OpcodeRow::Exit => Some(0),
        }
    }

    /// The instruction of this row with those fields and that high half.
    #[rattlefmt::skip]
    pub fn instruction(self, dst: Register, src: Register, slot: &Slot, high: u32) -> Insn
        requires dst_is { dst ≡ slot.now.dst }
        requires src_is { src ≡ slot.now.src }
        ensures { result ≡ instruction self slot.now high }
    {
        let offset = slot.offset.cast_signed();
        let imm = slot.imm.cast_signed();
        match self {
            OpcodeRow::AluImmediate(bits, operation) =>
                Insn::Alu { bits, operation: operation.selected(slot.offset), dst, source: Operand::Immediate(imm) },
            OpcodeRow::AluRegister(bits, operation) =>
                Insn::Alu { bits, operation: operation.selected(slot.offset), dst, source: Operand::Register(src) },
            OpcodeRow::Neg(bits) => Insn::Neg { bits, dst },
            OpcodeRow::MovImmediate(bits) => Insn::Mov { bits, dst, source: Operand::Immediate(imm) },
            OpcodeRow::MovRegister(bits) if slot.offset == 0 => Insn::Mov { bits, dst, source: Operand::Register(src) },
            OpcodeRow::MovRegister(bits) =>
                Insn::MovSigned { extension: SignedMove::selected(bits, slot.offset), dst, src },
            OpcodeRow::End(order) => Insn::End { order, width: EndWidth::selected(slot.imm), dst },
            OpcodeRow::Wide => Insn::LoadWide { dst, value: u64::from(slot.imm) + (u64::from(high) << 32) },
            OpcodeRow::Load(width) => Insn::Load { width, dst, base: src, offset },
            OpcodeRow::LoadSigned(width) => Insn::LoadSigned { width, dst, base: src, offset },
            OpcodeRow::StoreImmediate(width) =>
                Insn::Store { width, base: dst, offset, source: Operand::Immediate(imm) },
            OpcodeRow::StoreRegister(width) => Insn::Store { width, base: dst, offset, source: Operand::Register(src) },
            OpcodeRow::Jump => Insn::Jump { offset },
            OpcodeRow::JumpLong => Insn::JumpLong { distance: imm },
            OpcodeRow::BranchImmediate(bits, comparison) =>
                Insn::Branch { bits, comparison, dst, source: Operand::Immediate(imm), offset },
            OpcodeRow::BranchRegister(bits, comparison) =>
                Insn::Branch { bits, comparison, dst, source: Operand::Register(src), offset },
            OpcodeRow::Call if slot.src == 0 => Insn::Call { helper: slot.imm },
            OpcodeRow::Call => Insn::CallLocal { distance: imm },
            OpcodeRow::Exit => Insn::Exit,
        }
    }
}
