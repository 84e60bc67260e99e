//! The operations that instructions name: widths, arithmetic, moves, byte orders, comparisons.

ghost use Rattle.std.specs.Prelude.{◌≡◌};
ghost use Rattle.bpf_decode.specs.Instruction.{alu_class, jump_class, operation_code, operation_offset};
ghost use Rattle.bpf_decode.specs.Instruction.{signed_move_bits, signed_move_offset, order_opcode, end_bits};
ghost use Rattle.bpf_decode.specs.Instruction.{comparison_code};
ghost use Rattle.bpf_decode.specs.Opcodes.{operation_of, offset_selects, selected, order_of, imm_selects, end_width_of};
ghost use Rattle.bpf_decode.specs.Opcodes.{move_selects, signed_move_of, comparison_of};

/// The width of an operation: all 64 bits of a register, or the low 32, and arithmetic zeroes the
/// rest (RFC 9669 section 3.3: ALU64 and JMP, or ALU and JMP32).
#[derive(Clone, Copy, PartialEq, Eq)]
pub enum OpWidth {
    Bits32,
    Bits64,
}

impl OpWidth {
    /// The class of arithmetic: ALU64 or ALU (RFC 9669 section 3.3).
    pub(crate) fn alu_class(self) -> u8
        ensures { result ≡ alu_class self }
    {
        match self {
            OpWidth::Bits32 => 4,
            OpWidth::Bits64 => 7,
        }
    }

    /// The class of jumps: JMP or JMP32.
    pub(crate) fn jump_class(self) -> u8
        ensures { result ≡ jump_class self }
    {
        match self {
            OpWidth::Bits32 => 6,
            OpWidth::Bits64 => 5,
        }
    }
}

/// Arithmetic of a register and an operand (RFC 9669 section 4.1).
#[derive(Clone, Copy, PartialEq, Eq)]
pub enum Arithmetic {
    Add,
    Sub,
    Mul,
    Div,
    SignedDiv,
    Or,
    And,
    Lsh,
    Rsh,
    Mod,
    SignedMod,
    Xor,
    Arsh,
}

impl Arithmetic {
    /// Its code, the high four bits of the opcode.
    pub(crate) fn code(self) -> u8
        ensures { result ≡ operation_code self }
    {
        match self {
            Arithmetic::Add => 0x0,
            Arithmetic::Sub => 0x1,
            Arithmetic::Mul => 0x2,
            Arithmetic::Div => 0x3,
            Arithmetic::SignedDiv => 0x3,
            Arithmetic::Or => 0x4,
            Arithmetic::And => 0x5,
            Arithmetic::Lsh => 0x6,
            Arithmetic::Rsh => 0x7,
            Arithmetic::Mod => 0x9,
            Arithmetic::SignedMod => 0x9,
            Arithmetic::Xor => 0xa,
            Arithmetic::Arsh => 0xc,
        }
    }

    /// Its offset field: 1 for the signed ones.
    #[rattlefmt::skip]
    pub(crate) fn offset(self) -> u16
        ensures { result ≡ operation_offset self }
    {
        match self {
            Arithmetic::SignedDiv | Arithmetic::SignedMod => 1,
            Arithmetic::Div | Arithmetic::Mod => 0,
            Arithmetic::Add | Arithmetic::Sub | Arithmetic::Mul | Arithmetic::Or | Arithmetic::And | Arithmetic::Lsh
            | Arithmetic::Rsh | Arithmetic::Xor | Arithmetic::Arsh => 0,
        }
    }

    /// The operation of a code if the offset field is 0.
    pub fn of(code: u8) -> Option<Arithmetic>
        ensures { result ≡ operation_of code }
    {
        match code {
            0x0 => Some(Arithmetic::Add),
            0x1 => Some(Arithmetic::Sub),
            0x2 => Some(Arithmetic::Mul),
            0x3 => Some(Arithmetic::Div),
            0x4 => Some(Arithmetic::Or),
            0x5 => Some(Arithmetic::And),
            0x6 => Some(Arithmetic::Lsh),
            0x7 => Some(Arithmetic::Rsh),
            0x9 => Some(Arithmetic::Mod),
            0xa => Some(Arithmetic::Xor),
            0xc => Some(Arithmetic::Arsh),
            _ => None,
        }
    }

    /// True if an instruction of its code has that offset field.
    // An offset field that selects nothing is refused as one that should be zero and isn't.
    #[rattlefmt::skip]
    pub fn allows(self, offset: u16) -> bool
        ensures { result ≡ offset_selects self offset }
    {
        match self {
            Arithmetic::Div | Arithmetic::Mod => offset <= 1,
            Arithmetic::SignedDiv | Arithmetic::SignedMod => offset == 1,
            Arithmetic::Add | Arithmetic::Sub | Arithmetic::Mul | Arithmetic::Or | Arithmetic::And | Arithmetic::Lsh
            | Arithmetic::Rsh | Arithmetic::Xor | Arithmetic::Arsh => offset == 0,
        }
    }

    /// The operation of its code that an offset field selects.
    pub fn selected(self, offset: u16) -> Arithmetic
        ensures { result ≡ selected self offset }
    {
        match self {
            Arithmetic::Div if offset != 0 => Arithmetic::SignedDiv,
            Arithmetic::Mod if offset != 0 => Arithmetic::SignedMod,
            _ => self,
        }
    }
}

/// A copy with sign extension (RFC 9669 section 4.1, MOVSX): the bits that are copied, and the
/// width to which they are extended.
#[derive(Clone, Copy, PartialEq, Eq)]
pub enum SignedMove {
    Byte64,
    Half64,
    Word64,
    Byte32,
    Half32,
}

impl SignedMove {
    /// The class that it belongs to.
    pub(crate) fn bits(self) -> OpWidth
        ensures { result ≡ signed_move_bits self }
    {
        match self {
            SignedMove::Byte64 | SignedMove::Half64 | SignedMove::Word64 => OpWidth::Bits64,
            SignedMove::Byte32 | SignedMove::Half32 => OpWidth::Bits32,
        }
    }

    /// The bits copied, which are its offset field.
    pub(crate) fn offset(self) -> u16
        ensures { result ≡ signed_move_offset self }
    {
        match self {
            SignedMove::Byte64 | SignedMove::Byte32 => 8,
            SignedMove::Half64 | SignedMove::Half32 => 16,
            SignedMove::Word64 => 32,
        }
    }

    /// True if a copy with sign extension of that class has that offset field.
    pub fn exists(bits: OpWidth, offset: u16) -> bool
        ensures { result ≡ move_selects bits offset }
    {
        match bits {
            OpWidth::Bits64 => offset == 8 || offset == 16 || offset == 32,
            OpWidth::Bits32 => offset == 8 || offset == 16,
        }
    }

    /// The copy of that class that an offset field selects.
    #[rattlefmt::skip]
    pub fn selected(bits: OpWidth, offset: u16) -> SignedMove
        ensures { result ≡ signed_move_of bits offset }
    {
        match bits {
            OpWidth::Bits64 =>
                if offset == 8 { SignedMove::Byte64 }
                else if offset == 16 { SignedMove::Half64 }
                else { SignedMove::Word64 },
            OpWidth::Bits32 => if offset == 8 { SignedMove::Byte32 } else { SignedMove::Half32 },
        }
    }
}

/// The order of bytes that END gives (RFC 9669 section 4.2).
#[derive(Clone, Copy, PartialEq, Eq)]
pub enum ByteOrder {
    ToLittle,
    ToBig,
    Swap,
}

impl ByteOrder {
    /// Its opcode.
    pub(crate) fn opcode(self) -> u8
        ensures { result ≡ order_opcode self }
    {
        match self {
            ByteOrder::ToLittle => 0xd4,
            ByteOrder::ToBig => 0xdc,
            ByteOrder::Swap => 0xd7,
        }
    }

    /// The order of a class and a source bit.
    pub fn of(bits: OpWidth, source: u8) -> Option<ByteOrder>
        ensures { result ≡ order_of bits source }
    {
        match bits {
            OpWidth::Bits32 if source == 0 => Some(ByteOrder::ToLittle),
            OpWidth::Bits32 => Some(ByteOrder::ToBig),
            OpWidth::Bits64 if source == 0 => Some(ByteOrder::Swap),
            OpWidth::Bits64 => None,
        }
    }
}

/// The number of bits that END keeps.
#[derive(Clone, Copy, PartialEq, Eq)]
pub enum EndWidth {
    End16,
    End32,
    End64,
}

impl EndWidth {
    /// The bits kept, which are its immediate.
    pub(crate) fn bits(self) -> u32
        ensures { result ≡ end_bits self }
    {
        match self {
            EndWidth::End16 => 16,
            EndWidth::End32 => 32,
            EndWidth::End64 => 64,
        }
    }

    /// True if END has that immediate.
    pub fn exists(imm: u32) -> bool
        ensures { result ≡ imm_selects imm }
    {
        imm == 16 || imm == 32 || imm == 64
    }

    /// The width that an immediate selects.
    pub fn selected(imm: u32) -> EndWidth
        ensures { result ≡ end_width_of imm }
    {
        if imm == 16 {
            EndWidth::End16
        } else if imm == 32 {
            EndWidth::End32
        } else {
            EndWidth::End64
        }
    }
}

/// The comparison of a conditional jump (RFC 9669 section 4.3).
#[derive(Clone, Copy, PartialEq, Eq)]
pub enum Comparison {
    Equal,
    Greater,
    GreaterEqual,
    SharesBits,
    NotEqual,
    SignedGreater,
    SignedGreaterEqual,
    Less,
    LessEqual,
    SignedLess,
    SignedLessEqual,
}

impl Comparison {
    /// Its code, the high four bits of the opcode.
    pub(crate) fn code(self) -> u8
        ensures { result ≡ comparison_code self }
    {
        match self {
            Comparison::Equal => 0x1,
            Comparison::Greater => 0x2,
            Comparison::GreaterEqual => 0x3,
            Comparison::SharesBits => 0x4,
            Comparison::NotEqual => 0x5,
            Comparison::SignedGreater => 0x6,
            Comparison::SignedGreaterEqual => 0x7,
            Comparison::Less => 0xa,
            Comparison::LessEqual => 0xb,
            Comparison::SignedLess => 0xc,
            Comparison::SignedLessEqual => 0xd,
        }
    }

    /// The comparison of a code.
    pub fn of(code: u8) -> Option<Comparison>
        ensures { result ≡ comparison_of code }
    {
        match code {
            0x1 => Some(Comparison::Equal),
            0x2 => Some(Comparison::Greater),
            0x3 => Some(Comparison::GreaterEqual),
            0x4 => Some(Comparison::SharesBits),
            0x5 => Some(Comparison::NotEqual),
            0x6 => Some(Comparison::SignedGreater),
            0x7 => Some(Comparison::SignedGreaterEqual),
            0xa => Some(Comparison::Less),
            0xb => Some(Comparison::LessEqual),
            0xc => Some(Comparison::SignedLess),
            0xd => Some(Comparison::SignedLessEqual),
            _ => None,
        }
    }
}
