//! How many bytes loads and stores move, without and with sign extension.

ghost use Rattle.std.specs.Prelude.{◌≡◌};
ghost use Rattle.bpf_decode.specs.Instruction.{byte_count, signed_byte_count, size_code, signed_size_code};

/// The number of bytes that a load or store moves (RFC 9669 section 5, the size modifier).
#[derive(Clone, Copy, PartialEq, Eq)]
pub enum Width {
    Byte,
    Half,
    Word,
    Double,
}

impl Width {
    /// 1, 2, 4 or 8.
    pub fn bytes(self) -> usize
        ensures { result ≡ byte_count self }
    {
        match self {
            Width::Byte => 1,
            Width::Half => 2,
            Width::Word => 4,
            Width::Double => 8,
        }
    }

    /// The size modifier, bits 3 and 4 of the opcode (RFC 9669 section 5).
    pub(crate) fn size_code(self) -> u8
        ensures { result ≡ size_code self }
    {
        match self {
            Width::Word => 0,
            Width::Half => 1,
            Width::Byte => 2,
            Width::Double => 3,
        }
    }
}

/// The number of bytes that a load with sign extension moves (RFC 9669 section 5.2).
/// 8 isn't among them: such a load has no bit to extend.
#[derive(Clone, Copy, PartialEq, Eq)]
pub enum SignedWidth {
    Byte,
    Half,
    Word,
}

impl SignedWidth {
    /// 1, 2 or 4.
    pub fn bytes(self) -> usize
        ensures { result ≡ signed_byte_count self }
    {
        match self {
            SignedWidth::Byte => 1,
            SignedWidth::Half => 2,
            SignedWidth::Word => 4,
        }
    }

    /// The size modifier.
    pub(crate) fn size_code(self) -> u8
        ensures { result ≡ signed_size_code self }
    {
        match self {
            SignedWidth::Word => 0,
            SignedWidth::Half => 1,
            SignedWidth::Byte => 2,
        }
    }
}
