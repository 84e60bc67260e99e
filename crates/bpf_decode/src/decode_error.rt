ghost use Rattle.std.specs.Prelude.{◌≡◌};
ghost use Rattle.bpf_decode.specs.Refusal.{number_of, name_of, slot_of};
ghost use Rattle.bpf_decode.specs.declared.decode_error.DecodeError.TheVariants.{NoMemory};

use std::alloc::{AllocError, AllocFailed};
use std::fmt;
use thiserror::Error;

/// The refusal of bytes. It prints as number and name, as `3 Opcode`.
#[derive(Clone, Copy, Debug, PartialEq, Eq, Error)]
pub enum DecodeError {
    /// A field passes the end; of code alone, the length is no multiple of 8.
    Truncated,
    /// The first four bytes are none of `RCL1`, `RCL2` and `RCL3`, or the number after the count of
    /// methods isn't 0.
    Magic,
    /// No instruction has the opcode of that slot.
    Opcode(usize),
    /// That slot names a register above 10.
    Register(usize),
    /// In that slot an unused field isn't zero, or a selecting field has a value of no instruction.
    NonzeroField(usize),
    /// The wide load at that slot has no second half, or one with an opcode, registers or an
    /// offset.
    WideHalf(usize),
    /// A name's length isn't 1 to `NAME_LIMIT`, or a byte of it is none of a-z, 0-9 and `_`.
    Name,
    /// A name isn't above the one before it.
    Order,
    /// Flags are none of 1, 2 and 3.
    Flags,
    /// A count, a capacity, a number of slots or of heads, or a budget is out of its range.
    Limit,
    /// Bytes follow the last method.
    Trailing,
    /// Memory ran out.
    NoMemory,
    /// The head of that slot isn't above the one before it or at no instruction, or a place of it has
    /// a number or a kind that isn't one, a number that isn't above the one before it, or bounds that
    /// aren't in order.
    Head(usize),
}

impl DecodeError {
    /// Its number, 1 to 13.
    pub fn number(self) -> u8
        ensures { result ≡ number_of self }
    {
        match self {
            DecodeError::Truncated => 1,
            DecodeError::Magic => 2,
            DecodeError::Opcode(_) => 3,
            DecodeError::Register(_) => 4,
            DecodeError::NonzeroField(_) => 5,
            DecodeError::WideHalf(_) => 6,
            DecodeError::Name => 7,
            DecodeError::Order => 8,
            DecodeError::Flags => 9,
            DecodeError::Limit => 10,
            DecodeError::Trailing => 11,
            DecodeError::NoMemory => 12,
            DecodeError::Head(_) => 13,
        }
    }

    /// Its name.
    pub fn name(self) -> &'static str
        ensures { result.now ≡ name_of self }
    {
        match self {
            DecodeError::Truncated => "Truncated",
            DecodeError::Magic => "Magic",
            DecodeError::Opcode(_) => "Opcode",
            DecodeError::Register(_) => "Register",
            DecodeError::NonzeroField(_) => "NonzeroField",
            DecodeError::WideHalf(_) => "WideHalf",
            DecodeError::Name => "Name",
            DecodeError::Order => "Order",
            DecodeError::Flags => "Flags",
            DecodeError::Limit => "Limit",
            DecodeError::Trailing => "Trailing",
            DecodeError::NoMemory => "NoMemory",
            DecodeError::Head(_) => "Head",
        }
    }

    /// The slot that it names, counted within the code that was read; `None` for those that name
    /// none.
    #[rattlefmt::skip]
    pub fn slot(self) -> Option<usize>
        ensures { result ≡ slot_of self }
    {
        match self {
            DecodeError::Opcode(slot) | DecodeError::Register(slot) | DecodeError::NonzeroField(slot)
            | DecodeError::WideHalf(slot) | DecodeError::Head(slot) => Some(slot),
            DecodeError::Truncated | DecodeError::Magic | DecodeError::Name | DecodeError::Order => None,
            DecodeError::Flags | DecodeError::Limit | DecodeError::Trailing | DecodeError::NoMemory => None,
        }
    }
}

impl fmt::Display for DecodeError {
    ghost use Rattle.std.specs.Prelude.{Some};
    ghost use Rattle.bpf_decode.specs.Refusal.{text_of};

    ghost output = { λ e. Some (text_of e) };

    fn fmt<W: fmt::Write>(&self, f: &mut fmt::Formatter<W>) -> fmt::Result {
        write!(f, "{} {}", self.number(), self.name())
    }
}

impl From<AllocError> for DecodeError {
    ghost from_gives = { λ _ e. e ≡ NoMemory };

    fn from(_e: AllocError) -> DecodeError {
        DecodeError::NoMemory
    }
}

impl<T: Drop> From<AllocFailed<T>> for DecodeError {
    ghost from_gives = { λ _ e. e ≡ NoMemory };

    fn from(_e: AllocFailed<T>) -> DecodeError {
        DecodeError::NoMemory
    }
}
