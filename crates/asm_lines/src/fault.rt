//! What is wrong with a text of assembly, and on which line.

ghost use Rattle.std.specs.Prelude.{◌≡◌};
ghost use Rattle.asm_lines.specs.Fault.{fault_number, fault_name};
ghost use Rattle.asm_lines.specs.Operands.{least};

use std::alloc::{AllocError, AllocFailed};
use std::fmt;
use thiserror::Error;

/// The fault of a line. It prints as number and name, as `2 Operand`.
#[derive(Clone, Copy, Debug, PartialEq, Eq, Error)]
pub enum AsmFault {
    /// The first word is unknown, an instruction or label comes before the first `.method`, or
    /// `.method` comes in the text of one method.
    Word,
    /// The operands aren't of the form, or a method's name isn't one.
    Operand,
    /// A number is out of its range, an instruction passes `SLOT_LIMIT` slots, a method follows
    /// `METHOD_LIMIT` others, or the text or the method that begins here has no instruction.
    Range,
    /// A label isn't known or is defined twice in its method, or a method's name isn't above the
    /// one before.
    Label,
    /// Memory ran out.
    NoMemory,
}

impl AsmFault {
    /// Its number, 1 to 5.
    pub fn number(self) -> u8
        ensures { result ≡ fault_number self }
    {
        match self {
            AsmFault::Word => 1,
            AsmFault::Operand => 2,
            AsmFault::Range => 3,
            AsmFault::Label => 4,
            AsmFault::NoMemory => 5,
        }
    }

    /// The one of the lower number.
    pub fn least(self, other: AsmFault) -> AsmFault
        ensures { result ≡ least self other }
    {
        if self.number() <= other.number() {
            self
        } else {
            other
        }
    }

    /// Its name.
    pub fn name(self) -> &'static str
        ensures { result.now ≡ fault_name self }
    {
        match self {
            AsmFault::Word => "Word",
            AsmFault::Operand => "Operand",
            AsmFault::Range => "Range",
            AsmFault::Label => "Label",
            AsmFault::NoMemory => "NoMemory",
        }
    }
}

impl fmt::Display for AsmFault {
    ghost use Rattle.std.specs.Prelude.{Some};
    ghost use Rattle.asm_lines.specs.Fault.{fault_text};

    ghost output = { λ f. Some (fault_text f) };

    fn fmt<W: fmt::Write>(&self, f: &mut fmt::Formatter<W>) -> fmt::Result {
        write!(f, "{} {}", self.number(), self.name())
    }
}

/// The first line that is refused, from 1, and the least fault there. Want of memory has line 0.
/// It prints as `line 4: 2 Operand`.
#[derive(Clone, Copy, Debug, PartialEq, Eq, Error)]
pub struct AsmError {
    pub line: usize,
    pub fault: AsmFault,
}

impl fmt::Display for AsmError {
    ghost use Rattle.std.specs.Prelude.{Some};
    ghost use Rattle.asm_lines.specs.Fault.{error_text};

    ghost output = { λ e. Some (error_text e) };

    fn fmt<W: fmt::Write>(&self, f: &mut fmt::Formatter<W>) -> fmt::Result {
        let AsmError { line, fault } = *self;
        write!(f, "line {line}: {fault}")
    }
}

impl From<AllocError> for AsmError {
    ghost use Rattle.std.specs.Prelude.{◌≡◌};
    ghost use Rattle.asm_lines.specs.Fault.{no_memory};

    ghost from_gives = { λ _ e. e ≡ no_memory };

    fn from(_e: AllocError) -> AsmError {
        AsmError {
            line: 0,
            fault: AsmFault::NoMemory,
        }
    }
}

impl<T: Drop> From<AllocFailed<T>> for AsmError {
    ghost use Rattle.std.specs.Prelude.{◌≡◌};
    ghost use Rattle.asm_lines.specs.Fault.{no_memory};

    ghost from_gives = { λ _ e. e ≡ no_memory };

    fn from(_e: AllocFailed<T>) -> AsmError {
        AsmError {
            line: 0,
            fault: AsmFault::NoMemory,
        }
    }
}
