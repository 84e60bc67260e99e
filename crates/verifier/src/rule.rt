ghost use Rattle.std.specs.Prelude.{◌≡◌};
ghost use Rattle.verifier.specs.RuleNumber.{rule_number, rule_name};

use std::fmt;

/// The rules by which `verify` refuses a class, in the order in which they are tried at a slot.
#[derive(Clone, Copy, Debug, PartialEq, Eq)]
pub enum Rule {
    /// A jump has a negative distance.
    Backward,
    /// A jump's target is past the last slot or in a wide load's second half.
    Target,
    /// The last instruction is neither `exit` nor `ja`.
    FallsOff,
    /// A call within the program.
    LocalCall,
    /// An operand that is read is unset: at `exit` register 0, at a call the registers of the
    /// helper's arguments; or a slot of the stack that is unset is read.
    UnsetRead,
    /// Register 10 is the destination of arithmetic, a load or a wide load.
    WritesR10,
    /// Arithmetic on a pointer other than a copy, or a number added to it or subtracted from it,
    /// each of 64 bits.
    PointerArithmetic,
    /// A comparison with a pointer.
    PointerCompare,
    /// A pointer is stored, other than whole in a slot of the stack that is known.
    PointerStored,
    /// A load or store through a number; or one through a pointer, or a helper's range, that may
    /// leave its region.
    Bounds,
    /// A store, or a helper's writable range, in the input.
    ReadOnlyRegion,
    /// A call of an id that is no helper's.
    UnknownHelper,
    /// A helper is given a pointer for a number, a number for a pointer, or an output length that
    /// may pass out_cap.
    HelperArgument,
    /// A helper that may change the object, in a method that only reads.
    WriteHelperInReader,
    /// `exit` with a pointer in register 0.
    ReturnsPointer,
    /// Memory was refused: it says nothing of the class.
    NoMemory,
    /// A load of a part of a pointer in the stack, or a helper's readable range over one.
    PointerBytes,
}

impl Rule {
    /// Its number, 1 to 17.
    pub fn number(self) -> u8
        ensures { result ≡ rule_number self }
    {
        self.row().0
    }

    /// The table of rules: number and name.
    fn row(self) -> (u8, &'static str)
        ensures number { result.0 ≡ rule_number self }
        ensures name { result.1.now ≡ rule_name self }
    {
        match self {
            Rule::Backward => (1, "Backward"),
            Rule::Target => (2, "Target"),
            Rule::FallsOff => (3, "FallsOff"),
            Rule::LocalCall => (4, "LocalCall"),
            Rule::UnsetRead => (5, "UnsetRead"),
            Rule::WritesR10 => (6, "WritesR10"),
            Rule::PointerArithmetic => (7, "PointerArithmetic"),
            Rule::PointerCompare => (8, "PointerCompare"),
            Rule::PointerStored => (9, "PointerStored"),
            Rule::Bounds => (10, "Bounds"),
            Rule::ReadOnlyRegion => (11, "ReadOnlyRegion"),
            Rule::UnknownHelper => (12, "UnknownHelper"),
            Rule::HelperArgument => (13, "HelperArgument"),
            Rule::WriteHelperInReader => (14, "WriteHelperInReader"),
            Rule::ReturnsPointer => (15, "ReturnsPointer"),
            Rule::NoMemory => (16, "NoMemory"),
            Rule::PointerBytes => (17, "PointerBytes"),
        }
    }
}

impl fmt::Display for Rule {
    ghost use Rattle.std.specs.Prelude.{Some};
    ghost use Rattle.verifier.specs.RuleNumber.{rule_text};

    ghost output = { λ r. Some (rule_text r) };

    fn fmt<W: fmt::Write>(&self, f: &mut fmt::Formatter<W>) -> fmt::Result {
        let (number, name) = self.row();
        write!(f, "{number} {name}")
    }
}
