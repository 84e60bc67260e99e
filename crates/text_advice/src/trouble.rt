/// What is wrong with an operand, or with a part of a `.method` or `.rules` line.
#[derive(Clone, Copy)]
pub(crate) enum Trouble {
    /// There is none.
    Missing,
    /// A number is out of its range.
    Range,
    /// A register above r10.
    HighRegister,
    NoRegister,
    /// A register's name for its low 32 bits, as `w0`.
    LowRegister,
    /// A word that is neither a register nor a number.
    NoSource,
    NoNumber,
    LeadingZero,
    /// A decimal point.
    Point,
    /// A capital X.
    CapitalX,
    /// More than 16 hexadecimal digits.
    LongHex,
    /// A sign before a number that has none.
    Plus,
    Minus,
    MinusZero,
    /// No sign before a number that has one.
    NoSign,
    /// A mark of other assemblers, as `#`.
    Marked,
    /// A letter in quotes.
    Letter,
    /// The name of the error of that number.
    Error(u8),
    /// The name of the helper of that number.
    Helper(u32),
    /// A blank within brackets or a number.
    Blank,
    NoBrackets,
    /// A bracket without the other one.
    OneBracket,
    /// Parentheses, as in C.
    Parentheses,
    /// An offset before its register.
    OffsetFirst,
    /// A sign without an offset.
    NoOffset,
    /// A register as an offset.
    OffsetRegister,
    /// A label's name that is none.
    LabelName,
    /// A method's name that is none.
    MethodName,
    Flags,
    Rules,
}

impl Trouble {
    /// What is wrong, and what is written.
    #[rattlefmt::skip]
    pub(crate) fn sentence(self) -> &'static str {
        match self {
            Trouble::Missing => "it is missing",
            Trouble::Range => "out of range",
            Trouble::HighRegister => "registers are r0 to r10",
            Trouble::NoRegister => "no register: these are r0 to r10",
            Trouble::LowRegister => "no register: the word tells that 32 bits are meant, as `mov32 r0, 5`",
            Trouble::NoSource => "neither a register, r0 to r10, nor a number",
            Trouble::NoNumber => "no number: decimal, or `0x` and hexadecimal digits",
            Trouble::LeadingZero => "a number has no leading zero",
            Trouble::Point => "numbers are whole: no point",
            Trouble::CapitalX => "a hexadecimal number begins with `0x`, with a small x",
            Trouble::LongHex => "more than 16 hexadecimal digits",
            Trouble::Plus => "no `+` stands before a number here",
            Trouble::Minus => "no number below 0 stands here",
            Trouble::MinusZero => "0 has no `-`",
            Trouble::NoSign => "a distance or an offset has its sign, as `+3`",
            Trouble::Marked => "nothing but a `-` stands before a number",
            Trouble::Letter => "a letter is written as its number",
            Trouble::Error(_) => "an error is written as its number",
            Trouble::Helper(_) => "a helper is written as its number",
            Trouble::Blank => "no blank stands within it",
            Trouble::NoBrackets => "a place in memory stands in brackets, as `[r1+4]`",
            Trouble::OneBracket => "within `[` and `]` stand a register and an offset, and no comma, as `[r1+4]`",
            Trouble::Parentheses => "a place in memory is written as `[r1+4]`; the word tells how many bytes",
            Trouble::OffsetFirst => "the register stands before the offset, as `[r1+4]`",
            Trouble::NoOffset => "the offset is missing after its sign",
            Trouble::OffsetRegister =>
                "an offset is a number, and alone: add a register to a copy of the other one before, by `add`",
            Trouble::LabelName => "no label: one is a letter of a to z, then any of a to z, 0 to 9 and _",
            Trouble::MethodName => "no method's name: 1 to 64 of a to z, 0 to 9 and _",
            Trouble::Flags => "no flags: r (reads), w (writes) or rw",
            Trouble::Rules => "2 or 3; a class of rule set 1 has no such line",
        }
    }
}
