//! The words with which a line begins, and the forms of their operands.

/// What an operand stands for.
#[derive(Clone, Copy)]
pub(crate) enum Part {
    /// A register.
    Register,
    /// A register or a number of 32 bits.
    Source,
    /// A number of 32 bits.
    Number,
    /// A number of 64 bits.
    Wide,
    /// A place in memory.
    Memory,
    /// A label, or a distance of 16 bits.
    Near,
    /// A label, or a distance of 32 bits.
    Far,
    /// A helper's number, or `local` and where a local call goes.
    Call,
    /// A method's name, its flags, IN or OUT.
    Name,
    Flags,
    Capacity,
    /// A rule set other than 1.
    Rules,
}

/// Words, what their operands stand for, and the operands in one form or two.
#[derive(Clone, Copy)]
pub(crate) struct WordForm {
    /// The words, with blanks between them.
    pub(crate) words: &'static str,
    pub(crate) parts: &'static [Part],
    pub(crate) one: &'static str,
    pub(crate) other: &'static str,
}

/// The form of each word.
#[rattlefmt::skip]
pub(crate) const FORMS: [WordForm; 16] = [
    WordForm { words: "add sub mul div sdiv or and lsh rsh mod smod xor arsh mov",
        parts: &[Part::Register, Part::Source], one: "r1, r2", other: "r1, -5" },
    WordForm { words: "add32 sub32 mul32 div32 sdiv32 or32 and32 lsh32 rsh32 mod32 smod32 xor32 arsh32 mov32",
        parts: &[Part::Register, Part::Source], one: "r1, r2", other: "r1, -5" },
    WordForm { words: "movsx8 movsx16 movsx32 movsx8_32 movsx16_32",
        parts: &[Part::Register, Part::Register], one: "r1, r2", other: "" },
    WordForm { words: "neg neg32 le16 le32 le64 be16 be32 be64 bswap16 bswap32 bswap64",
        parts: &[Part::Register], one: "r1", other: "" },
    WordForm { words: "lddw", parts: &[Part::Register, Part::Wide], one: "r1, 0x1122334455667788", other: "" },
    WordForm { words: "ldxb ldxh ldxw ldxdw ldxsb ldxsh ldxsw",
        parts: &[Part::Register, Part::Memory], one: "r0, [r1+4]", other: "" },
    WordForm { words: "stb sth stw stdw", parts: &[Part::Memory, Part::Number], one: "[r10-8], 5", other: "" },
    WordForm { words: "stxb stxh stxw stxdw",
        parts: &[Part::Memory, Part::Register], one: "[r10-8], r2", other: "" },
    WordForm { words: "jeq jgt jge jset jne jsgt jsge jlt jle jslt jsle",
        parts: &[Part::Register, Part::Source, Part::Near], one: "r2, 15, +3", other: "r2, r3, end" },
    WordForm { words: "jeq32 jgt32 jge32 jset32 jne32 jsgt32 jsge32 jlt32 jle32 jslt32 jsle32",
        parts: &[Part::Register, Part::Source, Part::Near], one: "r2, 15, +3", other: "r2, r3, end" },
    WordForm { words: "ja", parts: &[Part::Near], one: "+3", other: "end" },
    WordForm { words: "ja32", parts: &[Part::Far], one: "+3", other: "end" },
    WordForm { words: "call", parts: &[Part::Call], one: "2", other: "" },
    WordForm { words: "exit", parts: &[], one: "", other: "" },
    WordForm { words: ".method", parts: &[Part::Name, Part::Flags, Part::Capacity, Part::Capacity],
        one: "name rw 8 8", other: "" },
    WordForm { words: ".rules", parts: &[Part::Rules], one: "2", other: "3" },
];

/// True if a word is among those of a list, which has blanks between them.
pub(crate) fn is_among(words: &str, word: &str) -> bool {
    words.split(' ').any(|it| it == word)
}

/// The form of a word, if it is one.
pub(crate) fn form_of(word: &str) -> Option<WordForm> {
    for form in &FORMS {
        if is_among(form.words, word) {
            return Some(*form);
        }
    }
    None
}
