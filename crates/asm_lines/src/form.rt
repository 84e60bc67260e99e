ghost use Rattle.std.specs.Prelude.{◌≡◌};
ghost use Rattle.std.specs.List.{find};
ghost use Rattle.std.specs.Str.{bytes_eq};
ghost use Rattle.asm_lines.specs.Words.{arithmetic_word, comparison_word, signed_move_word, end_word, word_of, form_of};

use bpf_decode::{
    Arithmetic, ByteOrder, Comparison, EndWidth, OpWidth, SignedMove, SignedWidth, Width,
};

/// An instruction without its operands, as its first word names it. `call` is the word of a
/// helper's call and of a local one: the operand tells them apart.
#[derive(Clone, Copy)]
pub enum Form {
    Alu(OpWidth, Arithmetic),
    Neg(OpWidth),
    Mov(OpWidth),
    MovSigned(SignedMove),
    End(ByteOrder, EndWidth),
    LoadWide,
    Load(Width),
    LoadSigned(SignedWidth),
    StoreNumber(Width),
    StoreRegister(Width),
    Jump,
    JumpLong,
    Branch(OpWidth, Comparison),
    Call,
    Exit,
}

/// The words of arithmetic.
#[tactic(auto, unfolding(crate::specs::Words::arithmetic_word))]
fn arithmetic_word(bits: OpWidth, operation: Arithmetic) -> &'static str
    ensures { result.now ≡ arithmetic_word bits operation }
{
    match (bits, operation) {
        (OpWidth::Bits64, Arithmetic::Add) => "add",
        (OpWidth::Bits64, Arithmetic::Sub) => "sub",
        (OpWidth::Bits64, Arithmetic::Mul) => "mul",
        (OpWidth::Bits64, Arithmetic::Div) => "div",
        (OpWidth::Bits64, Arithmetic::SignedDiv) => "sdiv",
        (OpWidth::Bits64, Arithmetic::Or) => "or",
        (OpWidth::Bits64, Arithmetic::And) => "and",
        (OpWidth::Bits64, Arithmetic::Lsh) => "lsh",
        (OpWidth::Bits64, Arithmetic::Rsh) => "rsh",
        (OpWidth::Bits64, Arithmetic::Mod) => "mod",
        (OpWidth::Bits64, Arithmetic::SignedMod) => "smod",
        (OpWidth::Bits64, Arithmetic::Xor) => "xor",
        (OpWidth::Bits64, Arithmetic::Arsh) => "arsh",
        (OpWidth::Bits32, Arithmetic::Add) => "add32",
        (OpWidth::Bits32, Arithmetic::Sub) => "sub32",
        (OpWidth::Bits32, Arithmetic::Mul) => "mul32",
        (OpWidth::Bits32, Arithmetic::Div) => "div32",
        (OpWidth::Bits32, Arithmetic::SignedDiv) => "sdiv32",
        (OpWidth::Bits32, Arithmetic::Or) => "or32",
        (OpWidth::Bits32, Arithmetic::And) => "and32",
        (OpWidth::Bits32, Arithmetic::Lsh) => "lsh32",
        (OpWidth::Bits32, Arithmetic::Rsh) => "rsh32",
        (OpWidth::Bits32, Arithmetic::Mod) => "mod32",
        (OpWidth::Bits32, Arithmetic::SignedMod) => "smod32",
        (OpWidth::Bits32, Arithmetic::Xor) => "xor32",
        (OpWidth::Bits32, Arithmetic::Arsh) => "arsh32",
    }
}

/// The words of the conditional jumps.
#[tactic(auto, unfolding(crate::specs::Words::comparison_word))]
fn comparison_word(bits: OpWidth, comparison: Comparison) -> &'static str
    ensures { result.now ≡ comparison_word bits comparison }
{
    match (bits, comparison) {
        (OpWidth::Bits64, Comparison::Equal) => "jeq",
        (OpWidth::Bits64, Comparison::Greater) => "jgt",
        (OpWidth::Bits64, Comparison::GreaterEqual) => "jge",
        (OpWidth::Bits64, Comparison::SharesBits) => "jset",
        (OpWidth::Bits64, Comparison::NotEqual) => "jne",
        (OpWidth::Bits64, Comparison::SignedGreater) => "jsgt",
        (OpWidth::Bits64, Comparison::SignedGreaterEqual) => "jsge",
        (OpWidth::Bits64, Comparison::Less) => "jlt",
        (OpWidth::Bits64, Comparison::LessEqual) => "jle",
        (OpWidth::Bits64, Comparison::SignedLess) => "jslt",
        (OpWidth::Bits64, Comparison::SignedLessEqual) => "jsle",
        (OpWidth::Bits32, Comparison::Equal) => "jeq32",
        (OpWidth::Bits32, Comparison::Greater) => "jgt32",
        (OpWidth::Bits32, Comparison::GreaterEqual) => "jge32",
        (OpWidth::Bits32, Comparison::SharesBits) => "jset32",
        (OpWidth::Bits32, Comparison::NotEqual) => "jne32",
        (OpWidth::Bits32, Comparison::SignedGreater) => "jsgt32",
        (OpWidth::Bits32, Comparison::SignedGreaterEqual) => "jsge32",
        (OpWidth::Bits32, Comparison::Less) => "jlt32",
        (OpWidth::Bits32, Comparison::LessEqual) => "jle32",
        (OpWidth::Bits32, Comparison::SignedLess) => "jslt32",
        (OpWidth::Bits32, Comparison::SignedLessEqual) => "jsle32",
    }
}

/// The words of copies with sign extension.
#[tactic(auto, unfolding(crate::specs::Words::signed_move_word))]
fn signed_move_word(extension: SignedMove) -> &'static str
    ensures { result.now ≡ signed_move_word extension }
{
    match extension {
        SignedMove::Byte64 => "movsx8",
        SignedMove::Half64 => "movsx16",
        SignedMove::Word64 => "movsx32",
        SignedMove::Byte32 => "movsx8_32",
        SignedMove::Half32 => "movsx16_32",
    }
}

/// The words of changes of byte order.
#[tactic(auto, unfolding(crate::specs::Words::end_word))]
fn end_word(order: ByteOrder, width: EndWidth) -> &'static str
    ensures { result.now ≡ end_word order width }
{
    match (order, width) {
        (ByteOrder::ToLittle, EndWidth::End16) => "le16",
        (ByteOrder::ToLittle, EndWidth::End32) => "le32",
        (ByteOrder::ToLittle, EndWidth::End64) => "le64",
        (ByteOrder::ToBig, EndWidth::End16) => "be16",
        (ByteOrder::ToBig, EndWidth::End32) => "be32",
        (ByteOrder::ToBig, EndWidth::End64) => "be64",
        (ByteOrder::Swap, EndWidth::End16) => "bswap16",
        (ByteOrder::Swap, EndWidth::End32) => "bswap32",
        (ByteOrder::Swap, EndWidth::End64) => "bswap64",
    }
}

impl Form {
    /// Its word.
    #[tactic(auto, unfolding(crate::specs::Words::word_of))]
    pub(crate) fn word(self) -> &'static str
        ensures { result.now ≡ word_of self }
    {
        match self {
            Form::Alu(bits, operation) => arithmetic_word(bits, operation),
            Form::Branch(bits, comparison) => comparison_word(bits, comparison),
            Form::MovSigned(extension) => signed_move_word(extension),
            Form::End(order, width) => end_word(order, width),
            Form::Load(Width::Byte) => "ldxb",
            Form::Load(Width::Half) => "ldxh",
            Form::Load(Width::Word) => "ldxw",
            Form::Load(Width::Double) => "ldxdw",
            Form::LoadSigned(SignedWidth::Byte) => "ldxsb",
            Form::LoadSigned(SignedWidth::Half) => "ldxsh",
            Form::LoadSigned(SignedWidth::Word) => "ldxsw",
            Form::StoreNumber(Width::Byte) => "stb",
            Form::StoreNumber(Width::Half) => "sth",
            Form::StoreNumber(Width::Word) => "stw",
            Form::StoreNumber(Width::Double) => "stdw",
            Form::StoreRegister(Width::Byte) => "stxb",
            Form::StoreRegister(Width::Half) => "stxh",
            Form::StoreRegister(Width::Word) => "stxw",
            Form::StoreRegister(Width::Double) => "stxdw",
            Form::Neg(OpWidth::Bits64) => "neg",
            Form::Neg(OpWidth::Bits32) => "neg32",
            Form::Mov(OpWidth::Bits64) => "mov",
            Form::Mov(OpWidth::Bits32) => "mov32",
            Form::LoadWide => "lddw",
            Form::Jump => "ja",
            Form::JumpLong => "ja32",
            Form::Call => "call",
            Form::Exit => "exit",
        }
    }

    /// The form of a word, if it is one of the table.
    #[tactic(auto, unfolding(crate::specs::Words::form_of))]
    pub(crate) fn of(word: &[u8]) -> Option<Form>
        ensures { result ≡ form_of word.now }
    {
        find_word(&FORMS, word)
    }
}

/// The first of the forms that has that word.
fn find_word(forms: &[Form], word: &[u8]) -> Option<Form>
    ensures { result ≡ find (λ f. bytes_eq (word_of f) word.now) forms.now }
{
    forms
        .iter()
        .find(|form| form.word().as_bytes() == word)
        .copied()
}

/// Every form, each once.
const FORMS: [Form; 86] = [
    Form::Alu(OpWidth::Bits64, Arithmetic::Add),
    Form::Alu(OpWidth::Bits64, Arithmetic::Sub),
    Form::Alu(OpWidth::Bits64, Arithmetic::Mul),
    Form::Alu(OpWidth::Bits64, Arithmetic::Div),
    Form::Alu(OpWidth::Bits64, Arithmetic::SignedDiv),
    Form::Alu(OpWidth::Bits64, Arithmetic::Or),
    Form::Alu(OpWidth::Bits64, Arithmetic::And),
    Form::Alu(OpWidth::Bits64, Arithmetic::Lsh),
    Form::Alu(OpWidth::Bits64, Arithmetic::Rsh),
    Form::Alu(OpWidth::Bits64, Arithmetic::Mod),
    Form::Alu(OpWidth::Bits64, Arithmetic::SignedMod),
    Form::Alu(OpWidth::Bits64, Arithmetic::Xor),
    Form::Alu(OpWidth::Bits64, Arithmetic::Arsh),
    Form::Alu(OpWidth::Bits32, Arithmetic::Add),
    Form::Alu(OpWidth::Bits32, Arithmetic::Sub),
    Form::Alu(OpWidth::Bits32, Arithmetic::Mul),
    Form::Alu(OpWidth::Bits32, Arithmetic::Div),
    Form::Alu(OpWidth::Bits32, Arithmetic::SignedDiv),
    Form::Alu(OpWidth::Bits32, Arithmetic::Or),
    Form::Alu(OpWidth::Bits32, Arithmetic::And),
    Form::Alu(OpWidth::Bits32, Arithmetic::Lsh),
    Form::Alu(OpWidth::Bits32, Arithmetic::Rsh),
    Form::Alu(OpWidth::Bits32, Arithmetic::Mod),
    Form::Alu(OpWidth::Bits32, Arithmetic::SignedMod),
    Form::Alu(OpWidth::Bits32, Arithmetic::Xor),
    Form::Alu(OpWidth::Bits32, Arithmetic::Arsh),
    Form::Neg(OpWidth::Bits64),
    Form::Neg(OpWidth::Bits32),
    Form::Mov(OpWidth::Bits64),
    Form::Mov(OpWidth::Bits32),
    Form::MovSigned(SignedMove::Byte64),
    Form::MovSigned(SignedMove::Half64),
    Form::MovSigned(SignedMove::Word64),
    Form::MovSigned(SignedMove::Byte32),
    Form::MovSigned(SignedMove::Half32),
    Form::End(ByteOrder::ToLittle, EndWidth::End16),
    Form::End(ByteOrder::ToLittle, EndWidth::End32),
    Form::End(ByteOrder::ToLittle, EndWidth::End64),
    Form::End(ByteOrder::ToBig, EndWidth::End16),
    Form::End(ByteOrder::ToBig, EndWidth::End32),
    Form::End(ByteOrder::ToBig, EndWidth::End64),
    Form::End(ByteOrder::Swap, EndWidth::End16),
    Form::End(ByteOrder::Swap, EndWidth::End32),
    Form::End(ByteOrder::Swap, EndWidth::End64),
    Form::LoadWide,
    Form::Load(Width::Byte),
    Form::Load(Width::Half),
    Form::Load(Width::Word),
    Form::Load(Width::Double),
    Form::LoadSigned(SignedWidth::Byte),
    Form::LoadSigned(SignedWidth::Half),
    Form::LoadSigned(SignedWidth::Word),
    Form::StoreNumber(Width::Byte),
    Form::StoreNumber(Width::Half),
    Form::StoreNumber(Width::Word),
    Form::StoreNumber(Width::Double),
    Form::StoreRegister(Width::Byte),
    Form::StoreRegister(Width::Half),
    Form::StoreRegister(Width::Word),
    Form::StoreRegister(Width::Double),
    Form::Jump,
    Form::JumpLong,
    Form::Branch(OpWidth::Bits64, Comparison::Equal),
    Form::Branch(OpWidth::Bits64, Comparison::Greater),
    Form::Branch(OpWidth::Bits64, Comparison::GreaterEqual),
    Form::Branch(OpWidth::Bits64, Comparison::SharesBits),
    Form::Branch(OpWidth::Bits64, Comparison::NotEqual),
    Form::Branch(OpWidth::Bits64, Comparison::SignedGreater),
    Form::Branch(OpWidth::Bits64, Comparison::SignedGreaterEqual),
    Form::Branch(OpWidth::Bits64, Comparison::Less),
    Form::Branch(OpWidth::Bits64, Comparison::LessEqual),
    Form::Branch(OpWidth::Bits64, Comparison::SignedLess),
    Form::Branch(OpWidth::Bits64, Comparison::SignedLessEqual),
    Form::Branch(OpWidth::Bits32, Comparison::Equal),
    Form::Branch(OpWidth::Bits32, Comparison::Greater),
    Form::Branch(OpWidth::Bits32, Comparison::GreaterEqual),
    Form::Branch(OpWidth::Bits32, Comparison::SharesBits),
    Form::Branch(OpWidth::Bits32, Comparison::NotEqual),
    Form::Branch(OpWidth::Bits32, Comparison::SignedGreater),
    Form::Branch(OpWidth::Bits32, Comparison::SignedGreaterEqual),
    Form::Branch(OpWidth::Bits32, Comparison::Less),
    Form::Branch(OpWidth::Bits32, Comparison::LessEqual),
    Form::Branch(OpWidth::Bits32, Comparison::SignedLess),
    Form::Branch(OpWidth::Bits32, Comparison::SignedLessEqual),
    Form::Call,
    Form::Exit,
];
