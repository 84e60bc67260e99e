//! Lines as C, LLVM and other assemblers have them, and what is written in their place.

use crate::forms::is_among;
use crate::number::{plain, register};
use escaped_text::push_escaped;
use std::alloc::AllocError;

/// First words that are none, and what is written in their place.
#[rattlefmt::skip]
const INSTEAD: [(&str, &str); 8] = [
    ("goto jmp b br", "`ja end`"),
    ("if", "a jump as `jeq r2, 15, end`"),
    ("ret return", "`exit`, after `mov r0, 0`"),
    ("ld ldx ldr load", "`ldxdw r0, [r1+0]`"),
    ("st stx str store push", "`stxdw [r10-8], r1`"),
    ("r0 r1 r2 r3 r4 r5 r6 r7 r8 r9 r10", "a word first, as `mov r0, 0` or `add r0, r1`"),
    ("# // /*", "a comment after `;`"),
    (".text .global .globl .section .func fn", "`.method name rw 8 8` before a method's code"),
];

/// Signs of assignments, the longer ones first, and the words of the same.
#[rattlefmt::skip]
const ASSIGNMENTS: [(&str, &str); 12] = [
    ("s>>=", "arsh"), ("<<=", "lsh"), (">>=", "rsh"), ("+=", "add"), ("-=", "sub"), ("*=", "mul"), ("/=", "div"),
    ("%=", "mod"), ("|=", "or"), ("&=", "and"), ("^=", "xor"), ("=", "mov"),
];

/// Signs of comparisons, the longer ones first, and the words of the same.
#[rattlefmt::skip]
const COMPARISONS: [(&str, &str); 11] = [
    ("s>=", "jsge"), ("s<=", "jsle"), ("s>", "jsgt"), ("s<", "jslt"), ("==", "jeq"), ("!=", "jne"), (">=", "jge"),
    ("<=", "jle"), (">", "jgt"), ("<", "jlt"), ("&", "jset"),
];

/// The ends of the words of loads and stores, by C's types.
#[rattlefmt::skip]
const TYPES: [(&str, &str); 14] = [
    ("u8", "b"), ("u16", "h"), ("u32", "w"), ("u64", "dw"), ("s8", "sb"), ("s16", "sh"), ("s32", "sw"),
    ("uint8_t", "b"), ("uint16_t", "h"), ("uint32_t", "w"), ("uint64_t", "dw"), ("char", "b"), ("__u32", "w"),
    ("__u64", "dw"),
];

/// A part of a line in the words of the language.
#[derive(Clone, Copy)]
enum Piece<'a> {
    Nothing,
    Word(&'a str),
    /// The number of a register of which the low 32 bits are meant.
    Low(&'a str),
    /// A place in memory, without its brackets.
    Place(&'a str),
}

/// A line in the words of the language: its word, how that ends, and the operands.
#[derive(Clone, Copy)]
struct Meant<'a> {
    word: &'static str,
    end: &'static str,
    first: Piece<'a>,
    second: Piece<'a>,
    third: Piece<'a>,
}

/// A register or a number, and how a word ends that takes it.
fn piece_of(text: &str) -> Option<(Piece<'_>, &'static str)> {
    if register(text.as_bytes()).is_none() || is_number(text) {
        return Some((Piece::Word(text), ""));
    }
    let number = text.strip_prefix("w")?;
    match plain(number.as_bytes(), 0, 10) {
        None => Some((Piece::Low(number), "32")),
        Some(_) => None,
    }
}

/// True if it is a number of 32 bits.
fn is_number(text: &str) -> bool {
    plain(text.as_bytes(), 2147483648, 2147483647).is_none()
}

/// What stands for a text in a table.
fn found(rows: &[(&'static str, &'static str)], text: &str) -> Option<&'static str> {
    for (key, value) in rows {
        if *key == text {
            return Some(*value);
        }
    }
    None
}

/// The word of the first sign of a table that a text has, and what stands on both sides.
fn cut<'a>(
    rows: &[(&'static str, &'static str)],
    text: &'a str,
) -> Option<(&'static str, &'a str, &'a str)> {
    for (sign, word) in rows {
        if let Some((left, right)) = text.split_once(*sign) {
            return Some((*word, left, right));
        }
    }
    None
}

/// Two operands with a sign of a table between them, and a third one after them.
fn with_sign<'a>(
    rows: &[(&'static str, &'static str)],
    text: &'a str,
    third: Piece<'a>,
) -> Option<Meant<'a>> {
    let (word, left, right) = cut(rows, text)?;
    let (first, end) = piece_of(left)?;
    let (second, _) = piece_of(right)?;
    Some(Meant {
        word,
        end,
        first,
        second,
        third,
    })
}

/// An assignment, as `r0=1`.
fn assignment(line: &str) -> Option<Meant<'_>> {
    with_sign(&ASSIGNMENTS, line, Piece::Nothing)
}

/// A load, as `r0=*(u32*)(r1+4)`.
fn load(line: &str) -> Option<Meant<'_>> {
    let (left, right) = line.split_once("=*(")?;
    let (kind, rest) = right.split_once("*)(")?;
    let (first, _) = piece_of(left)?;
    let second = Piece::Place(rest.strip_suffix(")")?);
    Some(Meant {
        word: "ldx",
        end: found(&TYPES, kind)?,
        first,
        second,
        third: Piece::Nothing,
    })
}

/// A store, as `*(u32*)(r1+4)=r0`.
fn store(line: &str) -> Option<Meant<'_>> {
    let (kind, rest) = line.strip_prefix("*(")?.split_once("*)(")?;
    let (place, value) = rest.split_once(")=")?;
    let (second, _) = piece_of(value)?;
    let word = if is_number(value) { "st" } else { "stx" };
    let end = found(&TYPES, kind)?;
    let end = end.strip_prefix("s").unwrap_or(end);
    Some(Meant {
        word,
        end,
        first: Piece::Place(place),
        second,
        third: Piece::Nothing,
    })
}

/// A jump, as `ifr1>5gotoend` or `gotoend`.
fn jump(line: &str) -> Option<Meant<'_>> {
    if let Some(target) = line.strip_prefix("goto") {
        let (first, second, third) = (Piece::Word(target), Piece::Nothing, Piece::Nothing);
        return Some(Meant {
            word: "ja",
            end: "",
            first,
            second,
            third,
        });
    }
    let (condition, target) = line.strip_prefix("if")?.split_once("goto")?;
    with_sign(&COMPARISONS, condition, Piece::Word(target))
}

/// What a line without blanks means.
fn meaning(line: &str) -> Option<Meant<'_>> {
    if let Some(meant) = jump(line) {
        return Some(meant);
    }
    if let Some(meant) = store(line) {
        return Some(meant);
    }
    if let Some(meant) = load(line) {
        return Some(meant);
    }
    assignment(line)
}

/// Adds a part, with a text before it.
fn push_piece(out: &mut String, before: &str, piece: Piece<'_>) -> Result<(), AllocError> {
    let (open, text, close) = match piece {
        Piece::Nothing => return Ok(()),
        Piece::Word(text) => ("", text, ""),
        Piece::Low(text) => ("r", text, ""),
        Piece::Place(text) => ("[", text, "]"),
    };
    out.push_str(before)?;
    out.push_str(open)?;
    push_escaped(out, text)?;
    out.push_str(close)
}

/// Adds a line in the words of the language.
fn push_meant(out: &mut String, meant: Meant<'_>) -> Result<(), AllocError> {
    write!(out, "  write `{}{}", meant.word, meant.end)?;
    push_piece(out, " ", meant.first)?;
    push_piece(out, ", ", meant.second)?;
    push_piece(out, ", ", meant.third)?;
    out.push_str("`\n")
}

/// Adds what a line means that has another language's form, or what is written in place of its
/// first word: true if it has one. `tight` is the line without blanks.
pub(crate) fn push_instead(out: &mut String, word: &str, tight: &str) -> Result<bool, AllocError> {
    if let Some(meant) = meaning(tight) {
        push_meant(out, meant)?;
        return Ok(true);
    }
    for (words, what) in &INSTEAD {
        if is_among(words, word) {
            write!(out, "  write {what}\n")?;
            return Ok(true);
        }
    }
    Ok(false)
}
