//! Methods of rule set 3 at random, as assembly text.

use crate::dice::Dice;
use std::alloc::{AllocError, Global};

/// A method begins so: registers 6 and 7 are always numbers, 8 and 9 point to the input and to the
/// output, as do the first slots of the stack.
const BEGIN: &str = "\
.rules 3;.method f rw 64 64;mov r8, r1;mov r9, r3;mov r6, r2;ldxdw r7, [r1+0];
stxdw [r10-504], r1;stxdw [r10-496], r3;mov r0, 0";

/// Then registers 0, 2, 6 and 7 are numbers.
const AT_BEGIN: u64 = 0b1100_0101;

/// Statements, each as often as it stands here. X and Y are registers that are numbers, D becomes a
/// number, P another value; I, S and B are offsets, L is a label to come, and `Draft::put` has the
/// other letters.
#[rattlefmt::skip]
const STATEMENTS: [&str; 56] = [
    "ldxW D, [r8+I]", "ldxW D, [r8+I]", "ldxW D, [r8+I]", "ldxdw D, [r8+I]",
    "ldxdw D, [r10-S]", "ldxdw D, [r10-S]", "ldxdw D, [r10-S]", "ldxW D, [r10-B]",
    "stxdw [r10-S], X", "stxdw [r10-S], X", "stxdw [r10-S], X", "stxdw [r10-S], X",
    "stxV [r10-B], X", "stV [r10-B], N", "stdw [r10-S], N", "stxV [r9+I], X",
    "mov D, X", "mov D, X", "mov D, X", "mov D, X", "mov32 D, X", "mov32 D, X", "movsx32 D, X", "C D, X",
    "mov D, N", "lddw D, A", "add X, N", "sub X, N", "and X, M", "and X, M",
    "and32 X, -2147483648", "lddw D, 2147483648;and X, D", "lsh X, 32", "rsh X, 32",
    "lsh X, 32;rsh X, 32", "lsh X, 32;arsh X, 32", "OH X, N", "OH X, Y", "E X",
    "JH X, N, L", "JH X, N, L", "JH X, N, L", "JH X, N, L", "JH X, N, L", "JH X, N, L", "JH X, Y, L", "JH X, Y, L",
    "mov P, r7;and P, 63;add P, r10;stb [P-72], 5", "mov P, X;and P, 31;add P, r8;ldxh r7, [P+3]",
    "mov r7, X;jgt r7, 48, L;mov P, r8;add P, r7;ldxdw r7, [P+8]",
    "ldxdw P, [r10-504];ldxw r7, [P+4]", "ldxdw P, [r10-496];stxb [P+9], r6",
    "", "", "", "",
];

/// Lines of any registers, most of which are refused.
const BREAKS: [&str; 4] = [
    "mov D, rR",
    "ldxdw D, [rR-8]",
    "stxb [r10-500], X",
    "add rR, r8",
];

/// Helpers by their ids: a letter for a number, a length of the output, and a range that is read or
/// written.
#[rattlefmt::skip]
const CALLS: [(u64, &str); 18] = [
    (1, ""), (2, "nw"), (3, "nr"), (4, "n"), (5, ""), (6, "rw"), (7, "rr"), (8, "r"), (9, "rw"),
    (10, "rr"), (11, "r"), (12, "rw"), (13, "o"), (14, "n"), (15, ""), (16, "rr"), (17, "wr"), (18, "rw"),
];

/// Pointers and lengths in register R, of numbers Z that outlast other arguments.
#[rattlefmt::skip]
const POINTERS: [&str; 6] = [
    "mov rR, r10;add rR, -64", "mov rR, r10;add rR, -64", "mov rR, r10;add rR, -B",
    "mov rR, r9;add rR, 8", "mov rR, r8", "mov rR, r8;add rR, 8",
];

#[rattlefmt::skip]
const LENGTHS: [&str; 8] = [
    "mov rR, 1", "mov rR, 1", "mov rR, 2", "mov rR, 2", "mov rR, K", "mov rR, K", "mov rR, Z;and rR, 31", "mov rR, Z",
];

#[rattlefmt::skip]
const NUMBERS: [&str; 20] = [
    "0", "1", "-1", "2", "4", "7", "8", "15", "16", "31", "63", "127", "128", "255", "-8", "-128",
    "65535", "2147483647", "-2147483648", "-2147483647",
];

#[rattlefmt::skip]
const OPERATIONS: [&str; 13] = [
    "add", "sub", "mul", "div", "or", "and", "lsh", "rsh", "mod", "xor", "arsh", "sdiv", "smod",
];

#[rattlefmt::skip]
const JUMPS: [&str; 11] = ["jeq", "jgt", "jge", "jset", "jne", "jsgt", "jsge", "jlt", "jle", "jslt", "jsle"];

const MASKS: [&str; 8] = ["0", "1", "7", "31", "255", "65535", "2147483647", "-1"];

const CHANGES: [&str; 6] = ["neg", "neg32", "le16", "be32", "le64", "bswap64"];

const COPIES: [&str; 4] = ["movsx8", "movsx16", "movsx8_32", "movsx16_32"];

const LOADS: [&str; 7] = ["b", "h", "w", "dw", "sb", "sh", "sw"];

const STORES: [&str; 4] = ["b", "h", "w", "dw"];

/// A label to come: the statements after which it stands, and the registers that are numbers where
/// its jump is.
#[derive(Clone, Copy)]
struct Label {
    after: u64,
    numbers: u64,
}

/// A method in the making.
#[derive(Drop)]
struct Draft<'a> {
    dice: &'a mut Dice,
    text: String,
    /// A bit for each register that is a number at the next line.
    numbers: u64,
    labels: Vec<Label>,
    /// The statements so far.
    count: u64,
    /// Of so many statements one more is a call of a helper; 0 for none.
    calls: u64,
}

/// A register's bit.
fn bit(register: u64) -> u64 {
    1u64 << (register % 64)
}

impl<'a> Draft<'a> {
    /// A register that is a number.
    fn number(&mut self) -> u64 {
        let first = self.dice.below(8);
        for n in 0..8u64 {
            let register = (first + n) % 8;
            if self.numbers & bit(register) != 0 {
                return register;
            }
        }
        6
    }

    /// The number of a new label, which is to stand some statements on.
    fn label(&mut self) -> Result<usize, AllocError> {
        let after = self.count.saturating_add(1 + self.dice.below(4));
        self.labels.push(Label {
            after,
            numbers: self.numbers,
        })?;
        Ok(self.labels.len())
    }

    /// Puts the labels that stand here, or, from here on, all.
    fn put_labels(&mut self, is_end: bool) -> Result<(), AllocError> {
        for (n, label) in self.labels.iter().enumerate() {
            if label.after == self.count || is_end && label.after > self.count {
                write!(self.text, "l{}:\n", n.saturating_add(1))?;
                self.numbers &= label.numbers;
            }
        }
        Ok(())
    }

    /// Puts lines, with `register` for R and a choice for each other letter.
    fn put(&mut self, lines: &str, register: u64) -> Result<(), AllocError> {
        let (x, y, d, p) = (
            self.number(),
            self.number(),
            self.dice.below(8),
            self.dice.below(6),
        );
        for letter in lines.chars() {
            match letter {
                'X' => write!(self.text, "r{x}")?,
                'Y' => write!(self.text, "r{y}")?,
                'D' => write!(self.text, "r{d}")?,
                'P' => write!(self.text, "r{p}")?,
                'R' => write!(self.text, "{register}")?,
                'Z' => write!(self.text, "r{}", 6 + self.dice.below(2))?,
                'L' => {
                    let label = self.label()?;
                    write!(self.text, "l{label}")?
                }
                'I' | 'K' => write!(self.text, "{}", self.dice.below(57))?,
                'B' => write!(self.text, "{}", 8 + self.dice.below(57))?,
                'S' => write!(self.text, "{}", 8 + 8 * self.dice.below(8))?,
                'A' => write!(self.text, "{}", self.dice.number())?,
                ';' => self.text.push('\n')?,
                'A'..='Z' => {
                    let word = self.word(letter);
                    self.text.push_str(word)?
                }
                _ => self.text.push(letter)?,
            }
        }
        if lines.contains('D') {
            self.numbers |= bit(d);
        }
        if lines.contains('P') {
            self.numbers &= u64::MAX ^ bit(p);
        }
        self.text.push('\n')
    }

    /// A word for a letter.
    fn word(&mut self, letter: char) -> &'static str {
        let words: &[&'static str] = match letter {
            'N' => &NUMBERS,
            'M' => &MASKS,
            'O' => &OPERATIONS,
            'J' => &JUMPS,
            'E' => &CHANGES,
            'C' => &COPIES,
            'W' => &LOADS,
            'V' => &STORES,
            _ => &["", "32"],
        };
        self.dice.word(words)
    }

    /// A call of a helper.
    fn call(&mut self) -> Result<(), AllocError> {
        let n = self.dice.below(CALLS.len() as u64) as usize;
        let (id, arguments) = CALLS.get(n).copied().unwrap_or((1, ""));
        let mut register = 1u64;
        for argument in arguments.chars() {
            match argument {
                'n' => self.put("mov rR, Z", register)?,
                'o' => self.put("mov rR, K", register)?,
                _ => {
                    let pointers = if argument == 'r' { 6 } else { 4 };
                    let pointer = self.dice.word(&POINTERS[..pointers]);
                    self.put(pointer, register)?;
                    register = register.saturating_add(1);
                    let length = self.dice.word(&LENGTHS);
                    self.put(length, register)?;
                }
            }
            register = register.saturating_add(1);
        }
        self.numbers = self.numbers & (u64::MAX ^ 0x3f) | 1;
        write!(self.text, "call {id}\n")
    }

    /// Puts statements up to a count, and an exit.
    fn write(&mut self, count: u64) -> Result<(), AllocError> {
        self.put(BEGIN, 0)?;
        for n in 0..count {
            self.count = n;
            self.put_labels(false)?;
            let statement = self.dice.word(&STATEMENTS);
            if self.dice.is_one_in(120) {
                let (line, register) = (self.dice.word(&BREAKS), self.dice.below(11));
                self.put(line, register)?;
            } else if self.dice.is_one_in(100) {
                self.put("ja L", 0)?;
                self.numbers = u64::MAX;
            } else if statement == "" || self.calls != 0 && self.dice.is_one_in(self.calls) {
                self.call()?;
            } else {
                self.put(statement, 0)?;
            }
        }
        self.count = count;
        self.put_labels(true)?;
        if self.numbers & 1 == 0 {
            self.put("mov r0, r6", 0)?;
        }
        self.put("exit", 0)
    }
}

/// The text of a class with one method `f`. Of `calls` of its statements one more is a call of a
/// helper; none if that is 0.
pub fn random_class(alloc: Global, dice: &mut Dice, calls: u64) -> Result<String, AllocError> {
    let count = 5 + dice.below(20);
    let mut draft = Draft {
        dice,
        text: String::new(alloc),
        numbers: AT_BEGIN,
        labels: Vec::new(alloc),
        count: 0,
        calls,
    };
    draft.write(count)?;
    Ok(draft.text)
}
