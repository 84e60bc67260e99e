//! Methods with loops at random, as assembly text.

use crate::random::dice::Dice;
use std::alloc::{AllocError, Global};

/// A method begins so: registers 8 and 9 point to the input and to the output for good, as the first
/// slot of the stack does, after which is the input's length; 6 and 7 are counters.
const BEGIN: &str = ".rules 3;.method f rw 64 64;mov r8, r1;mov r9, r3;stxdw [r10-504], r1;\
stxdw [r10-496], r2;mov r6, 0;mov r7, r2;mov r0, 0";

/// A loop: what is before it, at its head, and at its end, from which it jumps back. C is its counter,
/// N a number, H the label of its head and E that after its end.
type Form = (&'static str, &'static str, &'static str);

/// Loops by a counter. Some never end.
#[rattlefmt::skip]
const COUNTERS: [Form; 16] = [
    ("mov C, 0", "jge C, N, E", "add C, 1;ja H"),
    ("mov C, 0", "jge C, N, E", "add C, 1;ja H"),
    ("mov C, 0", "ldxdw r5, [r10-496];jge C, r5, E", "add C, 1;ja H"),
    ("mov C, 0", "ldxdw r5, [r10-496];jge C, r5, E", "add C, 1;ja H"),
    ("mov C, 0", "", "add C, 1;jlt C, N, H"),
    ("mov C, 0", "", "add C, 1;jlt C, N, H"),
    ("mov C, 0", "", "add C, 1;jne C, N, H"),
    ("mov C, 0", "jgt C, N, E", "add C, 3;ja H"),
    ("mov C, N", "", "add C, -1;jsge C, 0, H"),
    ("mov C, N", "jsle C, 0, E", "sub C, 1;ja H"),
    ("mov C, 1", "", "lsh C, 1;jle C, N, H"),
    ("mov C, N", "jeq C, 0, E", "rsh C, 1;ja H"),
    ("mov C, 0", "jge32 C, N, E", "add32 C, 1;ja H"),
    ("mov C, 0", "", "add C, 1;and C, 63;ja H"),
    ("mov C, 0", "", "add C, 8;ja H"),
    ("mov C, N", "", "jset C, 1, H"),
];

/// Loops by a pointer, register 4, up to another, register 3.
#[rattlefmt::skip]
const POINTERS: [Form; 8] = [
    ("mov r4, r8;mov r3, r8;ldxdw r5, [r10-496];add r3, r5", "jge r4, r3, E", "add r4, 1;ja H"),
    ("mov r4, r8;mov r3, r8;ldxdw r5, [r10-496];add r3, r5", "jle r3, r4, E", "add r4, 1;ja H"),
    ("mov r4, r8;mov r3, r8;add r3, 63", "", "add r4, 1;jlt r4, r3, H"),
    ("mov r4, r8;mov r3, r8;add r3, 56", "jgt r4, r3, E", "add r4, 8;ja H"),
    ("mov r4, r9;mov r3, r9;add r3, N", "jge r4, r3, E", "stxb [r4+0], r0;add r4, 1;ja H"),
    ("mov r4, r9;mov r3, r9;add r3, 64", "", "stb [r4+0], 5;add r4, 8;jne r4, r3, H"),
    ("mov r4, r10;add r4, -64;mov r3, r10", "jge r4, r3, E", "stb [r4+0], 1;add r4, 1;ja H"),
    ("mov r4, r10;add r4, -64;mov r3, r10", "jeq r4, r3, E", "stdw [r4+0], 9;add r4, 8;ja H"),
];

/// Statements of any loop. S is a slot's place, I an offset, K a length and M a mask; L is a label
/// within the statement.
#[rattlefmt::skip]
const STATEMENTS: [&str; 26] = [
    "add r0, C", "add r0, 1", "xor r0, C", "mul r0, 3", "and r0, M", "lsh r0, 1;rsh r0, 1", "neg r0",
    "mov r5, C;and r5, 31;add r5, r8;ldxb r5, [r5+I];add r0, r5",
    "mov r5, r8;add r5, C;ldxb r5, [r5+0];add r0, r5",
    "mov r5, r10;add r5, C;stb [r5-K], 7", "mov r5, r10;add r5, C;stxb [r5-128], r0",
    "mov r5, r9;add r5, C;stxb [r5+0], r0",
    "stxdw [r10-S], C", "stxdw [r10-S], r0", "stxb [r10-S], C", "ldxdw r5, [r10-S];add r0, r5",
    "ldxdw r5, [r10-504];ldxb r5, [r5+I];add r0, r5", "ldxdw r5, [r10-504];stxdw [r10-S], r5",
    "jset r0, 1, L;add r0, 3;L:", "jgt r0, 250, E", "jsgt r0, N, L;mov r0, C;L:",
    "mov r5, r0;and r5, 7;stxdw [r10-S], r5;jgt r5, 3, L;ldxdw r5, [r10-S];add r5, r9;stb [r5+60], 1;L:",
    "mov r5, C;jgt r5, 40, L;mov r5, r9;add r5, C;stb [r5+23], 1;L:",
    "stxdw [r10-S], C;jge C, 60, L;ldxdw r5, [r10-S];add r5, r8;ldxw r5, [r5+0];add r0, r5;L:",
    "mov r5, r8;add r5, M;sub r5, r8;add r0, r5", "ldxsb r5, [r8+I];add r0, r5",
];

/// Those of loops by a pointer.
#[rattlefmt::skip]
const MOVES: [&str; 6] = [
    "ldxb r5, [r4+0];add r0, r5", "ldxb r5, [r4+0];xor r0, r5", "mov r5, r3;sub r5, r4;add r0, r5",
    "stxdw [r10-S], r4;ldxdw r5, [r10-S];ldxb r5, [r5+0];add r0, r5", "jeq r4, r3, L;ldxb r5, [r4+0];L:",
    "mov r5, r4;add r5, 1;jgt r5, r3, L;add r0, 1;L:",
];

/// Calls of helpers.
#[rattlefmt::skip]
const CALLS: [&str; 9] = [
    "mov r1, C;and r1, 63;call 13", "mov r1, C;call 14", "call 1", "call 15",
    "mov r1, C;mov r2, r10;add r2, -64;mov r3, K;call 3", "mov r1, C;mov r2, r8;mov r3, 2;call 3",
    "mov r1, r10;add r1, -S;mov r2, 2;mov r3, r8;mov r4, 3;call 10", "call 5",
    "mov r1, 0;mov r2, r10;add r2, -64;mov r3, 8;call 2",
];

const NUMBERS: [&str; 14] = [
    "0", "1", "2", "2", "3", "3", "4", "5", "8", "12", "16", "31", "63", "200",
];

const MASKS: [&str; 6] = ["1", "7", "31", "63", "255", "65535"];

/// A method in the making.
#[derive(Drop)]
struct Draft<'a> {
    dice: &'a mut Dice,
    text: String,
    /// The labels so far.
    labels: u64,
}

/// The loop in which lines stand: its counter, and the number of its labels.
#[derive(Clone, Copy)]
struct Within {
    counter: u64,
    number: u64,
}

impl<'a> Draft<'a> {
    fn label(&mut self) -> u64 {
        self.labels = self.labels.saturating_add(1);
        self.labels
    }

    /// Puts lines, with a choice for each letter.
    fn put(&mut self, lines: &str, within: Within) -> Result<(), AllocError> {
        if lines.is_empty() {
            return Ok(());
        }
        let label = if lines.contains('L') { self.label() } else { 0 };
        let slot = 8 + 8 * self.dice.below(9);
        for letter in lines.chars() {
            match letter {
                'C' => write!(self.text, "r{}", within.counter)?,
                'H' => write!(self.text, "h{}", within.number)?,
                'E' => write!(self.text, "e{}", within.number)?,
                'L' => write!(self.text, "l{label}")?,
                'S' => write!(self.text, "{slot}")?,
                'I' => write!(self.text, "{}", self.dice.below(34))?,
                'K' => write!(self.text, "{}", 1 + self.dice.below(64))?,
                'N' => {
                    let number = self.dice.word(&NUMBERS);
                    self.text.push_str(number)?
                }
                'M' => {
                    let mask = self.dice.word(&MASKS);
                    self.text.push_str(mask)?
                }
                ';' => self.text.push('\n')?,
                _ => self.text.push(letter)?,
            }
        }
        self.text.push('\n')
    }

    /// Puts some statements of a loop. Of `calls` of them one is a call of a helper; none if that is 0.
    fn body(&mut self, within: Within, is_by_pointer: bool, calls: u64) -> Result<(), AllocError> {
        for _ in 0..self.dice.below(5) {
            let line = if calls != 0 && self.dice.is_one_in(calls) {
                self.dice.word(&CALLS)
            } else if is_by_pointer && self.dice.is_one_in(2) {
                self.dice.word(&MOVES)
            } else {
                self.dice.word(&STATEMENTS)
            };
            self.put(line, within)?;
        }
        Ok(())
    }

    /// Begins a loop of a form.
    fn begin(&mut self, form: Form, within: Within) -> Result<(), AllocError> {
        let (before, at_head, _) = form;
        self.put(before, within)?;
        write!(self.text, "h{}:\n", within.number)?;
        self.put(at_head, within)
    }

    /// Ends it.
    fn end(&mut self, form: Form, within: Within) -> Result<(), AllocError> {
        let (_, _, at_end) = form;
        self.put(at_end, within)?;
        write!(self.text, "e{}:\n", within.number)
    }

    /// A new loop by a counter, and its form.
    fn counted(&mut self, counter: u64) -> (Form, Within) {
        let n = self.dice.below(COUNTERS.len() as u64) as usize;
        let form = COUNTERS.get(n).copied().unwrap_or(("", "", ""));
        let number = self.label();
        (form, Within { counter, number })
    }

    /// Puts a loop by a pointer, in which no helper is called.
    fn by_pointer(&mut self) -> Result<(), AllocError> {
        let n = self.dice.below(POINTERS.len() as u64) as usize;
        let form = POINTERS.get(n).copied().unwrap_or(("", "", ""));
        let number = self.label();
        let within = Within { counter: 6, number };
        self.begin(form, within)?;
        self.body(within, true, 0)?;
        self.end(form, within)
    }

    /// Puts a loop by a counter, with another one in it at times.
    fn by_counter(&mut self, calls: u64) -> Result<(), AllocError> {
        let (form, within) = self.counted(6);
        self.begin(form, within)?;
        self.body(within, false, calls)?;
        if self.dice.is_one_in(4) {
            let (inner, inside) = self.counted(7);
            self.begin(inner, inside)?;
            self.body(inside, false, calls)?;
            self.end(inner, inside)?;
            self.body(within, false, calls)?;
        }
        self.end(form, within)
    }

    /// Puts one or two loops, and an exit.
    fn write(&mut self) -> Result<(), AllocError> {
        let none = Within {
            counter: 6,
            number: 0,
        };
        self.put(BEGIN, none)?;
        for _ in 0..1 + self.dice.below(2) {
            let calls = if self.dice.is_one_in(2) { 3 } else { 0 };
            if self.dice.is_one_in(3) {
                self.by_pointer()?;
            } else {
                self.by_counter(calls)?;
            }
        }
        if self.dice.is_one_in(2) {
            self.put("mov r6, r0;mov r1, K;call 13;mov r0, r6;and r0, 4095", none)?;
        }
        self.put("exit", none)
    }
}

/// The text of a class with one method `f`, which has one to four loops.
pub fn random_class(alloc: Global, dice: &mut Dice) -> Result<String, AllocError> {
    let mut draft = Draft {
        dice,
        text: String::new(alloc),
        labels: 0,
    };
    draft.write()?;
    Ok(draft.text)
}
