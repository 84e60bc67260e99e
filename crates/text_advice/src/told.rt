//! The notes on the wrong lines of a text.

use crate::lines::{Above, Found, Lines, Place};
use crate::place::push_place;
use crate::source::push_line;
use crate::word::{cut_word, push_words};
use asm_lines::{AsmError, AsmFault, Statement};
use std::alloc::{AllocError, Global};

/// The most lines of a text that are explained.
const MOST: usize = 100;

/// A text of which lines are explained.
#[derive(Clone, Copy)]
struct Told<'a, 'b> {
    alloc: Global,
    lines: &'b Lines<'a>,
    /// The first wrong line.
    error: AsmError,
    /// How many lines are explained.
    most: usize,
}

/// What a line with that fault must have.
#[rattlefmt::skip]
fn wanted(fault: AsmFault) -> &'static str {
    match fault {
        AsmFault::Word =>
            "  wanted: first an instruction's word, or a label `name:`, `.method` or `.rules`\n  see docs/ASSEMBLY.md, \
                1 Word\n",
        AsmFault::Operand => "  wanted: the operands of the word, in its form\n  see docs/ASSEMBLY.md, 2 Operand\n",
        AsmFault::Range =>
            "  wanted: a number within its field, 1 to 4096 slots in a method, 1 to 32 methods\n  see \
                docs/ASSEMBLY.md, 3 Range\n",
        AsmFault::Label =>
            "  wanted: each label once in its method, and the methods in the order of their names\n  see \
                docs/ASSEMBLY.md, 4 Label\n",
        AsmFault::NoMemory => "",
    }
}

/// What can't be seen at a line's end or beginning, if that is wrong.
#[rattlefmt::skip]
fn unseen(line: &str, code: &str) -> Option<&'static str> {
    if code.ends_with('\r') {
        return Some("  the line ends with CR LF: end each line with LF alone\n");
    }
    if line.starts_with('\u{feff}') {
        return Some("  the text begins with a byte order mark: leave it out\n");
    }
    None
}

impl<'a, 'b> Told<'a, 'b> {
    /// The fault of a line, and why it is there. The first wrong line's fault is known.
    fn fault_at(self, above: Above<'b>, index: usize, line: &'b Statement<'a>) -> Found<'b> {
        if index.saturating_add(1) != self.error.line {
            return self.lines.fault_at(above, index, line);
        }
        if !self.lines.has_instruction() {
            return Some((self.error.fault, Place::BareText));
        }
        match (self.lines.fault_at(above, index, line), line) {
            (Some((fault, place)), _) if fault == self.error.fault => Some((fault, place)),
            (_, Statement::Empty) => Some((self.error.fault, Place::Loops)),
            _ => Some((self.error.fault, Place::Itself)),
        }
    }

    /// Adds what is wrong with the line of an index.
    fn push_why(self, out: &mut String, line: &str, place: Place<'_>) -> Result<(), AllocError> {
        let code = line.split(';').next().unwrap_or("");
        if let Some(what) = unseen(line, code) {
            return out.push_str(what);
        }
        match place {
            Place::Itself => {
                let (word, _) = cut_word(code);
                push_words(
                    self.alloc,
                    out,
                    code,
                    self.lines.is_gone_to(word.as_bytes()),
                )
            }
            _ => push_place(out, place),
        }
    }

    /// Adds the note on the line of an index.
    fn push_note(
        self,
        out: &mut String,
        index: usize,
        fault: AsmFault,
        place: Place<'_>,
    ) -> Result<(), AllocError> {
        let number = index.saturating_add(1);
        let line = *self.lines.texts.get(index).unwrap_or(&"");
        if number != self.error.line {
            write!(out, "line {number}: {fault}\n")?;
        }
        push_line(out, number, line)?;
        self.push_why(out, line, place)?;
        out.push_str(wanted(fault))
    }

    /// Adds the notes on the wrong lines from the first one on.
    fn push_notes(self, out: &mut String) -> Result<(), AllocError> {
        let (mut above, mut count) = (Above::nothing(), 0);
        for (index, line) in self.lines.statements.iter().enumerate() {
            if self.most <= count {
                break;
            }
            if self.error.line <= index.saturating_add(1) {
                if let Some((fault, place)) = self.fault_at(above, index, line) {
                    self.push_note(out, index, fault, place)?;
                    count += 1;
                }
            }
            above = above.below(index, line);
        }
        Ok(())
    }
}

/// Adds the notes on so many wrong lines of a text.
fn push_text(
    alloc: Global,
    out: &mut String,
    text: &str,
    error: AsmError,
    most: usize,
) -> Result<(), AllocError> {
    let lines = Lines::read(alloc, text)?;
    let told = Told {
        alloc,
        lines: &lines,
        error,
        most,
    };
    told.push_notes(out)
}

/// The notes on so many wrong lines of a text; nothing if memory was refused.
fn notes(alloc: Global, text: &str, error: &AsmError, most: usize) -> Result<String, AllocError> {
    let mut out = String::new(alloc);
    match error.fault {
        AsmFault::NoMemory => {}
        _ => push_text(alloc, &mut out, text, *error, most)?,
    }
    Ok(out)
}

/// The note on the line of a text that is refused: the line, what is wrong there, what is written
/// in its place, and what is wanted; nothing if memory was refused.
pub fn fault_text(alloc: Global, text: &str, error: &AsmError) -> Result<String, AllocError> {
    notes(alloc, text, error, 1)
}

/// The same note, and below it of each further wrong line its number and fault, and its note; of
/// at most 100 lines.
pub fn faults_text(alloc: Global, text: &str, error: &AsmError) -> Result<String, AllocError> {
    notes(alloc, text, error, MOST)
}
