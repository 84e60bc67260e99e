//! A line of a class's text: its statement or its least fault, by the grammar's functions, and the
//! one text of instructions and of methods. Labels, methods and whole texts are `bpf_asm`'s, which
//! hands on all that a user needs.
#![tactic(auto)]

mod draft;
mod fault;
mod flag_words;
mod form;
mod header;
mod number;
mod operand;
mod print;
mod statement;
mod target;
mod text;

pub use draft::Draft;
pub use fault::{AsmError, AsmFault};
pub use flag_words::flags;
pub use form::Form;
pub use header::Header;
pub use number::{Number, integer};
pub use operand::unsigned;
pub use print::{
    class_text, class_with_slots, insns_text, push_at_slot, push_directive, push_insn, rules_line,
};
pub use statement::{Statement, lines, read_line, statements};
pub use target::{Name, Target};
pub use text::{after_word, content, first_word, trim_start};
