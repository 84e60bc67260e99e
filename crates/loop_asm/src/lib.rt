//! The assembly language of classes whose methods may loop: in rule set 3, the lines `.budget` and
//! `.head` say what a method declares of its loops.
//!
//! specs/Reading says which lines these are and where they stand; the other lines are `bpf_asm`'s, and
//! a refusal names the first line that has a fault. specs/Canonical is the one text of each class.
#![tactic(auto)]

mod class;
mod laws;
mod line;
mod method;
mod print;
mod whole;

pub use laws::one_class_text;
pub use line::other_statements;
pub use print::{disassemble_class, disassemble_with_slots};
pub use whole::assemble_class;
