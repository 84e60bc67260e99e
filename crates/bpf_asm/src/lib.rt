//! The assembly language of methods and classes: exactly the texts of the grammar are read, and
//! each class has one canonical text.
#![tactic(auto)]

mod assembler;
mod body;
mod class_reader;
mod disassembler;
mod labels;
mod laws;

pub use asm_lines::{AsmError, AsmFault};
pub use assembler::assemble;
pub use body::{has_instruction, line_slots};
pub use class_reader::{assemble_class, assemble_lines};
pub use disassembler::{disassemble, disassemble_class, disassemble_with_slots};
pub use laws::{one_class_text, one_reading, one_slot_text, one_text};
