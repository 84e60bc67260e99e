//! Class images and their instructions.
//!
//! `check` and `decode` read exactly the code of this profile of RFC 9669, and `read_image` exactly
//! the class images; `encode` and `write_image` give the one spelling of each. Each refusal is the
//! first in reading order and comes exactly under its condition; a `ClassImage` is always a class.
//! The grammars are specs/Instruction and specs/Class; specs/Table, Reading and ImageReading read
//! them from left to right.
#![tactic(auto)]

mod access;
pub mod arithmetic;
mod class_image;
mod code;
mod decode_error;
mod image;
mod image_error;
mod insn;
mod jump;
mod laws;
mod limits;
mod method;
mod operation;
mod region;
mod register;
mod row;
mod rule_set;
mod slot;
mod value;

pub use access::{SignedWidth, Width};
pub use class_image::ClassImage;
pub use code::{check, decode, encode};
pub use decode_error::DecodeError;
pub use image::{name_text, read_image, write_image};
pub use image_error::ImageError;
pub use insn::{Insn, Operand, width};
pub use jump::jump_target;
pub use laws::{beginning, every_row, one_class, one_spelling, round_trip};
pub use limits::{
    CAPACITY_LIMIT, IMAGE_LIMIT, METHOD_LIMIT, NAME_LIMIT, NARROW_CAPACITY_LIMIT, SLOT_LIMIT,
    are_name_bytes, capacity_limit, is_method_name,
};
pub use method::Method;
pub use operation::{Arithmetic, ByteOrder, Comparison, EndWidth, OpWidth, SignedMove};
pub use region::Region;
pub use register::Register;
pub use rule_set::RuleSet;
pub use slot::Slot;
pub use value::Value;
