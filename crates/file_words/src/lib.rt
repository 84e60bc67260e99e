//! The words of a line of a file of commands, and the kinds of words: a number, an identifier, a
//! class's name, an object's name, bytes in hexadecimal, a list of nodes. `radoscls sim` and
//! `radoscls cluster` read their files by it. The rules are `specs/Words.antt`; each call's result
//! is pinned by them, and it fails only if memory is refused.
#![tactic(auto)]

mod bytes;
mod names;
mod nodes;
mod number;
mod text;

pub use bytes::{Bytes, bytes_in};
pub use names::{NO_CLASS, class_of, object_in};
pub use nodes::{Nodes, nodes_in};
pub use number::{id_in, number_in};
pub use text::{ended_lines, lines, words};
