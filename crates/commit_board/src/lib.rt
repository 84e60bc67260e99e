//! The board on which committed requests are posted. Each row is a word, which has one writer, and
//! anybody may look; nobody waits. The writer has the row's list of requests, and the word is its
//! length. Every list that a token knows of a row is a beginning of the writer's list, in any
//! schedule of any number of threads; `compare` says so of a writer and a token that meet. Lists
//! exist in the proofs alone.
#![tactic(auto)]

mod board;
mod crossing;
mod steps;
mod tokens;
mod view;

pub use board::Board;
pub use crossing::board_crosses;
pub use pg_log::NoMemory;
pub use tokens::{Note, Seen, Writer};
