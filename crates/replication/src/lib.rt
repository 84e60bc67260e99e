//! The messages of a group's nodes about their logs: a request at its place (`Rep`), the length of
//! a member's log (`Ack`), and a list without a beginning that the receiver has (`PackedLog`).
//! `append_at` puts a request at its place and nowhere else, `commit_point` is the number of
//! entries that all members have, and a list that was packed and unpacked is the same list if the
//! receiver's own has the left-out beginning.
#![tactic(auto)]

mod ack;
mod committed;
mod laws;
mod packed_log;
mod placed;
mod rep;
mod unpack_error;

pub use ack::Ack;
pub use committed::commit_point;
pub use laws::packed_lists;
pub use packed_log::{PackedLog, pack_list, pack_log, unpack_log};
pub use placed::append_at;
pub use rep::Rep;
pub use unpack_error::UnpackError;
