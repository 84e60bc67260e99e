//! A node's log as it is reported, and why it isn't.

use thiserror::Error;

/// An entry of a node's log.
#[derive(Clone, Copy, Debug, PartialEq, Eq)]
pub struct LoggedEntry {
    /// The client of its request.
    pub client: u32,
    /// The request's number.
    pub number: u32,
    /// The code of the call's answer; a negative one is an error.
    pub code: i64,
}

/// Why a node's log isn't reported. It prints as number and name, as `1 NoSuch`.
#[derive(Clone, Copy, Debug, PartialEq, Eq, Error)]
pub enum LoggedError {
    /// There is no such node, or no such group.
    #[error("1 NoSuch")]
    NoSuch,
    /// Memory was refused.
    #[error("2 NoMemory")]
    NoMemory,
}
