use thiserror::Error;

/// Why a scenario isn't run. It prints as number and name, as `1 Started`.
#[derive(Clone, Copy, Debug, PartialEq, Eq, Drop, Error)]
pub enum RunError {
    /// The cluster has run.
    #[error("1 Started")]
    Started,
    /// Memory for the nodes was refused.
    #[error("2 NoMemory")]
    NoMemory,
}
