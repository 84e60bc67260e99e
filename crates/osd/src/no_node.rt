use thiserror::Error;

/// No node has that number. It prints as number and name.
#[derive(Clone, Copy, Debug, PartialEq, Eq, Error)]
#[error("1 NoNode")]
pub struct NoNode;
