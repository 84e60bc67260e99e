//! How a run of the program ends.

ghost use Rattle.std.specs.Prelude.{◌≡◌};
ghost use Rattle.radoscls_program.specs.Status.{code_of};

/// The end of a run of the program.
#[derive(Clone, Copy, PartialEq, Eq)]
pub enum ExitStatus {
    /// The task was done, and its answer printed.
    Done,
    /// It was refused, or the answer could not be printed.
    Refused,
    /// The command line asks for nothing that the program does, or for help.
    Usage,
}

/// How an action ended.
#[derive(Clone, Copy)]
pub(crate) struct ActionEnd {
    pub(crate) status: ExitStatus,
    /// True if it was done, and its answer could not be printed.
    pub(crate) is_unprinted: bool,
}

impl ExitStatus {
    /// The number that the process ends with: 0, 1 or 2.
    pub fn code(self) -> u8
        ensures { result ≡ code_of self }
    {
        match self {
            ExitStatus::Done => 0,
            ExitStatus::Refused => 1,
            ExitStatus::Usage => 2,
        }
    }
}
