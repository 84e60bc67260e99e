ghost use Rattle.std.specs.Prelude.{◌≡◌};
ghost use Rattle.rados_client.specs.Refusals.{exec_error_number, exec_error_name, refusal_of_node};

use group_world::HandleError;
use std::error::Error;
use std::fmt;

/// Why a call has no reply. It prints as number and name, as `7 InputTooLong`. The first eight are
/// a node's refusals of a request, or want of memory in the session itself; a session tries again
/// after the first two, and never answers them.
///
/// After `Unanswered`, after a `LogFull`, `NoMemory` or `NotTaken` that `retry` answers, and after
/// a `LogFull` or `NoMemory` that comes to a number which was sent more than once, nobody knows
/// whether the call stands in the history: ask again by `retry`, or read what it was to change.
#[derive(Clone, Copy, Debug, PartialEq, Eq, Drop)]
pub enum ExecError {
    /// The node isn't the group's primary.
    NotPrimary,
    /// It is, and isn't active yet.
    Peering,
    /// The group's log has 65,536 entries.
    LogFull,
    /// A greater number of the client is logged.
    StaleNumber,
    /// No class of that id is loaded.
    NoClass,
    /// The class has no method of that name.
    NoMethod,
    /// The input is longer than the method takes.
    InputTooLong,
    /// Memory was refused: to the session before it sent the request, or to the node.
    NoMemory,
    /// The tries are used up, and the request was taken by a queue at least once in this call.
    Unanswered,
    /// There is no number to send again.
    NothingSent,
    /// The client has sent its last number, 2^32 - 1.
    NumbersUsedUp,
    /// The tries are used up, and no queue took the request in this call.
    NotTaken,
}

impl ExecError {
    /// The table of refusals: number and name.
    fn row(self) -> (u8, &'static str)
        ensures number { result.0 ≡ exec_error_number self }
        ensures name { result.1.now ≡ exec_error_name self }
    {
        match self {
            ExecError::NotPrimary => (1, "NotPrimary"),
            ExecError::Peering => (2, "Peering"),
            ExecError::LogFull => (3, "LogFull"),
            ExecError::StaleNumber => (4, "StaleNumber"),
            ExecError::NoClass => (5, "NoClass"),
            ExecError::NoMethod => (6, "NoMethod"),
            ExecError::InputTooLong => (7, "InputTooLong"),
            ExecError::NoMemory => (8, "NoMemory"),
            ExecError::Unanswered => (9, "Unanswered"),
            ExecError::NothingSent => (10, "NothingSent"),
            ExecError::NumbersUsedUp => (11, "NumbersUsedUp"),
            ExecError::NotTaken => (12, "NotTaken"),
        }
    }

    /// Its number, 1 to 12.
    pub fn number(self) -> u8
        ensures { result ≡ exec_error_number self }
    {
        self.row().0
    }

    /// Its name.
    pub fn name(self) -> &'static str
        ensures { result.now ≡ exec_error_name self }
    {
        self.row().1
    }

    /// A node's refusal as a session answers it: of the same number and name. None for the two
    /// after which it asks again.
    pub(crate) fn of_node(refusal: HandleError) -> Option<ExecError>
        ensures { result ≡ refusal_of_node refusal }
    {
        match refusal {
            HandleError::NotPrimary => None,
            HandleError::Peering => None,
            HandleError::LogFull => Some(ExecError::LogFull),
            HandleError::StaleNumber => Some(ExecError::StaleNumber),
            HandleError::NoClass => Some(ExecError::NoClass),
            HandleError::NoMethod => Some(ExecError::NoMethod),
            HandleError::InputTooLong => Some(ExecError::InputTooLong),
            HandleError::NoMemory => Some(ExecError::NoMemory),
        }
    }
}

impl fmt::Display for ExecError {
    ghost use Rattle.std.specs.Prelude.{Some};
    ghost use Rattle.rados_client.specs.Refusals.{exec_error_text};

    ghost output = { λ e. Some (exec_error_text e) };

    fn fmt<W: fmt::Write>(&self, f: &mut fmt::Formatter<W>) -> fmt::Result {
        let (number, name) = self.row();
        write!(f, "{number} {name}")
    }
}

impl Error for ExecError {}
