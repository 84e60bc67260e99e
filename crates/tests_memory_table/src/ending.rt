/// The end of a row of the table, or of a call, if at most one growth of the run is refused.
#[derive(Clone, Copy, PartialEq, Eq)]
pub enum Ending {
    /// The call gave its answer, and the state is what it should be.
    Answered,
    /// The call was refused by its number for want of memory, and left its state as it was. Made
    /// again, as each row does, it gave its answer.
    Refused,
    /// Neither.
    Differs,
}

impl Ending {
    /// The end of a call that answered, rightly or not.
    pub fn of(is_right: bool) -> Ending {
        if is_right {
            Ending::Answered
        } else {
            Ending::Differs
        }
    }

    /// The end of a call that was refused memory: true if it was so by its number, and left the
    /// state as it was.
    pub fn refused(is_as_before: bool) -> Ending {
        if is_as_before {
            Ending::Refused
        } else {
            Ending::Differs
        }
    }

    /// This end, if a second try answered. It isn't refused too, since one growth of a run is.
    pub fn then(self, second: Option<Ending>) -> Ending {
        match second {
            Some(Ending::Answered) => self,
            Some(Ending::Refused | Ending::Differs) | None => Ending::Differs,
        }
    }

    /// Its word.
    pub fn word(self) -> &'static str {
        match self {
            Ending::Answered => "answered",
            Ending::Refused => "refused",
            Ending::Differs => "differs",
        }
    }
}
