use loop_finder::FindError;
use std::fmt;

/// A method for which no heads are found, and why. It prints as one line, without its end.
#[derive(Drop)]
pub struct NoHeads {
    pub(crate) method: String,
    pub(crate) error: FindError,
}

/// What is said of a place whose bounds keep growing.
#[derive(Clone, Copy)]
struct Unbound(u8);

impl fmt::Display for Unbound {
    ghost use Rattle.std.specs.Prelude.{Some};
    ghost use Rattle.loop_tool.specs.Places.{unbound_text};

    ghost output = { λ place. Some (unbound_text place.0) };

    fn fmt<W: fmt::Write>(&self, f: &mut fmt::Formatter<W>) -> fmt::Result {
        let Unbound(place) = *self;
        if place < 11 {
            write!(f, ": no head found, r{place} has no bound")
        } else {
            let slot = place - 11;
            write!(f, ": no head found, s{slot} has no bound")
        }
    }
}

impl fmt::Display for NoHeads {
    ghost use Rattle.std.specs.Prelude.{Some};
    ghost use Rattle.loop_tool.specs.NoHeads.{no_heads_text};

    ghost output = { λ it. Some (no_heads_text it) };

    fn fmt<W: fmt::Write>(&self, f: &mut fmt::Formatter<W>) -> fmt::Result {
        let method = &self.method;
        match self.error {
            FindError::NoMemory => write!(f, "{method}: no memory"),
            FindError::Limit => write!(f, "{method}: more than 64 heads"),
            FindError::RuleSet => write!(f, "{method}: loops need rule set 3"),
            FindError::NoHead { slot, place: None } => {
                write!(f, "{method} slot {slot}: no head found")
            }
            FindError::NoHead {
                slot,
                place: Some(place),
            } => {
                let unbound = Unbound(place);
                write!(f, "{method} slot {slot}{unbound}")
            }
        }
    }
}
