ghost use Rattle.std.specs.Prelude.{◌≡◌};
ghost use Rattle.parts.specs.Stops.{stop_of};
ghost use Rattle.parts.specs.declared.stop.Stop.TheVariants as stop;

use part_bytes::Need;
use part_names::SetError;
use std::alloc::AllocError;
use txn::NoMemory;

/// Why a helper of a call on a part gave no answer.
#[derive(Drop)]
pub enum Stop {
    /// Memory was refused.
    NoMemory,
    /// One xattr, or one key, more would be set than a call can keep.
    Full,
    /// This isn't known of the object, and has to be.
    Needs(Need),
}

impl From<AllocError> for Stop {
    ghost from_gives = { λ _ s. s ≡ stop.NoMemory };

    fn from(_error: AllocError) -> Stop {
        Stop::NoMemory
    }
}

impl From<NoMemory> for Stop {
    ghost from_gives = { λ _ s. s ≡ stop.NoMemory };

    fn from(_error: NoMemory) -> Stop {
        Stop::NoMemory
    }
}

impl From<Need> for Stop {
    ghost from_gives = { λ need s. s ≡ stop.Needs need };

    fn from(need: Need) -> Stop {
        Stop::Needs(need)
    }
}

impl From<SetError> for Stop {
    ghost from_gives = { λ e s. s ≡ stop_of e };

    fn from(error: SetError) -> Stop {
        match error {
            SetError::Full => Stop::Full,
            SetError::NoMemory => Stop::NoMemory,
        }
    }
}
