ghost use Rattle.std.specs.Prelude.{◌≡◌, ◌≤◌, length};
ghost use Rattle.object_store.specs.declared.limits.TheConstants.{NAME_LIMIT};
ghost use Rattle.part_names.specs.Order.{least_from};

use std::marker::Model;

/// The most bytes of a place, and of the end of an interval: a name's and one more.
pub const PLACE_LIMIT: usize = 65;

/// A string of at most 65 bytes, which takes no memory. Contracts see the bytes.
#[derive(Drop)]
pub struct Place {
    room: [u8; PLACE_LIMIT],
    len: usize,
}

impl Model for Place {
    ghost use Rattle.std.specs.Prelude.{ℕ, List, ◌≤◌, take};

    ghost Value = { List ℕ };

    ghost view = { λ p. take p.len p.room };

    ghost invariant = { λ p. p.len ≤ 65 };
}

impl Place {
    /// These bytes, at most 65.
    pub(crate) fn of(bytes: &[u8]) -> Place
        requires { length bytes.now ≤ PLACE_LIMIT }
        ensures { result ≡ bytes.now }
    {
        let mut room = [0; PLACE_LIMIT];
        room[..bytes.len()].copy_from_slice(bytes);
        Place {
            room,
            len: bytes.len(),
        }
    }

    /// The least string above these bytes, at most 64; above no bytes the least string of all.
    pub(crate) fn least_from(bytes: &[u8]) -> Place
        requires { length bytes.now ≤ NAME_LIMIT }
        ensures { result ≡ least_from bytes.now }
    {
        let mut place = Place::of(bytes);
        if !bytes.is_empty() {
            place.room[bytes.len()] = 0;
            place.len = bytes.len() + 1;
        }
        place
    }

    /// The bytes, at most 65.
    pub fn bytes(&self) -> &[u8]
        ensures bytes { result.now ≡ self.now }
        ensures within { length self.now ≤ PLACE_LIMIT }
    {
        &self.room[..self.len]
    }
}
