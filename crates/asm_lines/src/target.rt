ghost use Rattle.std.specs.Prelude.{◌≡◌};

use std::marker::Model;

/// The name of a label or of a method, as the text has it. Contracts see its bytes.
#[derive(Drop)]
pub struct Name<'a> {
    bytes: &'a [u8],
}

impl<'a> Model for Name<'a> {
    ghost use Rattle.std.specs.Prelude.{List, ℕ};

    ghost Value = { List ℕ };

    ghost view = { λ n. n.bytes.now };
}

impl<'a> Name<'a> {
    ghost use Rattle.std.specs.Prelude.{◌≡◌};

    /// A name of those bytes.
    pub fn new(bytes: &'a [u8]) -> Name<'a>
        ensures { result ≡ bytes.now }
    {
        Name { bytes }
    }

    /// Its bytes.
    pub fn as_bytes(&self) -> &'a [u8]
        ensures { result.now ≡ self.now }
    {
        self.bytes
    }
}

/// The target of a jump: a number of slots from the slot after it, or a label.
#[derive(Drop)]
pub enum Target<'a> {
    Slots(i32),
    Label(Name<'a>),
}
