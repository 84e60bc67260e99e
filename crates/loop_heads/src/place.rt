//! A place of a head, and what is declared of it.

ghost use Rattle.std.specs.Prelude.{◌≡◌, ◌↔◌, IsTrue};
ghost use Rattle.loop_heads.specs.Loops.{IsKind, IsPlace, is_kind, is_place};

use crate::limits::PLACE_LIMIT;

/// What is declared of a place at a head. Bounds are in order: the first is at most the second.
#[derive(Clone, Copy, PartialEq, Eq)]
pub enum PlaceKind {
    /// Nothing is known of it, not even that it is set.
    Unset,
    /// Any number.
    Any,
    /// A number from the first to the second.
    Unsigned(u64, u64),
    /// The same, as a signed number.
    Signed(i64, i64),
    /// A pointer into the input, at an offset from the first to the second.
    Input(u64, u64),
    /// The same into the output.
    Output(u64, u64),
    /// The same into the stack, from its first byte on.
    Stack(u64, u64),
}

/// A place with what is declared of it.
#[derive(Clone, Copy, PartialEq, Eq)]
pub struct HeadPlace {
    /// 0 to 9 for a register, 11 to 74 for a slot of the stack.
    pub number: u8,
    pub kind: PlaceKind,
}

impl PlaceKind {
    /// True if its bounds are in order.
    pub fn is_ordered(self) -> bool
        ensures ordered { IsTrue result ↔ IsKind self }
        ensures test { result ≡ is_kind self }
    {
        match self {
            PlaceKind::Unset | PlaceKind::Any => true,
            PlaceKind::Unsigned(a, b) => a <= b,
            PlaceKind::Signed(a, b) => a <= b,
            PlaceKind::Input(a, b) => a <= b,
            PlaceKind::Output(a, b) => a <= b,
            PlaceKind::Stack(a, b) => a <= b,
        }
    }
}

impl HeadPlace {
    /// True if its number is that of a place, and its bounds are in order.
    pub fn is_place(self) -> bool
        ensures place { IsTrue result ↔ IsPlace self }
        ensures test { result ≡ is_place self }
    {
        self.number <= PLACE_LIMIT && self.number != 10 && self.kind.is_ordered()
    }
}
