ghost use Rattle.std.specs.Prelude.{◌≡◌};
ghost use Rattle.abstract_regs.specs.Seen.{seen};
ghost use Rattle.abstract_regs.specs.Slots.{has};

use crate::kind::Kind;

/// The content of a stack slot that a read may not touch.
#[derive(Clone, Copy, PartialEq, Eq)]
pub enum Content {
    /// A slot that is unset.
    Nothing,
    /// A slot with a pointer.
    Pointer,
}

impl Content {
    /// True if a slot of that kind has this content.
    #[inline(always)]
    pub(crate) fn is_in(self, kind: Kind) -> bool
        ensures { result ≡ has self (seen kind) }
    {
        match self {
            Content::Nothing => kind.is_unset(),
            Content::Pointer => kind.is_ptr(),
        }
    }
}
