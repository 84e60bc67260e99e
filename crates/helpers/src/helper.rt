ghost use Rattle.std.specs.Prelude.{◌≡◌, ◌≤◌, length, IfSome};
ghost use Rattle.helpers.specs.Table.{helper_of, row, signature_of};
ghost use Rattle.helpers.specs.View.{given_signature};

use crate::argument::{Argument, Signature};

/// The helpers that a method may call. Each has one function of the same name.
#[derive(Clone, Copy, PartialEq, Eq)]
pub enum Helper {
    Stat,
    Read,
    Write,
    Truncate,
    Remove,
    GetXattr,
    SetXattr,
    RmXattr,
    MapGet,
    MapSet,
    MapRm,
    MapNext,
    OutLen,
    Create,
    Caller,
    Compare,
    Copy,
    XattrNext,
}

/// The ids of the helpers are 1 to this.
pub const LAST_HELPER: u32 = 18;

impl Helper {
    /// The helper of an id, the immediate of the call as an unsigned number.
    pub fn of(id: u32) -> Option<Helper>
        ensures { result ≡ helper_of id }
    {
        match id {
            1 => Some(Helper::Stat),
            2 => Some(Helper::Read),
            3 => Some(Helper::Write),
            4 => Some(Helper::Truncate),
            5 => Some(Helper::Remove),
            6 => Some(Helper::GetXattr),
            7 => Some(Helper::SetXattr),
            8 => Some(Helper::RmXattr),
            9 => Some(Helper::MapGet),
            10 => Some(Helper::MapSet),
            11 => Some(Helper::MapRm),
            12 => Some(Helper::MapNext),
            13 => Some(Helper::OutLen),
            14 => Some(Helper::Create),
            15 => Some(Helper::Caller),
            16 => Some(Helper::Compare),
            17 => Some(Helper::Copy),
            18 => Some(Helper::XattrNext),
            _ => None,
        }
    }
}

/// The signature of the helper of that id; none for an id that is no helper's. It takes no memory.
pub fn signature(id: u32) -> Option<Signature>
    ensures known { given_signature result ≡ signature_of id }
    ensures short { IfSome result (λ s. length s.arguments.now ≤ 5) }
{
    match Helper::of(id) {
        Some(helper) => Some(takes(helper)),
        None => None,
    }
}

/// The table of helpers: the arguments of each, and `writes` if it may change the object.
#[rattlefmt::skip]
fn takes(helper: Helper) -> Signature
    ensures arguments { result.arguments.now ≡ (row helper).takes.arguments }
    ensures writes { result.writes ≡ (row helper).takes.writes }
    ensures short { length result.arguments.now ≤ 5 }
{
    match helper {
        Helper::Stat      => Signature { arguments: &[], writes: false },
        Helper::Read      => Signature { arguments: &[Argument::Number, Argument::Writable], writes: false },
        Helper::Write     => Signature { arguments: &[Argument::Number, Argument::Readable], writes: true },
        Helper::Truncate  => Signature { arguments: &[Argument::Number], writes: true },
        Helper::Remove    => Signature { arguments: &[], writes: true },
        Helper::GetXattr  => Signature { arguments: &[Argument::Readable, Argument::Writable], writes: false },
        Helper::SetXattr  => Signature { arguments: &[Argument::Readable, Argument::Readable], writes: true },
        Helper::RmXattr   => Signature { arguments: &[Argument::Readable], writes: true },
        Helper::MapGet    => Signature { arguments: &[Argument::Readable, Argument::Writable], writes: false },
        Helper::MapSet    => Signature { arguments: &[Argument::Readable, Argument::Readable], writes: true },
        Helper::MapRm     => Signature { arguments: &[Argument::Readable], writes: true },
        Helper::MapNext   => Signature { arguments: &[Argument::Readable, Argument::Writable], writes: false },
        Helper::OutLen    => Signature { arguments: &[Argument::OutputLength], writes: false },
        Helper::Create    => Signature { arguments: &[Argument::Number], writes: true },
        Helper::Caller    => Signature { arguments: &[], writes: false },
        Helper::Compare   => Signature { arguments: &[Argument::Readable, Argument::Readable], writes: false },
        Helper::Copy      => Signature { arguments: &[Argument::Writable, Argument::Readable], writes: false },
        Helper::XattrNext => Signature { arguments: &[Argument::Readable, Argument::Writable], writes: false },
    }
}
