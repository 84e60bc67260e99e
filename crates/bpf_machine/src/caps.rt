ghost use Rattle.std.specs.Prelude.{◌≡◌};
ghost use Rattle.bpf_machine.specs.State.{size};
ghost use Rattle.bpf_machine.specs.Safe.{caps_of};

use crate::limits::STACK_SIZE;
use bpf_decode::{Method, Region};

/// The capacities of a method: the lengths of its regions in bytes, and `writes` if it may change
/// the object.
#[derive(Clone, Copy, PartialEq, Eq)]
pub struct Caps {
    pub in_cap: u16,
    pub out_cap: u16,
    pub writes: bool,
}

impl Caps {
    /// The capacities that a method declares; one with flags 1 may not write.
    pub fn of(method: &Method) -> Caps
        ensures { result ≡ caps_of method.now }
    {
        Caps {
            in_cap: method.in_cap(),
            out_cap: method.out_cap(),
            writes: method.flags() != 1,
        }
    }

    /// A region's length in bytes.
    pub fn size(&self, region: Region) -> usize
        ensures { result ≡ size self.now region }
    {
        match region {
            Region::Input => usize::from(self.in_cap),
            Region::Output => usize::from(self.out_cap),
            Region::Stack => STACK_SIZE,
        }
    }
}
