ghost use Rattle.std.specs.Prelude.{◌≡◌};
ghost use Rattle.bpf_machine.specs.State.{AreCapacities};
ghost use Rattle.bpf_machine.specs.Flat.{IsLayout};
ghost use Rattle.flat_machine.specs.View.{layout_of};

use crate::layout::Layout;
use bpf_machine::Caps;

/// The constants of a run: the capacities of the method, and the addresses of its regions.
#[derive(Clone, Copy)]
pub struct Machine {
    pub caps: Caps,
    pub layout: Layout,
    ghost capacities: { AreCapacities caps },
    ghost apart: { IsLayout caps (layout_of layout) },
}

impl Machine {
    /// The machine of a method that declares this, in that layout.
    pub fn new(caps: Caps, layout: Layout) -> Machine
        requires capacities { AreCapacities caps }
        requires layout { IsLayout caps (layout_of layout) }
        ensures caps { result.caps ≡ caps }
        ensures layout { result.layout ≡ layout }
    {
        Machine { caps, layout }
    }
}
