//! The layouts in which a call is run: the first one, which the records are of, and another one.

ghost use Rattle.std.specs.Prelude.{◌≡◌};
ghost use Rattle.bpf_machine.specs.Safe.{first_layout};
ghost use Rattle.flat_machine.specs.View.{layout_of};

use bpf_machine::{Caps, layouts};
use flat_machine::{Layout, Machine};

/// The machine in the first layout: the regions one after the other, from address 0 on.
pub(crate) fn first_machine(caps: Caps) -> Machine
    ensures caps { result.caps ≡ caps }
    ensures layout { layout_of result.layout ≡ first_layout caps }
{
    // For the proof that it is a layout; it does nothing.
    layouts();
    let output = u64::from(caps.in_cap);
    let layout = Layout {
        input: 0,
        output,
        stack: output + u64::from(caps.out_cap),
    };
    Machine::new(caps, layout)
}

/// The machine in a layout whose regions lie elsewhere, each at another distance from its place in
/// the first one. What a run has in both alike is a number; what differs is an address.
pub(crate) fn other_machine(caps: Caps) -> Machine
    ensures { result.caps ≡ caps }
{
    let layout = Layout {
        input: 0x10_0000_0000,
        output: 0x20_0000_0000,
        stack: 0x40_0000_0000,
    };
    Machine::new(caps, layout)
}
