//! Places of a frame: the eleven registers, then the 64 slots of the stack.

ghost use Rattle.std.specs.Prelude.{◌≡◌};
ghost use Rattle.abstract_regs.specs.Seen.{seen};
ghost use Rattle.loop_frames.specs.Heads.{place_kind, with_place};

use abstract_regs::{Frame, Kind};
use bpf_decode::Register;

/// The number of places.
pub const PLACES: usize = 75;

/// The kind of a place.
pub(crate) fn place_kind(frame: &Frame, place: usize) -> Kind
    ensures { seen result ≡ place_kind frame.now place }
{
    if place < 11 {
        frame.kind(place)
    } else {
        frame.slot_kind(place - 11)
    }
}

/// Gives a place another kind. Past the last place it changes nothing.
pub(crate) fn set_place(frame: &mut Frame, place: u8, kind: Kind)
    ensures { frame.new ≡ with_place frame.old place (seen kind) }
{
    match Register::new(place) {
        Some(register) => frame.set(register, kind),
        None => frame.set_slot(usize::from(place - 11), kind),
    }
}
