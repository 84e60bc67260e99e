ghost use Rattle.tests_verdict.specs.FlatSlots.{FlatSlotsHold};

/// A law, proved when the crate is checked; a call does nothing. Slots of the stack that a frame
/// holds on the machine on values it holds as the eight bytes at their places, wherever the regions
/// lie: they are a held number, or the region's base plus a held offset, modulo `2^64`, the lowest
/// byte first.
pub fn slots_as_numbers()
    ensures { FlatSlotsHold }
{}
