//! A law, for the proofs of the crates above: what frames say is true of plain addresses too. The
//! function does nothing.

ghost use Rattle.abstract_regs.specs.Flat.{FlatRegistersHold};

/// A law, proved when the crate is checked; a call does nothing. A frame that holds the registers
/// of the machine on values holds those of the machine on plain numbers, wherever the regions lie:
/// each number is held, or is its region's base plus a held offset, modulo `2^64`.
pub fn registers_as_numbers()
    ensures { FlatRegistersHold }
{}
