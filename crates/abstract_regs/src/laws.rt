//! Laws of frames, for the proofs of the crates above. Each function does nothing.

ghost use Rattle.abstract_regs.specs.Laws.{LinksCommute, LinksAssociate, LinksOfSame, LinksAreAbove, FlowsKeepLinks};
ghost use Rattle.abstract_regs.specs.Laws.{JoinsKeepLinks, FlowsKeepNames, JoinsKeepNames};
ghost use Rattle.abstract_regs.specs.Laws.{JoinCommutes, JoinAssociates, JoinOfSame, JoinIsAbove, JoinsHold};
ghost use Rattle.abstract_regs.specs.Laws.{EntryHolds, AccessesFit, RangesFit, FlowsKeepSlots, JoinsKeepSlots};
ghost use Rattle.abstract_regs.specs.Laws.{SlotsAreKnown, LoadsAreKnown, RangesAreKnown};

use abstract_num::keeping_laws;

/// A law, proved when the crate is checked; a call does nothing. The join of frames is a
/// commutative, associative and idempotent upper bound.
pub fn join_laws()
    ensures commutes { JoinCommutes }
    ensures associates { JoinAssociates }
    ensures of_same { JoinOfSame }
    ensures is_above { JoinIsAbove }
    ensures links_commute { LinksCommute }
    ensures links_associate { LinksAssociate }
    ensures links_of_same { LinksOfSame }
    ensures links_are_above { LinksAreAbove }
{
    // For the proof: the join of numbers has these laws.
    abstract_num::join_laws();
}

/// A law. The join of two frames holds the values that either holds; the entry frame holds those
/// that a method begins with; the bytes of an access that fits are in the region, at every place
/// that its offset holds; so are those of a range that fits, for every offset and length held.
pub fn holding_laws()
    ensures joins { JoinsHold }
    ensures entry { EntryHolds }
    ensures accesses { AccessesFit }
    ensures ranges { RangesFit }
{
    // For the proof: numbers fit, and the tables of numbers keep what is held.
    keeping_laws();
}

/// A law. An instruction, along each of its edges, and a join keep the number of slots.
pub fn slots_stay()
    ensures flows { FlowsKeepSlots }
    ensures joins { JoinsKeepSlots }
{}

/// A law. An instruction, along each of its edges, and a join keep the number of places that may be
/// linked, and their links have no names of slots to come.
pub fn links_stay()
    ensures flows { FlowsKeepLinks }
    ensures joins { JoinsKeepLinks }
    ensures flow_names { FlowsKeepNames }
    ensures join_names { JoinsKeepNames }
{}

/// A law. An access whose slot's kind is known is that slot; what a load that no rule refuses reads
/// of the stack's slots is known, and so is what a helper's range does.
pub fn slots_known()
    ensures slots { SlotsAreKnown }
    ensures loads { LoadsAreKnown }
    ensures ranges { RangesAreKnown }
{
    // For the proof: numbers fit, and the tables of numbers keep what is held.
    keeping_laws();
}
