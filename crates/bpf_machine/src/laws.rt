//! Laws of the machine, for the proofs of the crates above. Each function does nothing.

ghost use Rattle.bpf_machine.specs.Safe.{Simulates, SimulatesWithin, EndsAlwaysIsSafe, EndsWithinIsSafe, RunsAreChains};
ghost use Rattle.bpf_machine.specs.Safe.{StuckRunsAreChains, UnfinishedRunsAreChains};
ghost use Rattle.bpf_machine.specs.Safe.{BytesAreInstructions, ElsewhereIsStuck, HasLayout};
ghost use Rattle.bpf_machine.specs.Safe.{OutcomesAreOne};
ghost use Rattle.bpf_machine.specs.Address.{PlacesAreAddresses, NoByteElsewhere, LoadsAreOfAddresses};
ghost use Rattle.bpf_machine.specs.Address.{SignedLoadsAreOfAddresses, StoresAreAtAddresses, RangesAreOfAddresses};
ghost use Rattle.bpf_machine.specs.Address.{RoomsAreAtAddresses, OpeningIsAtAddresses};
ghost use Rattle.bpf_machine.specs.Lists.{EndsHaveLists, EndsHaveListsWithin, ListsAreOne};
ghost use Rattle.bpf_machine.specs.Blind.{StepsAreBlind};
ghost use Rattle.bpf_machine.specs.Slots.{SlotsHaveValues, SlotsBeginAtZero, NumbersAreRead, BytesAreWritten};
ghost use Rattle.bpf_machine.specs.Slots.{PlacesAreWritten, NumbersAreTheirBytes};
ghost use Rattle.bpf_machine.specs.Within.{OutcomesAreWithinLimits, CallsAreWithinLimits};

use helpers::{edits_lead, edits_make, effects_are_within_limits};

/// A law, proved when the crate is checked; a call does nothing. If the typed machine's run of a
/// method's instructions ends, the flat machine's run of their bytes ends with the same outcome,
/// after the same number of steps, in every layout of the regions: so also in the first layout,
/// which is the interpreter's. A method whose typed runs all end is safe.
pub fn simulation()
    ensures simulates { Simulates }
    ensures simulates_within { SimulatesWithin }
    ensures safe { EndsAlwaysIsSafe }
    ensures within { EndsWithinIsSafe }
{}

/// A law. A run of at most n steps ends exactly if the chain of its steps reaches an exit within n,
/// never stuck.
pub fn chains()
    ensures { RunsAreChains }
{}

/// A law. A run of at most n steps is stuck exactly if the chain of its steps reaches a stuck state
/// in fewer than n steps, and is unfinished exactly if there is a chain of n steps.
pub fn other_runs()
    ensures stuck { StuckRunsAreChains }
    ensures unfinished { UnfinishedRunsAreChains }
{}

/// A law. At a slot at which an instruction begins, the step on the bytes is the instruction's. At
/// any other slot, a wide load's second half or one past the end, the machine is stuck.
pub fn decoded()
    ensures begins { BytesAreInstructions }
    ensures elsewhere { ElsewhereIsStuck }
{}

/// A law. No instruction but a call of a helper looks at the limits, the object or the list of
/// edits, or touches them: it does the same, and exits the same, whatever they are. A helper is
/// given the same arguments, and the limits.
pub fn blind_steps()
    ensures { StepsAreBlind }
{}

/// A law. There is a layout for all capacities.
pub fn layouts()
    ensures { HasLayout }
{}

/// A law. A method with one outcome for all layouts has that in the first layout.
pub fn outcomes()
    ensures { OutcomesAreOne }
{}

/// A law. The three regions are one memory: the byte at an address is that of the region which has
/// the address; a load is the little-endian value of the bytes at its addresses; a store changes
/// the bytes at its addresses and no other. So do a helper's ranges: it reads the bytes at the
/// addresses of one, and changes those at the addresses of another. As a method begins, its input
/// is at the input's address, and 0 at every other address of a region.
pub fn addresses()
    ensures places { PlacesAreAddresses }
    ensures elsewhere { NoByteElsewhere }
    ensures loads { LoadsAreOfAddresses }
    ensures signed_loads { SignedLoadsAreOfAddresses }
    ensures stores { StoresAreAtAddresses }
    ensures ranges { RangesAreOfAddresses }
    ensures rooms { RoomsAreAtAddresses }
    ensures opening { OpeningIsAtAddresses }
{}

/// A law. The typed machine's stack in slots of eight bytes: as a method begins, each is the number
/// 0; bytes alone are read of slots that are numbers; a write changes the slots that it touches,
/// leaves numbers if it writes bytes, and over a whole slot leaves the number, or the place, that
/// it writes.
pub fn slots()
    ensures values { SlotsHaveValues }
    ensures begin { SlotsBeginAtZero }
    ensures read { NumbersAreRead }
    ensures bytes { BytesAreWritten }
    ensures places { PlacesAreWritten }
    ensures numbers { NumbersAreTheirBytes }
{}

/// A law. On an object within all limits and an input of bytes, a run that ends leaves an object
/// within all limits, and at most out_cap bytes of output; so does a call. The capacities are such
/// as a method may declare.
pub fn limits_are_kept()
    ensures runs { OutcomesAreWithinLimits }
    ensures calls { CallsAreWithinLimits }
{
    // For the proof: each helper keeps an object within all limits.
    effects_are_within_limits();
}

/// A law. A method whose typed run ends leaves a list of edits, which is one for all layouts; they
/// make of the object before the object after, and none of them is refused. By any limits
/// that a host may give there is such a list too, whose edits, made without limits, make of the
/// object before the object after.
pub fn lists()
    ensures ends { EndsHaveLists }
    ensures within { EndsHaveListsWithin }
    ensures one { ListsAreOne }
{
    // For the proof: so do the edits of each helper.
    edits_lead();
    edits_make();
}
