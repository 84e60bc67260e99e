ghost use Rattle.std.specs.Prelude.{◌≡◌, ◌<◌, ◌+◌, length};
ghost use Rattle.abstract_regs.specs.Seen.{seen};
ghost use Rattle.verifier.specs.Rules.{has_fault, register_count, some_fault, call_fault, range_meets, room_in};
ghost use Rattle.verifier.specs.Rules.{room_of};

use crate::facets::{Callee, callee_of};
use crate::kind_rules::{is_at_most, range_is_read_only, range_leaves};
use crate::known::known_signature;
use abstract_regs::{Content, Frame, Kind};
use bpf_decode::{Insn, RuleSet};
use bpf_machine::Caps;
use helpers::{Argument, signature};

/// A fault of an argument of a helper.
#[derive(Clone, Copy)]
pub enum Fault {
    NotSet,
    OutOfRegion,
    ReadOnly,
    WrongKind,
    HasPointer,
}

impl Fault {
    /// True if an argument of the helper has this fault. An id that is no helper's in the rule set
    /// takes none.
    pub fn is_in_call(self, rules: RuleSet, caps: &Caps, frame: &Frame, helper: u32) -> bool
        ensures { result ≡ call_fault rules caps.now frame.now self helper }
    {
        match known_signature(rules, helper) {
            None => false,
            Some(takes) => self.is_in_some(caps, frame, takes.arguments, 1),
        }
    }

    /// True if one of the arguments, taken from that register on, has this fault.
    fn is_in_some(self, caps: &Caps, frame: &Frame, arguments: &[Argument], register: usize) -> bool
        requires { register + length arguments.now + length arguments.now < 100 }
        ensures { result ≡ some_fault caps.now frame.now self arguments.now register }
    {
        match arguments {
            [] => false,
            [first, ..] => {
                self.is_in(caps, frame, *first, register)
                    || self.is_in_some(
                        caps,
                        frame,
                        &arguments[1..],
                        register + count_registers(*first),
                    )
            }
        }
    }

    /// True if the argument, taken from that register on, has this fault.
    #[rattlefmt::skip]
    fn is_in(self, caps: &Caps, frame: &Frame, argument: Argument, register: usize) -> bool
        requires { register < 100 }
        ensures { result ≡ has_fault caps.now frame.now self argument register }
    {
        let first = frame.kind(register);
        let second = frame.kind(register + 1);
        match (self, argument) {
            (Fault::NotSet, Argument::Number | Argument::OutputLength) => first.is_unset(),
            (Fault::NotSet, Argument::Readable) => {
                first.is_unset() || second.is_unset() || range_meets(Content::Nothing, caps, frame, first, second)
            }
            // A helper doesn't read the bytes of its writable range: they may be unset.
            (Fault::NotSet, Argument::Writable) => first.is_unset() || second.is_unset(),
            (Fault::OutOfRegion, Argument::Number | Argument::OutputLength) => false,
            (Fault::OutOfRegion, Argument::Readable | Argument::Writable) => range_leaves(caps, first, second),
            (Fault::ReadOnly, Argument::Number | Argument::OutputLength | Argument::Readable) => false,
            (Fault::ReadOnly, Argument::Writable) => range_is_read_only(first, second),
            (Fault::WrongKind, Argument::Number) => !first.is_num(),
            (Fault::WrongKind, Argument::OutputLength) => !is_at_most(caps.out_cap, first),
            (Fault::WrongKind, Argument::Readable | Argument::Writable) => !first.is_ptr() || !second.is_num(),
            (Fault::HasPointer, Argument::Number | Argument::OutputLength | Argument::Writable) => false,
            (Fault::HasPointer, Argument::Readable) => range_meets(Content::Pointer, caps, frame, first, second),
        }
    }
}

/// True if a helper's range stays in its region and may touch a stack slot with that content.
// A range that may leave its region is left to rule 10, though rule 5 is tried first.
fn range_meets(content: Content, caps: &Caps, frame: &Frame, pointer: Kind, length: Kind) -> bool
    ensures { result ≡ range_meets content caps.now frame.now (seen pointer) (seen length) }
{
    frame.range_meets(content, pointer, length) && !range_leaves(caps, pointer, length)
}

/// The first register of the range that a helper writes.
pub fn room(insn: &Insn) -> Option<u8>
    ensures { result ≡ room_of insn.now }
{
    match callee_of(insn) {
        Callee::Helper(helper) => match signature(helper) {
            None => None,
            Some(takes) => room_in(takes.arguments, 1),
        },
        Callee::Nothing | Callee::Local => None,
    }
}

pub(crate) fn room_in(arguments: &[Argument], register: u8) -> Option<u8>
    requires { register + length arguments.now + length arguments.now < 100 }
    ensures { result ≡ room_in arguments.now register }
{
    match arguments {
        [] => None,
        [Argument::Writable, ..] => Some(register),
        [Argument::Readable, ..] => room_in(&arguments[1..], register + 2),
        [Argument::Number | Argument::OutputLength, ..] => room_in(&arguments[1..], register + 1),
    }
}

/// The number of registers that an argument takes: a range is a pointer and a length.
fn count_registers(argument: Argument) -> usize
    ensures { result ≡ register_count argument }
{
    match argument {
        Argument::Number | Argument::OutputLength => 1,
        Argument::Readable | Argument::Writable => 2,
    }
}
