//! What the rules ask of loads and stores, by the place that an access has in its region.

ghost use Rattle.std.specs.Prelude.{◌≡◌};
ghost use Rattle.verifier.specs.Rules.{load_meets, leaves, access_leaves, stores_read_only, is_slot, loads_unset};
ghost use Rattle.verifier.specs.Rules.{loads_pointer};
ghost use Rattle.abstract_regs.specs.Frame.{kind_at};
ghost use Rattle.bpf_machine.specs.Typed.{extended};

use crate::facets::{Access, Touches};
use crate::kind_rules;
use crate::known::precision;
use abstract_regs::{Content, Frame};
use bpf_decode::RuleSet;
use bpf_machine::Caps;

/// True if it is a load that may touch a slot of the stack that is unset.
#[inline(always)]
pub fn loads_unset(rules: RuleSet, caps: &Caps, frame: &Frame, touches: Touches) -> bool
    ensures { result ≡ loads_unset rules caps.now frame.now touches }
{
    match touches {
        Touches::Loads(access) => load_meets(rules, Content::Nothing, caps, frame, &access),
        Touches::Nothing | Touches::Stores(_, _) => false,
    }
}

/// True if it is an access that may leave its region, or is through a number.
#[inline(always)]
pub fn leaves(rules: RuleSet, caps: &Caps, frame: &Frame, touches: Touches) -> bool
    ensures { result ≡ leaves rules caps.now frame.now touches }
{
    match touches {
        Touches::Loads(access) | Touches::Stores(access, _) => {
            access_leaves(rules, caps, frame, &access)
        }
        Touches::Nothing => false,
    }
}

/// True if an access may leave its region, or is through a number.
#[inline(always)]
fn access_leaves(rules: RuleSet, caps: &Caps, frame: &Frame, access: &Access) -> bool
    ensures { result ≡ access_leaves rules caps.now frame.now access.now }
{
    let distance = i64::from(access.offset).cast_unsigned();
    !kind_rules::stays(
        precision(rules),
        caps,
        frame.at(access.base),
        distance,
        access.bytes,
    )
}

/// True if it is a store into the region that is read only.
#[inline(always)]
pub fn stores_read_only(frame: &Frame, touches: Touches) -> bool
    ensures { result ≡ stores_read_only frame.now touches }
{
    match touches {
        Touches::Stores(access, _) => kind_rules::is_read_only(frame.at(access.base)),
        Touches::Nothing | Touches::Loads(_) => false,
    }
}

/// True if it is a load, not of one whole known slot, that may read a part of a pointer.
#[inline(always)]
pub fn loads_pointer(rules: RuleSet, caps: &Caps, frame: &Frame, touches: Touches) -> bool
    ensures { result ≡ loads_pointer rules caps.now frame.now touches }
{
    match touches {
        Touches::Loads(access) => {
            !is_slot(rules, frame, &access)
                && load_meets(rules, Content::Pointer, caps, frame, &access)
        }
        Touches::Nothing | Touches::Stores(_, _) => false,
    }
}

/// True if the bytes of an access are one slot of the stack that is known.
#[inline(always)]
pub fn is_slot(rules: RuleSet, frame: &Frame, access: &Access) -> bool
    ensures { result ≡ is_slot rules frame.now access.now }
{
    let distance = i64::from(access.offset).cast_unsigned();
    frame
        .slot(
            precision(rules),
            frame.peek(access.base),
            distance,
            access.bytes,
        )
        .is_some()
}

/// True if a load stays in its region and may touch a slot of the stack with that content.
// A load that may leave its region is left to rule 10, though rule 5 is tried first.
#[inline(always)]
fn load_meets(rules: RuleSet, content: Content, caps: &Caps, frame: &Frame, access: &Access) -> bool
    ensures { result ≡ load_meets rules content caps.now frame.now (kind_at frame.now access.now.base)
        (extended access.now.offset) access.now.bytes }
{
    let distance = i64::from(access.offset).cast_unsigned();
    frame.access_meets(
        precision(rules),
        content,
        frame.peek(access.base),
        distance,
        access.bytes,
    ) && !access_leaves(rules, caps, frame, access)
}
