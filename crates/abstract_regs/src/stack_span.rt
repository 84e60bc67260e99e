ghost use Rattle.std.specs.Prelude.{◌≡◌, ◌+◌, ◌/◌, ◌<◌, ◌^◌, min, IfSome};
ghost use Rattle.std.specs.Option.{option_map};
ghost use Rattle.abstract_num.specs.Plain.{view};
ghost use Rattle.abstract_regs.specs.Seen.{seen};
ghost use Rattle.abstract_regs.specs.Kind.{last_place};
ghost use Rattle.abstract_regs.specs.Slots.{stack_place, stack_range, access_span, range_span, whole_slot};

use crate::kind::Kind;
use abstract_num::{Number, Precision, offset_by};
use bpf_decode::Region;
use std::marker::Model;

/// Bytes of the stack: `bytes` of them, from a place between `low` and `high` on.
#[derive(Drop)]
pub(crate) struct StackSpan {
    low: u64,
    high: u64,
    bytes: u64,
}

impl Model for StackSpan {
    ghost use Rattle.std.specs.Prelude.{◌+◌};
    ghost use Rattle.abstract_regs.specs.Slots.{Span};

    ghost Value = { Span };

    ghost view = { λ s. record { low = s.low; high = s.high + s.bytes } };
}

impl StackSpan {
    /// The first slot that may have one of them.
    #[inline(always)]
    pub fn first(&self) -> usize
        ensures { result ≡ self.now.low / 8 }
    {
        (self.low / 8) as usize
    }

    /// The slot after the last that may have one of them, of that many slots.
    #[inline(always)]
    pub fn end(&self, count: usize) -> usize
        ensures { result ≡ min count ((self.now.high + 7) / 8) }
    {
        // `high + bytes + 7` could overflow: this sum, in slots, can't.
        let whole = self.high / 8 + self.bytes / 8;
        let end = whole + (self.high % 8 + self.bytes % 8 + 7) / 8;
        count.min(end as usize)
    }
}

/// The places in the stack of an access at a distance from where a kind points.
#[inline(always)]
pub(crate) fn stack_place(precision: Precision, kind: &Kind, distance: u64) -> Option<Number>
    ensures { option_map view result ≡ stack_place precision (seen kind.now) distance }
{
    match kind {
        Kind::Ptr(Region::Stack, at) => offset_by(precision, at, distance),
        Kind::Ptr(Region::Input | Region::Output, _) => None,
        Kind::Unset | Kind::Num(_) => None,
    }
}

/// The bytes of an access at a place.
#[inline(always)]
pub(crate) fn access_span(place: Option<Number>, bytes: usize) -> Option<StackSpan>
    ensures { result ≡ access_span (option_map view place) bytes }
{
    match place {
        None => None,
        Some(place) => Some(StackSpan {
            low: place.unsigned().low,
            high: place.unsigned().high,
            bytes: bytes as u64,
        }),
    }
}

/// The slot that an access covers whole: eight bytes at one place, which is a multiple of 8.
#[inline(always)]
pub(crate) fn whole_slot(place: Option<Number>, bytes: usize) -> Option<usize>
    ensures slot { result ≡ whole_slot (option_map view place) bytes }
    ensures small { IfSome result (λ slot. slot < 2 ^ 61) }
{
    match place {
        None => None,
        Some(place) => {
            let low = place.unsigned().low;
            if bytes == 8 && low == place.unsigned().high && low % 8 == 0 {
                Some((low / 8) as usize)
            } else {
                None
            }
        }
    }
}

/// The bytes of a helper's range that is in the stack.
#[inline(always)]
pub(crate) fn stack_range(pointer: Kind, length: Kind) -> Option<StackSpan>
    ensures { result ≡ stack_range (seen pointer) (seen length) }
{
    match (pointer, length) {
        (Kind::Ptr(Region::Stack, at), Kind::Num(bytes)) => range_span(at, bytes),
        (Kind::Ptr(Region::Stack, _), Kind::Unset | Kind::Ptr(_, _)) => None,
        (Kind::Ptr(Region::Input | Region::Output, _), _) => None,
        (Kind::Unset | Kind::Num(_), _) => None,
    }
}

/// The bytes from an offset on, for the greatest length; none if that is 0.
#[inline(always)]
fn range_span(at: Number, length: Number) -> Option<StackSpan>
    ensures { result ≡ range_span (view at) (view length) }
{
    // A helper's range begins where its pointer points: there is no distance to add, and so no sum.
    if length.unsigned().high == 0 {
        None
    } else {
        Some(StackSpan {
            low: at.unsigned().low,
            high: at.unsigned().high,
            bytes: length.unsigned().high,
        })
    }
}
