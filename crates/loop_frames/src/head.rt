//! The frame at a head.

ghost use Rattle.std.specs.Prelude.{◌≡◌, option_map};
ghost use Rattle.abstract_num.specs.Plain.{view};
ghost use Rattle.abstract_num.specs.Tighten.{tighten};
ghost use Rattle.abstract_num.specs.Transfer.{ranged, signed_ranged};
ghost use Rattle.abstract_regs.specs.Frame.{number_kind};
ghost use Rattle.abstract_regs.specs.Seen.{seen};
ghost use Rattle.loop_frames.specs.Heads.{pointer_kind, declared_kind, with_declared, head_frame};

use crate::place::{place_kind, set_place};
use abstract_num::{Number, Precision, any, between, signed_between};
use abstract_regs::{Frame, Kind};
use bpf_decode::Region;
use loop_heads::{HeadPlace, PlaceKind};

/// Turns what flows to a head from lower slots into the frame there: in each declared place it is joined
/// with what is declared, and there are no links.
pub fn declare(precision: Precision, places: &[HeadPlace], frame: &mut Frame)
    ensures { frame.new ≡ head_frame precision places.now frame.old }
{
    for place in places {
        declare_place(precision, *place, frame);
    }
    frame.unlink();
}

fn declare_place(precision: Precision, place: HeadPlace, frame: &mut Frame)
    ensures { frame.new ≡ with_declared precision frame.old place }
{
    let kind = place_kind(frame, usize::from(place.number));
    let declared = declared_kind(precision, place.kind);
    set_place(frame, place.number, kind.join(declared));
}

/// What is declared of a place, as a kind.
fn declared_kind(precision: Precision, kind: PlaceKind) -> Kind
    ensures { seen result ≡ declared_kind precision kind }
{
    match kind {
        PlaceKind::Unset => Kind::Unset,
        PlaceKind::Any => Kind::Num(any()),
        PlaceKind::Unsigned(a, b) => number_kind(range(precision, a, b)),
        PlaceKind::Signed(a, b) => number_kind(signed_range(precision, a, b)),
        PlaceKind::Input(a, b) => pointer_kind(Region::Input, range(precision, a, b)),
        PlaceKind::Output(a, b) => pointer_kind(Region::Output, range(precision, a, b)),
        PlaceKind::Stack(a, b) => pointer_kind(Region::Stack, range(precision, a, b)),
    }
}

fn number_kind(number: Option<Number>) -> Kind
    ensures { seen result ≡ number_kind (option_map view number) }
{
    match number {
        None => Kind::Unset,
        Some(number) => Kind::Num(number),
    }
}

fn pointer_kind(region: Region, at: Option<Number>) -> Kind
    ensures { seen result ≡ pointer_kind region (option_map view at) }
{
    match at {
        None => Kind::Unset,
        Some(at) => Kind::Ptr(region, at),
    }
}

/// The numbers from `low` to `high`; none if that is less.
fn range(precision: Precision, low: u64, high: u64) -> Option<Number>
    ensures { option_map view result ≡ tighten precision (ranged low high) }
{
    if low <= high {
        Some(between(precision, low, high))
    } else {
        None
    }
}

/// The numbers that are from `low` to `high` as signed ones; none if that is less.
fn signed_range(precision: Precision, low: i64, high: i64) -> Option<Number>
    ensures { option_map view result ≡ tighten precision (signed_ranged low high) }
{
    if low <= high {
        Some(signed_between(precision, low, high))
    } else {
        None
    }
}
