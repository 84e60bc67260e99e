//! The order of frames.

ghost use Rattle.std.specs.Prelude.{◌≡◌};
ghost use Rattle.abstract_num.specs.Plain.{view};
ghost use Rattle.abstract_regs.specs.Kind.{same_region};
ghost use Rattle.abstract_regs.specs.Link.{form_number};
ghost use Rattle.abstract_regs.specs.Seen.{seen};
ghost use Rattle.loop_frames.specs.Below.{is_below, is_kind_below, is_link_below, is_place_below, is_frame_below};

use crate::place::{PLACES, place_kind};
use abstract_num::{Number, is_below};
use abstract_regs::{Frame, Kind, Link, LinkForm};
use bpf_decode::Region;

/// True if `f` is below `g`: it says no less of any place, so whatever it is true of, `g` is true of.
pub fn is_frame_below(f: &Frame, g: &Frame) -> bool
    ensures { result ≡ is_frame_below f.now g.now }
{
    for place in 0..PLACES {
        if !is_place_below(f, g, place) {
            return false;
        }
    }
    true
}

fn is_place_below(f: &Frame, g: &Frame, place: usize) -> bool
    ensures { result ≡ is_place_below f.now g.now place }
{
    is_kind_below(place_kind(f, place), place_kind(g, place))
        && is_link_below(f.link(place), g.link(place))
}

fn is_kind_below(x: Kind, y: Kind) -> bool
    ensures { result ≡ is_kind_below (seen x) (seen y) }
{
    match (x, y) {
        (_, Kind::Unset) => true,
        (Kind::Num(a), Kind::Num(b)) => is_number_below(a, b),
        (Kind::Ptr(r, a), Kind::Ptr(q, b)) => is_same_region(r, q) && is_number_below(a, b),
        (Kind::Unset, Kind::Num(_) | Kind::Ptr(_, _)) => false,
        (Kind::Num(_), Kind::Ptr(_, _)) => false,
        (Kind::Ptr(_, _), Kind::Num(_)) => false,
    }
}

fn is_number_below(x: Number, y: Number) -> bool
    ensures { result ≡ is_below (view x) (view y) }
{
    is_below(x, y)
}

/// True if both regions are one.
pub(crate) fn is_same_region(r: Region, q: Region) -> bool
    ensures { result ≡ same_region r q }
{
    match (r, q) {
        (Region::Input, Region::Input) => true,
        (Region::Output, Region::Output) => true,
        (Region::Stack, Region::Stack) => true,
        (Region::Input, Region::Output | Region::Stack) => false,
        (Region::Output, Region::Input | Region::Stack) => false,
        (Region::Stack, Region::Input | Region::Output) => false,
    }
}

fn is_link_below(l: Link, m: Link) -> bool
    ensures { result ≡ is_link_below l m }
{
    match m.form {
        LinkForm::Unlinked => true,
        LinkForm::Whole | LinkForm::Low | LinkForm::Up | LinkForm::Sign => {
            l.distance == m.distance
                && l.name == m.name
                && form_number(l.form) == form_number(m.form)
        }
    }
}

fn form_number(form: LinkForm) -> u8
    ensures { result ≡ form_number form }
{
    match form {
        LinkForm::Unlinked => 0,
        LinkForm::Whole => 1,
        LinkForm::Low => 2,
        LinkForm::Up => 3,
        LinkForm::Sign => 4,
    }
}
