//! The canonical text of a budget and of a head.

ghost use Rattle.std.specs.Prelude.{◌≡◌, ◌++◌, OnOk, string_bytes};
ghost use Rattle.loop_lines.specs.HeadText.{place_name, kind_text, place_text, more_text, head_line, budget_line};

use loop_heads::{HeadPlace, PlaceKind};
use std::alloc::AllocError;

/// A place's name.
fn push_name(out: &mut String, number: u8) -> Result<(), AllocError>
    ensures { OnOk result (string_bytes out.new ≡ string_bytes out.old ++ place_name number) }
{
    if number <= 9 {
        write!(out, "r{number}")
    } else {
        let slot = number.saturating_sub(11);
        write!(out, "s{slot}")
    }
}

/// What is declared of a place.
fn push_kind(out: &mut String, kind: PlaceKind) -> Result<(), AllocError>
    ensures { OnOk result (string_bytes out.new ≡ string_bytes out.old ++ kind_text kind) }
{
    match kind {
        PlaceKind::Unset => out.push_str("unset"),
        PlaceKind::Any => out.push_str("any"),
        PlaceKind::Unsigned(a, b) => write!(out, "{a} {b}"),
        PlaceKind::Signed(a, b) => write!(out, "signed {a} {b}"),
        PlaceKind::Input(a, b) => write!(out, "in {a} {b}"),
        PlaceKind::Output(a, b) => write!(out, "out {a} {b}"),
        PlaceKind::Stack(a, b) => write!(out, "stack {a} {b}"),
    }
}

fn push_place(out: &mut String, place: &HeadPlace) -> Result<(), AllocError>
    ensures { OnOk result (string_bytes out.new ≡ string_bytes out.old ++ place_text place.now) }
{
    push_name(out, place.number)?;
    out.push_str(" ")?;
    push_kind(out, place.kind)
}

/// Places that follow others.
fn push_more(out: &mut String, places: &[HeadPlace]) -> Result<(), AllocError>
    ensures { OnOk result (string_bytes out.new ≡ string_bytes out.old ++ more_text places.now) }
{
    for place in places {
        out.push_str(", ")?;
        push_place(out, place)?;
    }
    Ok(())
}

/// Writes a head's line at the end, without a line feed. It fails for want of memory alone, and a
/// part of it may then be written.
pub fn push_head(out: &mut String, places: &[HeadPlace]) -> Result<(), AllocError>
    ensures { OnOk result (string_bytes out.new ≡ string_bytes out.old ++ head_line places.now) }
{
    match places {
        [] => out.push_str(".head"),
        [first, rest @ ..] => {
            out.push_str(".head ")?;
            push_place(out, first)?;
            push_more(out, rest)
        }
    }
}

/// Writes a budget's line at the end, without a line feed. It fails for want of memory alone, and a
/// part of it may then be written.
pub fn push_budget(out: &mut String, budget: u32) -> Result<(), AllocError>
    ensures { OnOk result (string_bytes out.new ≡ string_bytes out.old ++ budget_line budget) }
{
    write!(out, ".budget {budget}")
}
