//! The picture of a line.
ghost use Rattle.std.specs.Prelude.{◌<◌};

use crate::drawn::text::{bar, push_bars, push_repeated};
use std::alloc::AllocError;

/// An arrow from the column of one place to that of another. One that doesn't arrive ends before
/// its receiver's line.
#[derive(Clone, Copy)]
pub(crate) struct Arrow<'a> {
    pub start: usize,
    pub end: usize,
    pub arrives: bool,
    /// The text on an arrow that is long enough, and the text on a shorter one.
    pub long: &'a str,
    pub short: &'a str,
}

/// The columns before a place.
fn before(stopped: &[bool], place: usize) -> &[bool] {
    &stopped[..place.min(stopped.len())]
}

/// The columns from a place on.
fn from(stopped: &[bool], place: usize) -> &[bool] {
    &stopped[place.min(stopped.len())..]
}

/// The bar of the column of a place.
fn bar_at(stopped: &[bool], place: usize) -> &'static str {
    match stopped.get(place) {
        Some(is_stopped) => bar(*is_stopped),
        None => bar(false),
    }
}

/// A mark at the column of a place.
pub(crate) fn push_mark(
    out: &mut String,
    stopped: &[bool],
    place: usize,
) -> Result<(), AllocError> {
    push_bars(out, before(stopped, place))?;
    // A column is 12 characters wide: its mark or line, and 11 blanks.
    out.push_str("*           ")?;
    push_bars(out, from(from(stopped, place), 1))
}

fn right_head(arrives: bool) -> &'static str {
    // The blanks keep the head of a lost message off the receiver's line.
    if arrives { ">" } else { "x  " }
}

fn left_head(arrives: bool) -> &'static str {
    if arrives { "<" } else { "  x" }
}

/// The width of this number of columns, in characters. Fails as if memory were refused if it is no
/// `usize`.
fn width_of(cells: usize) -> Result<usize, AllocError> {
    cells.checked_mul(12).ok_or(AllocError)
}

/// The label of an arrow of this width.
fn label_on<'a>(width: usize, head: &str, arrow: Arrow<'a>) -> &'a str {
    // 4: the line at the start, the two dashes next to the label, and one more before the head.
    let room = width.saturating_sub(4).saturating_sub(head.len());
    if arrow.long.len() <= room {
        arrow.long
    } else {
        arrow.short
    }
}

/// Fills the rest of a width after a head and a label.
fn push_rest(
    out: &mut String,
    width: usize,
    head: &str,
    label: &str,
    filler: &str,
) -> Result<(), AllocError> {
    let left = width.saturating_sub(3).saturating_sub(head.len());
    push_repeated(out, left.saturating_sub(label.len()), filler)
}

fn push_to_right(
    out: &mut String,
    start: &str,
    head: &str,
    width: usize,
    label: &str,
) -> Result<(), AllocError> {
    out.push_str(start)?;
    out.push_str("--")?;
    out.push_str(label)?;
    push_rest(out, width, head, label, "-")?;
    out.push_str(head)
}

fn push_to_left(
    out: &mut String,
    start: &str,
    head: &str,
    width: usize,
    label: &str,
) -> Result<(), AllocError> {
    out.push_str(start)?;
    out.push_str(head)?;
    push_rest(out, width, head, label, "-")?;
    out.push_str(label)?;
    out.push_str("--")
}

fn push_to_itself(
    out: &mut String,
    start: &str,
    head: &str,
    label: &str,
) -> Result<(), AllocError> {
    out.push_str(start)?;
    out.push_str(head)?;
    out.push_str("--")?;
    out.push_str(label)?;
    push_rest(out, 12, head, label, " ")
}

/// An arrow to a column further right.
fn push_right(out: &mut String, stopped: &[bool], arrow: Arrow<'_>) -> Result<(), AllocError>
    requires { arrow.start < arrow.end }
{
    let head = right_head(arrow.arrives);
    let width = width_of(arrow.end - arrow.start)?;
    push_bars(out, before(stopped, arrow.start))?;
    let label = label_on(width, head, arrow);
    push_to_right(out, bar_at(stopped, arrow.start), head, width, label)?;
    push_bars(out, from(stopped, arrow.end))
}

/// An arrow to a column further left.
fn push_left(out: &mut String, stopped: &[bool], arrow: Arrow<'_>) -> Result<(), AllocError>
    requires { arrow.end < arrow.start }
{
    let head = left_head(arrow.arrives);
    let width = width_of(arrow.start - arrow.end)?;
    push_bars(out, before(stopped, arrow.end))?;
    let label = label_on(width, head, arrow);
    push_to_left(out, bar_at(stopped, arrow.end), head, width, label)?;
    push_bars(out, from(stopped, arrow.start))
}

/// An arrow from a column to itself.
fn push_round(out: &mut String, stopped: &[bool], arrow: Arrow<'_>) -> Result<(), AllocError> {
    let head = left_head(arrow.arrives);
    push_bars(out, before(stopped, arrow.start))?;
    let label = label_on(12, head, arrow);
    push_to_itself(out, bar_at(stopped, arrow.start), head, label)?;
    push_bars(out, from(from(stopped, arrow.start), 1))
}

/// An arrow between columns.
pub(crate) fn push_arrow(
    out: &mut String,
    stopped: &[bool],
    arrow: Arrow<'_>,
) -> Result<(), AllocError> {
    if arrow.start < arrow.end {
        push_right(out, stopped, arrow)
    } else if arrow.end < arrow.start {
        push_left(out, stopped, arrow)
    } else {
        push_round(out, stopped, arrow)
    }
}
