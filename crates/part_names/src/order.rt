//! The order of strings of bytes.

ghost use Rattle.std.specs.Prelude.{◌≡◌};
ghost use Rattle.std.specs.Option.{option_copied};
ghost use Rattle.part_names.specs.Order.{is_below, is_before, is_bound};

use crate::place::PLACE_LIMIT;
use std::cmp::Ordering;

/// True if a string is below another.
pub(crate) fn is_below(a: &[u8], b: &[u8]) -> bool
    ensures { result ≡ is_below a.now b.now }
{
    match a.cmp(b) {
        Ordering::Less => true,
        Ordering::Equal | Ordering::Greater => false,
    }
}

/// True if a string is below an end, which may be that of all strings.
pub(crate) fn is_before(a: &[u8], end: Option<&[u8]>) -> bool
    ensures { result ≡ is_before a.now (option_copied end.entry) }
{
    match end {
        Some(end) => is_below(a, end),
        None => true,
    }
}

/// True if a bound of an interval has at most 65 bytes, or is the end of all strings.
pub(crate) fn is_bound(bound: Option<&[u8]>) -> bool
    ensures { result ≡ is_bound (option_copied bound.entry) }
{
    match bound {
        Some(bound) => bound.len() <= PLACE_LIMIT,
        None => true,
    }
}
