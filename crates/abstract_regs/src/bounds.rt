//! Whether bytes at an abstract place surely stay in their region.

ghost use Rattle.std.specs.Prelude.{◌≡◌};
ghost use Rattle.abstract_num.specs.Plain.{view};
ghost use Rattle.abstract_regs.specs.Kind.{access_fits, range_fits};

use abstract_num::{Number, Precision, highest, offset_by};

/// True if all of the bytes at that distance from an offset are among the first `size`, by the
/// upper bound of the sum, or if the sum has no number left.
#[inline(always)]
pub fn access_fits(precision: Precision, at: Number, distance: u64, bytes: u64, size: u64) -> bool
    ensures { result ≡ access_fits precision (view at) distance bytes size }
{
    match offset_by(precision, &at, distance) {
        // No number is left, so no run reaches the access: the rule of bounds doesn't refuse it,
        // and the edge after it stays live.
        None => true,
        Some(place) => {
            let first = highest(&place);
            // `first + bytes` could overflow: this form can't.
            first <= size && bytes <= size - first
        }
    }
}

/// True if a range of a length from an offset on is within the first `size` bytes, by the upper
/// bounds of both.
#[inline(always)]
pub fn range_fits(at: Number, length: Number, size: u64) -> bool
    ensures { result ≡ range_fits (view at) (view length) size }
{
    let first = highest(&at);
    first <= size && highest(&length) <= size - first
}
