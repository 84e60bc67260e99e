//! Bounds that make an access or a range fit its region.
ghost use Rattle.std.specs.Prelude.{◌≡◌, ◌≢◌, ◌↔◌, ◌≤◌, ◌<◌, Some, true, IfNone, IfSome};
ghost use Rattle.abstract_num.specs.Plain.{Plain, view};
ghost use Rattle.abstract_regs.specs.Kind.{places_fit, range_fits};

use abstract_num::Number;

/// The greatest place in a region of that size at which so many bytes may begin; none if it has
/// fewer.
pub(crate) fn last_place(bytes: u64, size: u64) -> Option<u64>
    ensures fits { IfSome result (λ last. (place : Plain) →
        (places_fit (Some place) bytes size ≡ true) ↔ (place.high ≤ last)) }
    ensures none { IfNone result (size < bytes) }
{
    size.checked_sub(bytes)
}

/// The greatest length that a range may have in a region of that size; none if it may begin past
/// its end.
pub(crate) fn most_bytes(at: &Number, size: u64) -> Option<u64>
    ensures fits { IfSome result (λ most. (length : Plain) →
        (range_fits (view at.now) length size ≡ true) ↔ (length.high ≤ most)) }
    ensures none { IfNone result ((length : Plain) → range_fits (view at.now) length size ≢ true) }
{
    size.checked_sub(at.first.high)
}
