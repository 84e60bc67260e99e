//! One interval of names, from a place on to another or to the end.

ghost use Rattle.std.specs.Prelude.{◌≡◌, IfOk, not};
ghost use Rattle.std.specs.Option.{option_copied};
ghost use Rattle.part_names.specs.Order.{is_before, holds, ends_below};

use crate::order::{is_before, is_below};
use std::alloc::{AllocError, Global};
use std::marker::Model;

/// An interval of strings, the end of which may be that of all strings. Contracts see `Interval`.
#[derive(Drop)]
pub(crate) struct StoredInterval {
    lo: Vec<u8>,
    hi: Option<Vec<u8>>,
}

impl Model for StoredInterval {
    ghost use Rattle.part_names.specs.Order.{Interval, interval_code};
    ghost use Rattle.std.specs.Option.{option_map};

    ghost Value = { Interval };

    ghost coded = { interval_code };

    ghost view = { λ i. record { lo = i.lo.items; hi = option_map (λ v. v.items) i.hi } };
}

impl StoredInterval {
    /// The strings from `lo` on that are below `hi`.
    pub(crate) fn new(
        alloc: Global,
        lo: &[u8],
        hi: Option<&[u8]>,
    ) -> Result<StoredInterval, AllocError>
        ensures { IfOk result (λ i. i ≡ record { lo = lo.now; hi = option_copied hi.entry }) }
    {
        let lo = Vec::from_slice(alloc, lo)?;
        let hi = match hi {
            Some(hi) => Some(Vec::from_slice(alloc, hi)?),
            None => None,
        };
        Ok(StoredInterval { lo, hi })
    }

    /// The end, none if it is that of all strings.
    pub(crate) fn hi(&self) -> Option<&[u8]>
        ensures { option_copied result ≡ self.now.hi }
    {
        match &self.hi {
            Some(hi) => Some(hi.as_slice()),
            None => None,
        }
    }

    /// True if it holds a string.
    pub(crate) fn holds(&self, at: &[u8]) -> bool
        ensures { result ≡ holds self.now at.now }
    {
        !is_below(at, &self.lo) && is_before(at, self.hi())
    }

    /// True if it ends at or below a string.
    pub(crate) fn ends_upto(&self, at: &[u8]) -> bool
        ensures { result ≡ not (is_before at.now self.now.hi) }
    {
        !is_before(at, self.hi())
    }

    /// True if it ends below a string.
    pub(crate) fn ends_below(&self, at: &[u8]) -> bool
        ensures { result ≡ ends_below self.now.hi at.now }
    {
        match self.hi() {
            Some(hi) => is_below(hi, at),
            None => false,
        }
    }
}
