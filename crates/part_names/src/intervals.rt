ghost use Rattle.std.specs.Prelude.{◌≡◌, ◌++◌, [], ◌∷◌, ◌≤◌, IsTrue, OnOk, OnErr, length};
ghost use Rattle.std.specs.Option.{option_copied};
ghost use Rattle.part_names.specs.Order.{is_held, may_follow, everything};
ghost use Rattle.part_names.specs.Apart.{AreApart, IsReach, holder};

use crate::interval::StoredInterval;
use crate::order::{is_before, is_bound};
use crate::place::PLACE_LIMIT;
use std::alloc::{AllocError, Global};
use std::marker::Model;

/// Intervals in order, with strings between them. Contracts see the list.
#[derive(Drop)]
pub(crate) struct Intervals {
    // That one interval holds all strings, whatever is in the list: to say so takes no memory.
    all: bool,
    list: Vec<StoredInterval>,
}

impl Model for Intervals {
    ghost use Rattle.std.specs.Prelude.{List, [], ◌∷◌, cond};
    ghost use Rattle.std.specs.Coded.{coded_list};
    ghost use Rattle.part_names.specs.Order.{Interval, interval_code, everything};
    ghost use Rattle.part_names.specs.Apart.{AreApart};

    ghost Value = { List Interval };

    ghost coded = { coded_list interval_code };

    ghost view = { λ v. cond v.all (everything ∷ []) v.list.items };

    ghost invariant = { λ v. AreApart v.list.items };
}

impl Intervals {
    /// None.
    pub(crate) fn none(alloc: Global) -> Intervals
        ensures { result ≡ [] }
    {
        Intervals {
            all: false,
            list: Vec::new(alloc),
        }
    }

    /// One that holds all strings.
    pub(crate) fn all(alloc: Global) -> Intervals
        ensures { result ≡ everything ∷ [] }
    {
        Intervals {
            all: true,
            list: Vec::new(alloc),
        }
    }

    /// Makes it one that holds all strings.
    pub(crate) fn hold_all(&mut self)
        ensures { self.new ≡ everything ∷ [] }
    {
        self.all = true;
    }

    /// True if one holds a string, in the logarithm of their number.
    pub(crate) fn hold(&self, at: &[u8]) -> bool
        ensures { result ≡ is_held self.now at.now }
    {
        self.all || holder(&self.list, at).is_some()
    }

    /// The first string from one on that none holds, in the logarithm of their number.
    pub(crate) fn reach<'a>(&'a self, from: &'a [u8]) -> Option<&'a [u8]>
        requires { length from.now ≤ PLACE_LIMIT }
        ensures { IsReach self.now from.now (option_copied result) }
    {
        if self.all {
            return None;
        }
        match holder(&self.list, from) {
            Some(interval) => interval.hi(),
            None => Some(from),
        }
    }

    /// True if an interval may be added.
    pub(crate) fn may_add(&self, lo: &[u8], hi: Option<&[u8]>) -> bool
        ensures { result ≡ may_follow self.now lo.now (option_copied hi.entry) }
    {
        if self.all || !is_bound(Some(lo)) || !is_bound(hi) || !is_before(lo, hi) {
            return false;
        }
        match self.list.last() {
            Some(interval) => interval.ends_below(lo),
            None => true,
        }
    }

    /// Adds an interval.
    pub(crate) fn add(
        &mut self,
        alloc: Global,
        lo: &[u8],
        hi: Option<&[u8]>,
    ) -> Result<(), AllocError>
        requires { IsTrue (may_follow self.old lo.now (option_copied hi)) }
        ensures ok { OnOk result (self.new ≡ self.old ++ record { lo = lo.now; hi = option_copied hi.entry } ∷ []) }
        ensures err { OnErr result (self.new ≡ self.old) }
    {
        let interval = StoredInterval::new(alloc, lo, hi)?;
        self.list.push(interval)?;
        Ok(())
    }
}

/// The interval that holds a string, in the logarithm of their number.
fn holder<'a>(list: &'a [StoredInterval], at: &[u8]) -> Option<&'a StoredInterval>
    requires { AreApart list.now }
    ensures { option_copied result ≡ holder list.now at.now }
{
    let n = list.partition_point(|interval| interval.ends_upto(at));
    match list.get(n) {
        Some(interval) if interval.holds(at) => Some(interval),
        _ => None,
    }
}
