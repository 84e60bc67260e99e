//! Tells while a run goes on how far it is. Nothing is proved of what it tells, but for the line of a
//! call (`line_of`).
ghost use Rattle.std.specs.Prelude.{IfSome, IsTrue};
ghost use Rattle.placement.specs.Placement.{is_group_count};
ghost use Rattle.std.proofs.Props.{props};

use crate::caller::Caller;
use crate::figures::{Figures, shown_by};
use crate::shown::line_of;
use cluster_file::{PlannedCall, PlannedStep};
use osd::ClusterName;
use std::alloc::Global;
use std::io;
use std::time::Clock;

/// Nanoseconds between two lines at least.
const SECOND: u64 = 1_000_000_000;

/// Nanoseconds that the calls between two looks at the clock are to take at least.
const LOOK: u64 = 125_000_000;

/// The number of steps before the first look at the clock.
const FIRST_PART: usize = 64;

/// The most clients of a file.
const CLIENT_LIMIT: usize = 64;

/// Where a run is measured, and to where a line a second goes, if it is wanted: each below the one
/// before, or over it. Lines come between calls: those of a part of the steps are answered before
/// the clock is looked at, and a part has twice as many steps as the one before while it takes less
/// than an eighth of a second.
#[derive(Drop)]
pub struct Meter<'a, E> {
    figures: &'a Figures,
    err: Option<&'a mut E>,
    /// True if a line is written over the one before, as a terminal shows it.
    is_in_place: bool,
    /// True if a line was written that no line feed ends.
    is_open: bool,
    /// True if the line of each call is written too, once its part of the steps has ended.
    is_followed: bool,
    /// The number of groups, if the lines of calls show what was asked.
    groups: Option<u64>,
    /// Of each client, the number of its calls whose lines came.
    places: [usize; CLIENT_LIMIT],
    part: usize,
    all: u64,
    looked: u64,
    told: u64,
    ghost counted: { IfSome groups (λ n. IsTrue (is_group_count n)) } by { Prim.hlevel props },
}

impl<'a, E> Meter<'a, E> {
    /// Of a run that hasn't begun.
    pub fn new(figures: &'a Figures, err: Option<&'a mut E>) -> Meter<'a, E> {
        Meter {
            figures,
            err,
            is_in_place: false,
            is_open: false,
            is_followed: false,
            groups: None,
            places: [0; CLIENT_LIMIT],
            part: FIRST_PART,
            all: 0,
            looked: 0,
            told: 0,
        }
    }

    /// Has each line written over the one before.
    pub fn tell_in_place(&mut self) {
        self.is_in_place = true;
    }

    /// Has the line of each call written too.
    pub fn follow(&mut self) {
        self.is_followed = true;
    }

    /// If the number of groups is given, has the lines of calls show what was asked.
    pub(crate) fn show(&mut self, groups: Option<u64>)
        requires { IfSome groups (λ n. IsTrue (is_group_count n)) }
    {
        self.groups = groups;
    }

    /// The place of a client's next call among its calls.
    fn next_place(&mut self, client: usize) -> usize {
        match self.places.get_mut(client.saturating_sub(1)) {
            Some(next) => {
                let place = *next;
                *next = place.saturating_add(1);
                place
            }
            None => 0,
        }
    }

    /// To where the run is measured.
    pub(crate) fn figures(&self) -> &'a Figures {
        self.figures
    }

    /// True if it is time to look at the clock, after that many steps.
    pub fn is_due(&self, steps: usize) -> bool {
        self.err.is_some() && steps >= self.part
    }
}

impl<E: io::Write> Meter<'_, E> {
    /// Notes how many calls there are, and that none was made yet. If no line is wanted, the clock
    /// isn't read.
    pub fn begin<C: Clock>(&mut self, clock: &C, all: u64) {
        if self.err.is_some() {
            self.all = all;
            self.looked = shown_by(clock);
            self.told = self.looked;
        }
    }

    /// Looks at the clock, and tells how many of all calls are answered, if a second has passed.
    pub fn look<C: Clock>(&mut self, clock: &C) {
        let now = shown_by(clock);
        if now.saturating_sub(self.looked) < LOOK {
            self.part = self.part.saturating_mul(2);
        }
        self.looked = now;
        if now.saturating_sub(self.told) >= SECOND {
            self.told = now;
            self.tell();
        }
    }

    /// Writes the line of a client's next call. It is left out if memory for it is refused.
    fn tell_call<N: ClusterName, R>(
        &mut self,
        alloc: Global,
        call: &PlannedCall,
        callers: &[Caller<'_, N, R>],
    ) {
        let client = call.client().get() as usize;
        let place = self.next_place(client);
        let Some(caller) = callers.get(client.saturating_sub(1)) else {
            return;
        };
        let Some(end) = caller.end(place) else {
            return;
        };
        if let Ok(line) = line_of(alloc, self.groups, (client, place), call, end) {
            if let Some(err) = &mut self.err {
                let _ = err.write_all(line.as_bytes());
            }
        }
    }

    /// Writes the lines of the calls of these steps, which have ended, if calls are followed.
    pub(crate) fn tell_calls<N: ClusterName, R>(
        &mut self,
        alloc: Global,
        steps: &[PlannedStep],
        callers: &[Caller<'_, N, R>],
    ) {
        if !self.is_followed {
            return;
        }
        for step in steps {
            if let PlannedStep::Call(call) = step {
                self.tell_call(alloc, call, callers);
            }
        }
    }

    /// Writes how many of all calls are answered, unless the lines of calls would stand in that.
    fn tell(&mut self) {
        if self.is_in_place && self.is_followed {
            return;
        }
        let (calls, all) = (self.figures.calls(), self.all);
        let (begin, end) = if self.is_in_place {
            ("\r", "")
        } else {
            ("", "\n")
        };
        if let Some(err) = &mut self.err {
            let _ = write!(err, "{begin}answered {calls} of {all}{end}");
            self.is_open = self.is_in_place;
        }
    }

    /// Ends a line that was written over others, with the last count.
    pub fn end(&mut self) {
        if self.is_open {
            self.tell();
            self.is_open = false;
            if let Some(err) = &mut self.err {
                let _ = write!(err, "\n");
            }
        }
    }
}
