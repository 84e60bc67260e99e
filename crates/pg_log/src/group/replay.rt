//! A log made anew, by running a list or as a copy of another.

ghost use Rattle.std.specs.Prelude.{◌≡◌, ◌⊎◌, ◌∷◌, ◌++◌, [], IfOk, IfErr, OnOk, Some, None};
ghost use Rattle.std.specs.FinMap as fin;
ghost use mathlib.Core.List.{IsPrefix};
ghost use Rattle.pg_log.specs.Log.{Legal};
ghost use Rattle.pg_log.specs.Refusals.{refusal, first_refusal, SomeCanRun, Refuses};
ghost use Rattle.pg_log.specs.Entries.{AreEntries, AreSafe, requests_of};

use crate::classes::Classes;
use crate::entry::Entry;
use crate::group::Group;
use crate::log_error::LogError;
use crate::request::Request;
use interp::ClassTable;
use std::alloc::Global;

impl<C: Classes> Group<C> {
    /// The group of a list: runs each request in turn. It refuses as `append` refuses the first
    /// request that can't follow those before it, but a pair that is in the list twice is
    /// `StaleNumber`; or by `NoMemory` at a request that can.
    ///
    /// The table is that of the earlier calls, or that one with classes added. It costs as much as
    /// the appends.
    pub fn replay(alloc: Global, table: &ClassTable, list: &[Request]) -> Result<Group<C>, LogError>
        requires { IsPrefix table.now C.classes }
        ensures ok { IfOk result (λ g. (g ≡ list.now) × (first_refusal table.now list.now ≡ None)) }
        ensures err { IfErr result (λ e. (first_refusal table.now list.now ≡ Some e) ⊎
            ((e ≡ LogError.NoMemory) × SomeCanRun table.now list.now)) }
    {
        let mut group = Group::new(alloc);
        group.run_all(table, list)?;
        Ok(group)
    }

    /// Runs each request of a list in turn, in an empty group.
    fn run_all(&mut self, table: &ClassTable, list: &[Request]) -> Result<(), LogError>
        requires table { IsPrefix table.now C.classes }
        requires empty { self.old ≡ [] }
        ensures ok { OnOk result ((self.new ≡ list.now) × (first_refusal table.now list.now ≡ None)) }
        ensures err { IfErr result (λ e. (first_refusal table.now list.now ≡ Some e) ⊎
            ((e ≡ LogError.NoMemory) × SomeCanRun table.now list.now)) }
    {
        for request in list {
            self.run_next(table, request)?;
        }
        Ok(())
    }

    /// Runs a request that may follow the log, and logs a copy of it.
    fn run_next(&mut self, table: &ClassTable, request: &Request) -> Result<(), LogError>
        requires { IsPrefix table.now C.classes }
        ensures ok { OnOk result ((self.new ≡ self.old ++ request.now ∷ []) ×
            (refusal table.now self.old request.now ≡ None)) }
        ensures err { IfErr result (λ e. Refuses (refusal table.now self.old request.now) e) }
    {
        let entry = self.next_entry_of(table, request)?;
        self.keep(entry)?;
        Ok(())
    }

    /// An equal group. It refuses by `NoMemory` alone. It runs nothing, and costs a copy of each
    /// entry and a put of its object, which the copies share.
    pub fn copy(&self, alloc: Global) -> Result<Group<C>, LogError>
        ensures ok { IfOk result (λ g. g ≡ self.now) }
        ensures err { IfErr result (λ e. e ≡ LogError.NoMemory) }
    {
        let mut group = Group::new(alloc);
        group.keep_copies(alloc, self.entries())?;
        Ok(group)
    }

    /// Keeps a copy of each of a log's entries, in an empty group.
    fn keep_copies(&mut self, alloc: Global, entries: &[Entry]) -> Result<(), LogError>
        requires empty { self.old ≡ [] }
        requires legal { Legal C.classes (requests_of entries.now) }
        requires safe { AreSafe C.classes (requests_of entries.now) }
        requires kept { AreEntries C.classes fin.empty entries.now }
        ensures ok { OnOk result (self.new ≡ requests_of entries.now) }
        ensures err { IfErr result (λ e. e ≡ LogError.NoMemory) }
    {
        for entry in entries {
            let copy = entry.copy(alloc)?;
            self.keep(copy)?;
        }
        Ok(())
    }
}
