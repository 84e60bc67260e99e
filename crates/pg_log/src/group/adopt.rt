//! A log that becomes another list: what both begin with stays, and only the rest is run.

ghost use Rattle.std.specs.Prelude.{◌≡◌, ◌<◌, ◌≤◌, ◌+◌, ◌∷◌, ◌++◌, ◌⊎◌, ◌↔◌, [], Some, None, IsTrue, IfOk, IfErr, OnOk};
ghost use Rattle.std.specs.Prelude.{OnErr, Ok, Err, length, take, vec_capacity};
ghost use Rattle.std.specs.FinMap as fin;
ghost use mathlib.Core.List.{IsPrefix};
ghost use Rattle.pg_log.specs.Log.{fold};
ghost use Rattle.pg_log.specs.Refusals.{refusal, first_refusal, SomeCanRun, Refuses};
ghost use Rattle.pg_log.specs.Adopting.{IsCommonBeginning, rest_refusal, RestRefuses, AdoptRefuses};
ghost use Rattle.pg_log.specs.Places.{ArePlaces, HasRoom, RoomStays};
ghost use Rattle.pg_log.specs.Entries.{AreEntries, KeepsLog, requests_of};

use crate::classes::Classes;
use crate::entry::Entry;
use crate::group::Group;
use crate::group::append::{entry_of_copy, run_after};
use crate::group::log::Log;
use crate::log_error::LogError;
use crate::request::Request;
use interp::ClassTable;
use object_store::Objects;
use std::alloc::Global;
use std::mem;
use txn::undo;

impl<C: Classes> Group<C> {
    /// Makes the log this list, and gives the length of the beginning that the old log and the list
    /// have in common. The log's entries past it are undone, the last one first, and only the
    /// list's rest is run. It refuses as `replay` refuses the list, by a request of the rest. A
    /// refusal leaves the group as it was.
    ///
    /// The table is that of the earlier calls, or that one with classes added. It costs a
    /// comparison of the lists, the undoing of the entries past the common beginning, and the runs
    /// of the rest: a copy of the objects is a pointer, and entries and index of the common
    /// beginning stay in place.
    pub fn adopt(&mut self, table: &ClassTable, list: &[Request]) -> Result<usize, LogError>
        requires { IsPrefix table.now C.classes }
        ensures common { IfOk result (λ k. IsCommonBeginning self.old list.now k) }
        ensures ok { OnOk result (self.new ≡ list.now) }
        ensures ran { IfOk result (λ k. rest_refusal table.now list.now k ≡ None) }
        ensures refused { OnErr result (self.new ≡ self.old) }
        ensures err { IfErr result (λ e. AdoptRefuses table.now self.old list.now e) }
    {
        let common = common_beginning(self.entries(), list);
        self.change_from(table, list, common)?;
        Ok(common)
    }

    /// True if the log begins with these requests. It compares the two up to the first difference.
    pub fn begins_with(&self, list: &[Request]) -> bool
        ensures { IsTrue result ↔ IsPrefix list.now self.now }
    {
        common_beginning(self.entries(), list) == list.len()
    }

    /// Replays a list in place of the log.
    fn start_over(&mut self, table: &ClassTable, list: &[Request]) -> Result<(), LogError>
        requires { IsPrefix table.now C.classes }
        ensures ok { OnOk result ((self.new ≡ list.now) × (first_refusal table.now list.now ≡ None)) }
        ensures refused { OnErr result (self.new ≡ self.old) }
        ensures err { IfErr result (λ e. (first_refusal table.now list.now ≡ Some e) ⊎
            ((e ≡ LogError.NoMemory) × SomeCanRun table.now list.now)) }
    {
        *self = Self::replay(self.log.alloc, table, list)?;
        Ok(())
    }

    /// Replaces the log's entries from a place on by the list's requests from there on.
    fn change_from(
        &mut self,
        table: &ClassTable,
        list: &[Request],
        at: usize,
    ) -> Result<(), LogError>
        requires table { IsPrefix table.now C.classes }
        requires common { take at self.old ≡ take at list.now }
        requires within { (at ≤ length self.old) × (at ≤ length list.now) }
        ensures ok { OnOk result ((self.new ≡ list.now) × (rest_refusal table.now list.now at ≡ None)) }
        ensures refused { OnErr result (self.new ≡ self.old) }
        ensures err { IfErr result (λ e. RestRefuses table.now list.now at e) }
    {
        if at == 0 {
            return self.start_over(table, list);
        }
        Self::change_end(&mut self.log, table, list, at)
    }

    /// The same, from a place that isn't the first, of a log.
    // Apart from the group: halfway its objects aren't yet those of its entries.
    fn change_end(
        log: &mut Log,
        table: &ClassTable,
        list: &[Request],
        at: usize,
    ) -> Result<(), LogError>
        requires table { IsPrefix table.now C.classes }
        requires kept { KeepsLog C.classes log.old }
        requires common { take at (requests_of log.old.entries.items) ≡ take at list.now }
        requires within { (0 < at) × (at ≤ length log.old.entries.items) × (at ≤ length list.now) }
        ensures ok { OnOk result ((requests_of log.new.entries.items ≡ list.now) ×
            (rest_refusal table.now list.now at ≡ None)) }
        ensures refused { OnErr result (log.new.entries.items ≡ log.old.entries.items) }
        ensures err { IfErr result (λ e. RestRefuses table.now list.now at e) }
        ensures kept { KeepsLog C.classes log.new }
    {
        // Undone on a copy: a refusal halfway leaves the log's objects as they were.
        let Ok(mut objects) = log.objects.copy() else {
            return Err(LogError::NoMemory);
        };
        Self::undo_from(log.alloc, &log.entries, at, &mut objects)?;
        let mut tail = log.entries.split_off(at)?;
        log.places.take_back(&tail);
        // The old objects are kept aside, so that a refusal can put them back.
        mem::swap(&mut log.objects, &mut objects);
        match Self::extend(log, table, list, at) {
            Ok(()) => Ok(()),
            Err(error) => {
                mem::swap(&mut log.objects, &mut objects);
                put_back(log, at, &mut tail);
                Err(error)
            }
        }
    }

    /// Undoes the changes of the entries from a place on, from the last one back.
    fn undo_from(
        alloc: Global,
        entries: &[Entry],
        at: usize,
        objects: &mut Objects,
    ) -> Result<(), LogError>
        requires within { at ≤ length entries.now }
        requires kept { AreEntries C.classes fin.empty entries.now }
        requires folded { objects.old ≡ fold C.classes (requests_of entries.now) }
        ensures ok { OnOk result (objects.new ≡ fold C.classes (take at (requests_of entries.now))) }
        ensures err { IfErr result (λ e. e ≡ LogError.NoMemory) }
    {
        for back in 0..entries.len() - at {
            let entry = &entries[entries.len() - 1 - back];
            undo(alloc, objects, entry.request.object(), &entry.change)?;
        }
        Ok(())
    }

    /// Runs the requests of a list from a place on, after those before it. At a refusal those run
    /// stay.
    fn extend(
        log: &mut Log,
        table: &ClassTable,
        list: &[Request],
        at: usize,
    ) -> Result<(), LogError>
        requires table { IsPrefix table.now C.classes }
        requires kept { KeepsLog C.classes log.old }
        requires begun { requests_of log.old.entries.items ≡ take at list.now }
        requires within { (0 < at) × (at ≤ length list.now) }
        ensures ok { OnOk result ((requests_of log.new.entries.items ≡ list.now) ×
            (rest_refusal table.now list.now at ≡ None)) }
        ensures err { IfErr result (λ e. RestRefuses table.now list.now at e) }
        ensures kept { KeepsLog C.classes log.new }
        ensures begun { IsPrefix log.old.entries.items log.new.entries.items }
        ensures entries_room { vec_capacity log.old.entries ≤ vec_capacity log.new.entries }
        ensures room { RoomStays log.old.places log.new.places }
    {
        for k in at..list.len() {
            Self::extend_by(log, table, &list[k])?;
        }
        Ok(())
    }

    /// Runs a request that may follow a log, and adds a copy of it to the log.
    fn extend_by(log: &mut Log, table: &ClassTable, request: &Request) -> Result<(), LogError>
        requires table { IsPrefix table.now C.classes }
        requires kept { KeepsLog C.classes log.old }
        ensures ok { OnOk result ((requests_of log.new.entries.items ≡ requests_of log.old.entries.items ++
            request.now ∷ []) × (refusal table.now (requests_of log.old.entries.items) request.now ≡ None)) }
        ensures err { IfErr result
            (λ e. Refuses (refusal table.now (requests_of log.old.entries.items) request.now) e) }
        ensures kept { KeepsLog C.classes log.new }
        ensures begun { IsPrefix log.old.entries.items log.new.entries.items }
        ensures entries_room { vec_capacity log.old.entries ≤ vec_capacity log.new.entries }
        ensures room { RoomStays log.old.places log.new.places }
    {
        let outcome = run_after(log, table, request)?;
        let entry = entry_of_copy(request, outcome)?;
        Self::add(log, entry)
    }
}

/// Cuts a log's entries and index back to a place, and puts these entries there again.
fn put_back(log: &mut Log, at: usize, tail: &mut Vec<Entry>)
    requires fits { at ≤ length log.old.entries.items }
    requires places { ArePlaces log.old.places (requests_of log.old.entries.items) }
    requires entries_room { at + length tail.old.items ≤ vec_capacity log.old.entries }
    requires room { HasRoom log.old.places (take at (requests_of log.old.entries.items) ++ requests_of tail.old.items) }
    ensures entries { log.new.entries.items ≡ take at log.old.entries.items ++ tail.old.items }
    ensures places { ArePlaces log.new.places
        (take at (requests_of log.old.entries.items) ++ requests_of tail.old.items) }
    ensures objects { log.new.objects ≡ log.old.objects }
{
    log.places.take_back(&log.entries[at..]);
    log.entries.truncate(at);
    // It needs no memory: the capacity never shrank (`entries_room`), and the tail was there
    // before.
    if log.entries.append(tail).is_err() {
        unreachable!();
    }
    log.places.give_back(log.alloc, &log.entries, at);
}

/// The length of the beginning that a log and a list have in common.
fn common_beginning(entries: &[Entry], list: &[Request]) -> usize
    ensures { IsCommonBeginning (requests_of entries.now) list.now result }
{
    let most = entries.len().min(list.len());
    for k in 0..most {
        if !entries[k].request.is(&list[k]) {
            return k;
        }
    }
    most
}
