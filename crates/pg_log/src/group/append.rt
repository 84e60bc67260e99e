//! A log with one request more.

ghost use Rattle.std.specs.Int.{w64, cast_unsigned};
ghost use Rattle.std.specs.Prelude.{◌≡◌, ◌<◌, ◌≤◌, ◌∷◌, ◌++◌, ◌⊎◌, [], List, length, vec_len, vec_capacity, IfOk};
ghost use Rattle.std.specs.Prelude.{IfErr, OnOk, OnErr, Some, None, Ok, Err};
ghost use mathlib.Core.List.{IsPrefix};
ghost use Rattle.bpf_decode.specs.Class.{ClassMethod};
ghost use Rattle.bpf_machine.specs.Safe.{IsSafe};
ghost use Rattle.std.specs.Option.{option_copied};
ghost use Rattle.pg_log.specs.Requests.{ClientRequest};
ghost use Rattle.pg_log.specs.Log.{Legal, NumbersRise, fold, reply_at};
ghost use Rattle.pg_log.specs.Places.{ArePlaces, RoomStays};
ghost use Rattle.pg_log.specs.Refusals.{place_of, refusal, Refuses, append_answer, list_after};
ghost use Rattle.pg_log.specs.Entries.{IsOutcome, IsOutcomeOn, IsSafeRequest, IsNextEntry, Keeps, KeepsLog};
ghost use Rattle.pg_log.specs.Entries.{requests_of};

use crate::class_test::method_of;
use crate::classes::Classes;
use crate::entry::Entry;
use crate::group::log::Log;
use crate::group::{Group, LOG_LIMIT};
use crate::log_error::LogError;
use crate::request::Request;
use bpf_machine::outcomes;
use interp::{ClassTable, Outcome, Room, VerifiedMethod};
use object_store::Object;
use txn::apply;

impl<C: Classes> Group<C> {
    /// Runs a request and logs it: gives its place. A logged pair of client and number gives its
    /// old place and changes nothing, whatever else the request holds, also on a full log. It
    /// refuses by, the first that applies: `LogFull` at 65,536 entries; `StaleNumber` if a greater
    /// number of the client is logged; `NoClass`, `NoMethod` and `InputTooLong` by the given table;
    /// `NoMemory`. A refusal leaves the group as it was.
    ///
    /// The table is that of the earlier calls, or that one with classes added.
    ///
    /// It costs the call that it runs, a logarithm of the number of clients and one of the number
    /// of objects; no object is copied. A logged pair runs nothing, and costs a logarithm of the
    /// number of clients and one of the client's requests.
    pub fn append(&mut self, table: &ClassTable, request: Request) -> Result<usize, LogError>
        requires { IsPrefix table.now C.classes }
        // The answer by the list; want of memory only if the request would be added.
        ensures answer { (result ≡ append_answer table.now self.old request)
            ⊎ ((result ≡ Err LogError.NoMemory) × (place_of request.client request.number self.old ≡ None) ×
            (refusal table.now self.old request ≡ None)) }
        ensures ok { OnOk result (self.new ≡ list_after
            (place_of request.client request.number self.old) self.old request) }
        ensures refused { OnErr result (self.new ≡ self.old) }
    {
        if let Some(place) = self.place(&request) {
            return Ok(place);
        }
        self.append_new(table, request)
    }

    /// The place at which a request's client and number are logged.
    fn place(&self, request: &Request) -> Option<usize>
        ensures { result ≡ place_of request.now.client request.now.number self.now }
    {
        self.log.places.place(request.client(), request.number())
    }

    /// Runs a request whose pair isn't logged, and logs it.
    fn append_new(&mut self, table: &ClassTable, request: Request) -> Result<usize, LogError>
        requires table { IsPrefix table.now C.classes }
        requires none { place_of request.client request.number self.old ≡ None }
        ensures answer { (result ≡ append_answer table.now self.old request)
            ⊎ ((result ≡ Err LogError.NoMemory) × (place_of request.client request.number self.old ≡ None) ×
            (refusal table.now self.old request ≡ None)) }
        ensures ok { OnOk result (self.new ≡ list_after
            (place_of request.client request.number self.old) self.old request) }
        ensures refused { OnErr result (self.new ≡ self.old) }
    {
        let entry = self.next_entry(table, request)?;
        self.keep(entry)
    }

    /// The entry that a request would be, with its reply and the change of its object. It leaves
    /// the group as it was, and refuses as `append` does if the request's pair isn't logged; a pair
    /// that is logged is `StaleNumber`, on a full log `LogFull`. It costs the call.
    ///
    /// The table is that of the earlier calls, or that one with classes added.
    pub fn next_entry(&mut self, table: &ClassTable, request: Request) -> Result<Entry, LogError>
        requires { IsPrefix table.now C.classes }
        ensures next { IfOk result (λ e. IsNextEntry C.classes self.old e) }
        ensures request { IfOk result (λ e. e.request ≡ request) }
        ensures unrefused { IfOk result (λ _. refusal table.now self.old request ≡ None) }
        ensures reply { IfOk result (λ e. reply_at C.classes (self.old ++ request ∷ []) (length self.old) ≡
            Some (record { code = cast_unsigned w64 e.code; output = e.output.items })) }
        ensures err { IfErr result (λ e. Refuses (refusal table.now self.old request) e) }
        ensures same { self.new ≡ self.old }
    {
        let outcome = self.run(table, &request)?;
        Ok(entry_of(request, outcome))
    }

    /// The same of an equal request, which is copied once nothing refuses it.
    pub fn next_entry_of(
        &mut self,
        table: &ClassTable,
        request: &Request,
    ) -> Result<Entry, LogError>
        requires { IsPrefix table.now C.classes }
        ensures next { IfOk result (λ e. IsNextEntry C.classes self.old e) }
        ensures request { IfOk result (λ e. e.request ≡ request.now) }
        ensures unrefused { IfOk result (λ _. refusal table.now self.old request.now ≡ None) }
        ensures err { IfErr result (λ e. Refuses (refusal table.now self.old request.now) e) }
        ensures same { self.new ≡ self.old }
    {
        let outcome = self.run(table, request)?;
        entry_of_copy(request, outcome)
    }

    /// Runs a request that may follow the log on its object, and gives the outcome. It leaves the
    /// group as it was.
    pub(crate) fn run(&mut self, table: &ClassTable, request: &Request) -> Result<Outcome, LogError>
        ensures ok { IfOk result (λ o. (refusal table.now self.old request.now ≡ None) ×
            IsOutcomeOn table.now (fold C.classes self.old) request.now o.code o.output.items o.change) }
        ensures err { IfErr result (λ e. Refuses (refusal table.now self.old request.now) e) }
        ensures same { self.new ≡ self.old }
        ensures safe { IfOk result (λ _. IsSafeRequest table.now request.now) }
        ensures legal { Legal C.classes self.old }
    {
        run_after(&mut self.log, table, request)
    }

    /// Adds an entry that may follow the log, as `next_entry` gives it, and gives its place. It
    /// refuses by `NoMemory` alone, and then leaves the group as it was: memory is taken first, for
    /// the log, the index and the objects, in this order.
    pub fn keep(&mut self, entry: Entry) -> Result<usize, LogError>
        requires { IsNextEntry C.classes self.old entry }
        ensures ok { IfOk result (λ place. (place ≡ length self.old) × (self.new ≡ self.old ++ entry.request ∷ [])) }
        ensures err { IfErr result (λ e. (e ≡ LogError.NoMemory) × (self.new ≡ self.old)) }
    {
        let place = self.log.entries.len();
        Self::add(&mut self.log, entry)?;
        Ok(place)
    }

    /// Adds an entry that may follow a log to it.
    pub(crate) fn add(log: &mut Log, entry: Entry) -> Result<(), LogError>
        requires kept { KeepsLog C.classes log.old }
        requires next { IsNextEntry C.classes (requests_of log.old.entries.items) entry }
        ensures ok { OnOk result (log.new.entries.items ≡ log.old.entries.items ++ entry ∷ []) }
        ensures err { IfErr result (λ e. (e ≡ LogError.NoMemory) × (log.new.entries.items ≡ log.old.entries.items)) }
        ensures kept { KeepsLog C.classes log.new }
        ensures entries_room { vec_capacity log.old.entries ≤ vec_capacity log.new.entries }
        ensures room { RoomStays log.old.places log.new.places }
    {
        Self::admit(log, &entry)?;
        log.entries.push_reserved(entry);
        Ok(())
    }

    /// Makes room for an entry that may follow a log, and changes the log's objects and index to
    /// those with it.
    fn admit(log: &mut Log, entry: &Entry) -> Result<(), LogError>
        requires kept { KeepsLog C.classes log.old }
        requires next { IsNextEntry C.classes (requests_of log.old.entries.items) entry.now }
        ensures ok { OnOk result (Keeps C.classes
            (log.old.entries.items ++ entry.now ∷ []) log.new.objects log.new.places) }
        ensures reserved { OnOk result (vec_len log.new.entries < vec_capacity log.new.entries) }
        ensures err { IfErr result (λ e. e ≡ LogError.NoMemory) }
        ensures stays { OnErr result (KeepsLog C.classes log.new) }
        ensures entries { log.new.entries.items ≡ log.old.entries.items }
        ensures entries_room { vec_capacity log.old.entries ≤ vec_capacity log.new.entries }
        ensures room { RoomStays log.old.places log.new.places }
    {
        // The log's room comes first: once index and objects have changed, the push can't fail.
        log.entries.reserve(1)?;
        Self::put(log, entry)
    }

    /// Changes a log's objects and index to those with one entry more, which may follow it.
    fn put(log: &mut Log, entry: &Entry) -> Result<(), LogError>
        requires kept { KeepsLog C.classes log.old }
        requires next { IsNextEntry C.classes (requests_of log.old.entries.items) entry.now }
        ensures ok { OnOk result (Keeps C.classes
            (log.old.entries.items ++ entry.now ∷ []) log.new.objects log.new.places) }
        ensures err { IfErr result (λ e. e ≡ LogError.NoMemory) }
        ensures stays { OnErr result (KeepsLog C.classes log.new) }
        ensures entries { log.new.entries ≡ log.old.entries }
        ensures room { RoomStays log.old.places log.new.places }
    {
        let client = entry.request.client();
        let number = entry.request.number();
        let place = log.entries.len();
        log.places.add(log.alloc, client, number, place)?;
        let name = entry.request.object();
        let applied = apply(log.alloc, &mut log.objects, name, &entry.change);
        if applied.is_err() {
            // The index has the entry already; it is taken back, since the objects weren't changed.
            log.places.remove(client);
            return Err(LogError::NoMemory);
        }
        Ok(())
    }
}

/// Runs a request that may follow a log on its object, and gives the outcome. It runs in the log's
/// room, and leaves the rest as it was. The list is any one of the log's length and index.
pub(crate) fn run_after(
    log: &mut Log,
    table: &ClassTable,
    request: &Request,
) -> Result<Outcome, LogError>
    ensures ok { (list : List ClientRequest) → length list ≡ length log.old.entries.items →
        ArePlaces log.old.places list → NumbersRise list
        → IfOk result (λ o. (refusal table.now list request.now ≡ None) ×
        IsOutcomeOn table.now log.old.objects request.now o.code o.output.items o.change) }
    ensures err { (list : List ClientRequest) → length list ≡ length log.old.entries.items →
        ArePlaces log.old.places list → NumbersRise list
        → IfErr result (λ e. Refuses (refusal table.now list request.now) e) }
    ensures entries { log.new.entries ≡ log.old.entries }
    ensures objects { log.new.objects ≡ log.old.objects }
    ensures places { log.new.places ≡ log.old.places }
    ensures safe { IfOk result (λ _. IsSafeRequest table.now request.now) }
{
    let full = log.entries.len() >= LOG_LIMIT;
    if full {
        return Err(LogError::LogFull);
    }
    if log.places.is_reached(request.client(), request.number()) {
        return Err(LogError::StaleNumber);
    }
    let method = method_of(table, request)?;
    let object = log.objects.get(request.object());
    run_method(&mut log.room, method, object, request)
}

/// The entry of a request and its outcome.
pub(crate) fn entry_of(request: Request, outcome: Outcome) -> Entry
    ensures request { result.request ≡ request }
    ensures code { result.code ≡ outcome.code }
    ensures output { result.output.items ≡ outcome.output.items }
    ensures change { result.change ≡ outcome.change }
{
    Entry {
        request,
        code: outcome.code,
        output: outcome.output,
        change: outcome.change,
    }
}

/// The entry of a copy of a request and its outcome. It refuses by `NoMemory` alone.
pub(crate) fn entry_of_copy(request: &Request, outcome: Outcome) -> Result<Entry, LogError>
    ensures request { IfOk result (λ e. e.request ≡ request.now) }
    ensures code { IfOk result (λ e. e.code ≡ outcome.code) }
    ensures output { IfOk result (λ e. e.output.items ≡ outcome.output.items) }
    ensures change { IfOk result (λ e. e.change ≡ outcome.change) }
    ensures err { IfErr result (λ e. e ≡ LogError.NoMemory) }
{
    let copy = request.copy()?;
    Ok(entry_of(copy, outcome))
}

/// Runs the method of a request on its object, in a room.
fn run_method(
    room: &mut Room,
    method: &VerifiedMethod,
    object: Option<&Object>,
    request: &Request,
) -> Result<Outcome, LogError>
    requires { length request.now.input ≤ method.now.in_cap }
    ensures ok { IfOk result
        (λ o. IsOutcome (Some method.now) (option_copied object.entry) request.now o.code o.output.items o.change) }
    ensures safe { IfOk result (λ _. IsSafe method.now) }
    ensures err { IfErr result (λ e. e ≡ LogError.NoMemory) }
{
    // For the proof: a run's outcome is the one in the first layout of memory.
    outcomes();
    // For the proof: `ops` ensures that the method is verified, and so that it is safe.
    let _ = method.ops();
    match room.call_method(method, object, request.client().get(), request.input()) {
        Ok(outcome) => Ok(outcome),
        Err(_) => Err(LogError::NoMemory),
    }
}
