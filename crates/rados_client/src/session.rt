ghost use Rattle.std.specs.Prelude.{◌≡◌, ◌^◌, ◌-◌, ◌≤◌, ◌++◌, [], suc, None, IfOk, IfErr, MatchOption};
ghost use Rattle.rados_client.specs.Session.{KnowsMore, next_request};
ghost use Rattle.rados_client.specs.Promise.{IsCall, IsRepeat};

use crate::call::Call;
use crate::class_id::ClassId;
use crate::connection::Connection;
use crate::exec_error::ExecError;
use crate::exec_reply::ExecReply;
use crate::open_error::OpenError;
use commit_board::Note;
use object_store::ObjectName;
use osd::{ClusterName, Running};
use pg_log::{ClientId, Request, RequestNumber};
use std::alloc::Global;
use std::marker::Model;
use std::sync::Wait;

/// A client's session of a running cluster. It makes one call after another; a session of another
/// thread makes its own. Contracts see its client, how many numbers it has used up, the request
/// that it sent last, and what it knows.
pub struct Session<'a, N: ClusterName, R> {
    client: ClientId,
    used: u32,
    last: Option<Request>,
    connection: Connection<'a, N, R>,
}

impl<N: ClusterName, R> Drop for Session<'_, N, R> {
    fn drop(self) {
        let Session {
            client: _,
            used: _,
            last,
            connection,
        } = self;
        drop(last);
        drop(connection);
    }
}

impl<'a, N: ClusterName, R> Model for Session<'a, N, R> {
    ghost use Rattle.rados_client.specs.Session.{SessionState};

    ghost Value = { SessionState };

    ghost view = { λ s. record {
      client = s.client;
      used = s.used;
      last = s.last;
      contact = s.connection;
    } };
}

impl<'a, N: ClusterName, R: Wait> Session<'a, N, R> {
    /// Opens a session; the first has client 1, the next 2, and so on, which no clause says. It has
    /// sent nothing and knows nothing. Refused: `TooMany`, after 64; no clause says that it comes
    /// then alone. What a session needs was made with the cluster, so `NoMemory` never comes.
    pub fn open(running: &'a Running<N, R>) -> Result<Session<'a, N, R>, OpenError>
        ensures new { IfOk result (λ s. (s.client ≤ 64) × (s.used ≡ 0) × (s.last ≡ None) × (s.contact.seen ≡ []) ×
            (s.contact.nudges ≡ 0)) }
        ensures refused { IfErr result (λ e. e ≡ OpenError.TooMany) }
    {
        match running.open() {
            Some(opened) => Ok(Session {
                client: opened.client,
                used: 0,
                last: None,
                connection: Connection::new(running, opened.seen, opened.sends),
            }),
            None => Err(OpenError::TooMany),
        }
    }

    /// Its client's number.
    pub fn client(&self) -> ClientId
        ensures { result ≡ self.now.client }
    {
        self.client
    }

    /// The number of times that it nudged a group since it was opened; a call nudges before each
    /// repeat of its request.
    pub fn nudges(&self) -> u64
        ensures { result ≡ self.now.contact.nudges }
    {
        self.connection.nudges()
    }

    /// Calls a method on an object, and waits for the reply in as many tries as the cluster gives a
    /// call. The request has the next number.
    ///
    /// Each call of a session makes the same promise (`IsCall`), of the request that it would send
    /// next. A reply is true: among the lists that the session knows then is one, of some row of
    /// the board, with a legal beginning in which the whole request stands once, at the reply's
    /// place, and is answered there by its method as the reply says; wherever its memory lies, if
    /// the classes are verified (`answers_have_run`). That list begins with all that the session
    /// had seen or been told of the row.
    ///
    /// Refused, the first that applies: `NumbersUsedUp` if the client has sent number 2^32 - 1,
    /// and `NoMemory` if memory for the request is refused; then the session is as it was. After
    /// the first submit the number is used up: by `LogFull`, `StaleNumber`, `NoClass`, `NoMethod`,
    /// `InputTooLong` or `NoMemory` of the node; by `Unanswered` or `NotTaken` if the tries are
    /// used up.
    pub fn exec(
        &mut self,
        alloc: Global,
        object: &ObjectName,
        class: ClassId,
        method: &str,
        input: &[u8],
    ) -> Result<ExecReply, ExecError>
        ensures { IsCall N.classes self.old self.new
            (next_request self.old object.now class method.now input.now) result }
    {
        let call = Call {
            object,
            class,
            method,
            head: input,
            body: &[],
            tail: &[],
        };
        self.call(alloc, &call)
    }

    /// Sends the request that was sent last again, with its number, and waits for the reply as
    /// `exec` does. A request that stands in the history is answered from there, so it never runs
    /// twice. Number and request stay.
    ///
    /// Refused: `NothingSent` exactly if nothing was sent yet; else as `exec`, but for
    /// `NumbersUsedUp`.
    pub fn retry(&mut self) -> Result<ExecReply, ExecError>
        ensures { IsRepeat N.classes self.old self.new result }
    {
        let tries = self.connection.running().config().tries;
        let Some(request) = &self.last else {
            return Err(ExecError::NothingSent);
        };
        match self.connection.ask(request, tries) {
            Some(answer) => answer,
            None => Err(ExecError::NoMemory),
        }
    }

    /// A note of what the session has seen, for another session of the same cluster. It takes no
    /// memory.
    pub fn tell(&mut self) -> Note
        ensures board { result.board ≡ N.board }
        ensures lists { result.lists ≡ self.old.contact.seen }
        ensures same { self.new ≡ self.old }
    {
        self.connection.tell()
    }

    /// Knows from now on what it knew and what the note knew. The note is spent. It takes no
    /// memory.
    pub fn hear(&mut self, note: Note)
        requires { note.board ≡ N.board }
        ensures known { KnowsMore self.old.contact.seen self.new.contact.seen }
        ensures heard { KnowsMore note.lists self.new.contact.seen }
        ensures same { (self.new.client ≡ self.old.client) × (self.new.used ≡ self.old.used) ×
            (self.new.last ≡ self.old.last) }
    {
        self.connection.hear(note);
    }

    /// Makes a call.
    pub(crate) fn call(&mut self, alloc: Global, call: &Call<'_>) -> Result<ExecReply, ExecError>
        ensures { IsCall N.classes self.old self.new
            (next_request self.old call.now.object.now call.now.class call.now.method.now
            ((call.now.head.now ++ call.now.body.now) ++ call.now.tail.now)) result }
    {
        let Some(number) = self.next_number() else {
            return Err(ExecError::NumbersUsedUp);
        };
        match call.request(alloc, self.client, number) {
            Ok(request) => self.send(number, request),
            Err(_) => Err(ExecError::NoMemory),
        }
    }

    /// The number of the next request, if one is left.
    fn next_number(&self) -> Option<RequestNumber>
        ensures { MatchOption result (self.now.used ≡ 2 ^ 32 - 1) (λ n. n ≡ suc self.now.used) }
    {
        RequestNumber::new(self.used.checked_add(1)?)
    }

    /// Sends a new request.
    fn send(&mut self, number: RequestNumber, request: Request) -> Result<ExecReply, ExecError>
        requires { number ≡ suc self.old.used }
        ensures { IsCall N.classes self.old self.new request result }
    {
        let tries = self.connection.running().config().tries;
        match self.connection.ask(&request, tries) {
            Some(answer) => {
                self.used = number.get();
                self.last = Some(request);
                answer
            }
            None => Err(ExecError::NoMemory),
        }
    }
}
