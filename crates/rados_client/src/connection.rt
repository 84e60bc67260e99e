ghost use Rattle.std.specs.Prelude.{◌≡◌, ◌⊎◌, ◌+◌, ◌-◌, ◌^◌, ◌≤◌, min};
ghost use Rattle.std.specs.Prelude.{IsTrue, IsFalse, IfSome, IfNone, IfOk, OnOk, OnErr};
ghost use Rattle.op_shards.specs.Passes.{Grew};
ghost use Rattle.placement.specs.Placement.{group_of};
ghost use Rattle.osd.specs.Sent.{OnlySent, IsInternalTo};
ghost use Rattle.rados_client.specs.Found.{IsAnswer, IsFound};
ghost use Rattle.rados_client.specs.Session.{KnowsMore};
ghost use Rattle.rados_client.specs.Promise.{IsAnswered, IsAsked, NotAsked, Says, WasAsked};

use crate::exec_error::ExecError;
use crate::exec_reply::ExecReply;
use crate::found::Found;
use crate::patience::Patience;
use commit_board::{Note, Seen};
use group_cell::{Post, Reply as Posted};
use osd::{AskError, ClusterName, Running, Sends};
use pg_log::Request;
use std::marker::Model;
use std::sync::Wait;
use std::thread;

/// The number of turns that the other threads are given after a request was not submitted again.
const TURNS_WHEN_NOT_TAKEN: u32 = 64;

/// A session's connection to its cluster: its token of the board, its sender, and the number of its
/// nudges.
pub(crate) struct Connection<'a, N: ClusterName, R> {
    running: &'a Running<N, R>,
    seen: Seen,
    sends: Sends<N>,
    nudges: u64,
}

impl<N: ClusterName, R> Drop for Connection<'_, N, R> {
    fn drop(self) {
        let Connection {
            running: _,
            seen,
            sends,
            nudges: _,
        } = self;
        drop(seen);
        drop(sends);
    }
}

impl<'a, N: ClusterName, R> Model for Connection<'a, N, R> {
    ghost use Rattle.std.specs.Prelude.{◌≡◌};
    ghost use Rattle.rados_client.specs.Session.{Contact};

    ghost Value = { Contact };

    ghost view = { λ c. record {
      seen = c.seen.lists;
      sends = c.sends;
      nudges = c.nudges;
    } };

    ghost invariant = { λ c. c.seen.board ≡ N.board };
}

impl<'a, N: ClusterName, R: Wait> Connection<'a, N, R> {
    /// The connection of a new session.
    pub fn new(running: &'a Running<N, R>, seen: Seen, sends: Sends<N>) -> Connection<'a, N, R>
        requires { seen.board ≡ N.board }
        ensures { result ≡ record {
          seen = seen.lists;
          sends = sends;
          nudges = 0;
        } }
    {
        Connection {
            running,
            seen,
            sends,
            nudges: 0,
        }
    }

    /// The cluster.
    pub fn running(&self) -> &'a Running<N, R> {
        self.running
    }

    /// The number of times that a request's group was nudged, over all calls.
    pub fn nudges(&self) -> u64
        ensures { result ≡ self.now.nudges }
    {
        self.nudges
    }

    /// A note of what was seen.
    pub fn tell(&mut self) -> Note
        ensures board { result.board ≡ N.board }
        ensures lists { result.lists ≡ self.old.seen }
        ensures same { self.new ≡ self.old }
    {
        self.running.board().tell(&mut self.seen)
    }

    /// Knows from now on what the note knew, too.
    pub fn hear(&mut self, note: Note)
        requires { note.board ≡ N.board }
        ensures known { KnowsMore self.old.seen self.new.seen }
        ensures heard { KnowsMore note.lists self.new.seen }
        ensures sends { self.new.sends ≡ self.old.sends }
    {
        self.running.board().meet(&mut self.seen, note);
    }

    /// Asks for the request until it is answered or the tries are used up: the first submit is one,
    /// and each later submit and each look. None if memory was refused before the first submit.
    pub fn ask(&mut self, request: &Request, tries: u32) -> Option<Result<ExecReply, ExecError>>
        ensures none { IfNone result (self.new ≡ self.old) }
        ensures some { IfSome result (IsAsked N.classes self.old self.new request.now) }
    {
        let mut patience = match self.submit(request) {
            Ok(()) => Patience::after_taken(),
            Err(AskError::NoRoom) => Patience::after_no_room(),
            Err(AskError::NoMemory) => return None,
        };
        for _ in 1..tries {
            if let Some(answer) = self.try_once(request, &mut patience) {
                return Some(answer);
            }
        }
        Some(Err(patience.end()))
    }

    /// One try: the request is submitted again if that is due, else the mailbox is looked into.
    /// Some if the request is answered.
    fn try_once(
        &mut self,
        request: &Request,
        patience: &mut Patience,
    ) -> Option<Result<ExecReply, ExecError>>
        ensures seen { KnowsMore self.old.seen self.new.seen }
        ensures grew { Grew self.old.sends self.new.sends }
        ensures taken { IsTrue patience.new.taken →
            IsTrue patience.old.taken ⊎ WasAsked self.old.sends self.new.sends request.now }
        ensures untaken { IsFalse patience.new.taken →
            IsFalse patience.old.taken × NotAsked self.old.sends self.new.sends request.now }
        ensures some { IfSome result (IsAnswer N.classes self.new.seen request.now) }
    {
        if patience.is_over() {
            self.submit_again(request, patience);
            return None;
        }
        match self.look(request) {
            Found::Reply(reply) => Some(Ok(reply)),
            Found::Refused(error) => Some(Err(error)),
            Found::Later => {
                patience.wait_when_refused();
                pause(patience.turns());
                None
            }
            Found::Nothing => {
                patience.wait();
                pause(patience.turns());
                None
            }
        }
    }

    /// Submits the request to the newest map's primary.
    fn submit(&mut self, request: &Request) -> Result<(), AskError>
        ensures seen { self.new.seen ≡ self.old.seen }
        ensures nudges { self.new.nudges ≡ self.old.nudges }
        ensures grew { Grew self.old.sends self.new.sends }
        ensures taken { OnOk result (WasAsked self.old.sends self.new.sends request.now) }
        ensures kept { OnErr result (self.new.sends ≡ self.old.sends) }
    {
        self.running.ask(&mut self.sends, request)
    }

    /// Nudges the request's group, and submits the request again, whose next repeat comes after a look.
    fn submit_again(&mut self, request: &Request, patience: &mut Patience)
        ensures looks { 1 ≤ patience.new.looks_left }
        ensures seen { self.new.seen ≡ self.old.seen }
        ensures grew { Grew self.old.sends self.new.sends }
        ensures taken { IsTrue patience.new.taken →
            IsTrue patience.old.taken ⊎ WasAsked self.old.sends self.new.sends request.now }
        ensures untaken { IsFalse patience.new.taken →
            IsFalse patience.old.taken × NotAsked self.old.sends self.new.sends request.now }
    {
        self.nudge(request);
        match self.submit(request) {
            Ok(()) => patience.begin(),
            // No room, or no memory.
            Err(_) => {
                patience.wait_when_not_taken();
                pause(TURNS_WHEN_NOT_TAKEN);
            }
        }
    }

    /// Nudges the request's group. What that submits is for this group.
    fn nudge(&mut self, request: &Request)
        ensures seen { self.new.seen ≡ self.old.seen }
        ensures grew { Grew self.old.sends self.new.sends }
        ensures untaken { NotAsked self.old.sends self.new.sends request.now }
        ensures placed { OnlySent self.old.sends self.new.sends
            (IsInternalTo (group_of request.now.object N.config.groups)) }
        ensures counted { self.new.nudges ≡ min (self.old.nudges + 1) (2 ^ 64 - 1) }
    {
        let group = self.running.group_of(request.object());
        self.running.nudge(&mut self.sends, group);
        self.nudges = self.nudges.saturating_add(1);
    }

    /// Looks into the mailbox. An answer to another request is passed over.
    fn look(&mut self, request: &Request) -> Found
        ensures seen { KnowsMore self.old.seen self.new.seen }
        ensures sends { self.new.sends ≡ self.old.sends }
        ensures found { IsFound N.classes self.new.seen request.now result }
    {
        let Some(post) = self.running.mail(request.client()) else {
            return Found::Nothing;
        };
        if !post.answers(request) {
            return Found::Nothing;
        }
        match post {
            Post::Reply(posted) => Found::Reply(self.accept(posted)),
            Post::Refused(refused) => Found::of_refusal(refused),
        }
    }

    /// Knows from now on what the reply's note knew, too.
    fn accept(&mut self, posted: Posted<N>) -> ExecReply
        ensures seen { KnowsMore self.old.seen self.new.seen }
        ensures sends { self.new.sends ≡ self.old.sends }
        ensures answered { IsAnswered N.classes self.new.seen posted.request result }
    {
        let (place, answer, note) = posted.into_parts();
        self.hear(note);
        ExecReply::new(place, answer)
    }
}

/// Gives the other threads that number of turns.
fn pause(turns: u32) {
    for _ in 0..turns {
        thread::yield_now();
    }
}
