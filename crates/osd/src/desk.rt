ghost use Rattle.std.specs.Prelude.{◌≡◌, ◌+◌, ◌<◌, [], MatchOption, vec_len};
ghost use Rattle.commit_board.specs.Tokens.{knows};

use crate::name::ClusterName;
use crate::sends::Sends;
use commit_board::{Board, Seen};
use pg_log::ClientId;
use std::marker::Model;

/// The part of a cluster that a session holds.
#[derive(Drop)]
pub struct OpenedSession<N: ClusterName> {
    /// Its client.
    pub client: ClientId,
    /// Its token of the board, which has seen nothing yet.
    pub seen: Seen,
    /// Its sender.
    pub sends: Sends<N>,
}

/// Where sessions are opened. Contracts see how many were.
#[derive(Drop)]
pub(crate) struct Desk<N: ClusterName> {
    seen: Seen,
    sends: Vec<Sends<N>>,
    opened: u32,
}

impl<N: ClusterName> Model for Desk<N> {
    ghost use Rattle.std.specs.Prelude.{◌≡◌, ◌+◌, ℕ, vec_len};

    ghost Value = { ℕ };

    ghost view = { λ d. d.opened };

    ghost invariant = { λ d. (d.seen.board ≡ N.board) × (d.opened + vec_len d.sends ≡ 64) };
}

impl<N: ClusterName> Desk<N> {
    /// The desk before the first session, with a pass for each.
    pub fn new(seen: Seen, sends: Vec<Sends<N>>) -> Desk<N>
        requires seen { seen.board ≡ N.board }
        requires sends { vec_len sends ≡ 64 }
        ensures { result ≡ 0 }
    {
        Desk {
            seen,
            sends,
            opened: 0,
        }
    }

    /// Opens a session: the first is client 1, the next 2, and so on. None after 64.
    pub fn open(&mut self, board: &Board) -> Option<OpenedSession<N>>
        requires { board.now ≡ N.board }
        ensures { MatchOption result
            ((self.old ≡ 64) × (self.new ≡ 64))
            (λ o. (self.old < 64) × (self.new ≡ self.old + 1) × (o.client ≡ self.new)
            × (o.seen ≡ knows N.board [])) }
    {
        let sends = self.sends.pop()?;
        self.opened += 1;
        Some(OpenedSession {
            client: ClientId::new(self.opened).unwrap(),
            seen: board.fresh(&mut self.seen),
            sends,
        })
    }
}
