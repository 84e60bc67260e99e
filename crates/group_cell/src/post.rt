ghost use Rattle.std.specs.Prelude.{◌≡◌, ◌↔◌, IsTrue};

use crate::board_name::BoardName;
use crate::refused::Refused;
use crate::reply::Reply;
use pg_log::Request;

/// A message to a client.
#[derive(Drop)]
pub enum Post<N: BoardName> {
    /// The answer to a committed request.
    Reply(Reply<N>),
    /// Why a request is refused.
    Refused(Refused<N>),
}

impl<N: BoardName> Post<N> {
    ghost use Rattle.group_cell.specs.Answering.{request_in};

    /// The request that it answers.
    pub fn request(&self) -> &Request
        ensures { result.now ≡ request_in self.now }
    {
        match self {
            Post::Reply(reply) => reply.request(),
            Post::Refused(refused) => refused.request(),
        }
    }

    /// True if it answers that request: the whole of it, and not only its client and number.
    pub fn answers(&self, request: &Request) -> bool
        ensures { IsTrue result ↔ (request_in self.now ≡ request.now) }
    {
        self.request().is(request)
    }
}
