ghost use Rattle.std.specs.Prelude.{◌≡◌};
ghost use Rattle.std.specs.Int.{w64, cast_unsigned};

use group_world::{CallReply, Place};
use std::marker::Model;

/// The reply to a call. Contracts see its place and its answer.
pub struct ExecReply {
    place: Place,
    answer: CallReply,
}

impl Drop for ExecReply {
    fn drop(self) {
        let ExecReply { place: _, answer } = self;
        drop(answer);
    }
}

impl Model for ExecReply {
    ghost use Rattle.rados_client.specs.Session.{PlacedReply};

    ghost Value = { PlacedReply };

    ghost view = { λ r. record {
      place = r.place;
      answer = r.answer;
    } };
}

impl ExecReply {
    pub(crate) fn new(place: Place, answer: CallReply) -> ExecReply
        ensures { result ≡ record {
          place = place;
          answer = answer;
        } }
    {
        ExecReply { place, answer }
    }

    /// Where the call stands in its group's log, from 0 on.
    pub fn place(&self) -> Place
        ensures { result ≡ self.now.place }
    {
        self.place
    }

    /// The code that the method gave; a negative one is an error.
    pub fn code(&self) -> i64
        ensures { cast_unsigned w64 result ≡ self.now.answer.code }
    {
        self.answer.code()
    }

    /// The output that the method gave; empty if the code is negative.
    pub fn output(&self) -> &[u8]
        ensures { result.now ≡ self.now.answer.output }
    {
        self.answer.output()
    }
}
