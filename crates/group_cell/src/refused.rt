ghost use Rattle.std.specs.Prelude.{◌≡◌};
ghost use Rattle.group_world.specs.Told.{IsDeserved};

use crate::board_name::BoardName;
use group_world::HandleError;
use pg_log::Request;
use std::marker::{Model, PhantomData};

/// The refusal of a request. If it is `NoClass`, `NoMethod` or `InputTooLong`, that is so of the
/// request and the loaded classes.
pub struct Refused<N: BoardName> {
    request: Request,
    why: HandleError,
    of: PhantomData<N>,
}

impl<N: BoardName> Drop for Refused<N> {
    fn drop(self) {
        let Refused {
            request,
            why: _,
            of: _,
        } = self;
        drop(request);
    }
}

impl<N: BoardName> Model for Refused<N> {
    ghost use Rattle.group_cell.specs.Posts.{PostedRefusal};
    ghost use Rattle.group_world.specs.Told.{IsDeserved};

    ghost Value = { PostedRefusal };

    ghost view = { λ r. record {
      request = r.request;
      why = r.why;
    } };

    ghost invariant = { λ r. IsDeserved N.classes r.request r.why };
}

impl<N: BoardName> Refused<N> {
    /// The refusal of that request, which is deserved. It takes no memory.
    pub fn new(request: Request, why: HandleError) -> Refused<N>
        requires { IsDeserved N.classes request why }
        ensures { result ≡ record {
          request = request;
          why = why;
        } }
    {
        Refused {
            request,
            why,
            of: PhantomData,
        }
    }

    /// The request that is refused.
    pub fn request(&self) -> &Request
        ensures { result.now ≡ self.now.request }
    {
        &self.request
    }

    /// Why it is refused.
    pub fn why(&self) -> HandleError
        ensures why { result ≡ self.now.why }
        ensures deserved { IsDeserved N.classes self.now.request self.now.why }
    {
        self.why
    }
}
