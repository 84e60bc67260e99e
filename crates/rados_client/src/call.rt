ghost use Rattle.std.specs.Prelude.{◌≡◌, ◌++◌, IfOk};

use crate::class_id::ClassId;
use object_store::ObjectName;
use pg_log::{ClientId, Request, RequestNumber, RequestParts};
use std::alloc::{AllocError, Global};

/// A call of a method. Its input is head, body and tail, one after another.
#[derive(Clone, Copy)]
pub(crate) struct Call<'a> {
    pub object: &'a ObjectName,
    pub class: ClassId,
    pub method: &'a str,
    pub head: &'a [u8],
    pub body: &'a [u8],
    pub tail: &'a [u8],
}

impl Call<'_> {
    /// The client's request of that number.
    pub fn request(
        &self,
        alloc: Global,
        client: ClientId,
        number: RequestNumber,
    ) -> Result<Request, AllocError>
        ensures { IfOk result (λ r. r ≡ record {
          client = client;
          number = number;
          object = self.now.object.now;
          class = self.now.class;
          method = self.now.method.now;
          input = (self.now.head.now ++ self.now.body.now) ++ self.now.tail.now;
        }) }
    {
        let Ok(object) = self.object.copy(alloc) else {
            return Err(AllocError);
        };
        let parts = RequestParts {
            client,
            number,
            object,
            class: self.class.get(),
            method: String::from_str(alloc, self.method)?,
            input: self.input(alloc)?,
        };
        match Request::new(alloc, parts) {
            Ok(request) => Ok(request),
            Err(_) => Err(AllocError),
        }
    }

    /// The input in one piece.
    fn input(&self, alloc: Global) -> Result<Vec<u8>, AllocError>
        ensures { IfOk result (λ v. v.items ≡ (self.now.head.now ++ self.now.body.now) ++ self.now.tail.now) }
    {
        let mut bytes = Vec::from_slice(alloc, self.head)?;
        bytes.extend_from_slice(self.body)?;
        bytes.extend_from_slice(self.tail)?;
        Ok(bytes)
    }
}
