ghost use Rattle.std.specs.Prelude.{◌≡◌, IfOk};
ghost use Rattle.std.specs.Option.{option_copied};
ghost use Rattle.class_tests.specs.Cases.{opening};

use object_store::Object;
use std::alloc::AllocError;

/// A case as its lines have made it so far.
#[derive(Drop)]
pub struct Case {
    /// The object; `None` if it is absent.
    pub object: Option<Object>,
    /// The client that makes the calls.
    pub caller: u32,
}

/// The same object, none for none, which shares all of it.
pub(crate) fn copy_of(object: Option<&Object>) -> Result<Option<Object>, AllocError>
    ensures { IfOk result (λ copy. copy ≡ option_copied object.entry) }
{
    match object {
        Some(object) => match object.copy() {
            Ok(copy) => Ok(Some(copy)),
            Err(_) => Err(AllocError),
        },
        None => Ok(None),
    }
}

impl Case {
    /// As a file begins: no object, and client 1.
    pub(crate) fn opening() -> Case
        ensures { result ≡ opening }
    {
        Case {
            object: None,
            caller: 1,
        }
    }

    /// The same case.
    pub(crate) fn copy(&self) -> Result<Case, AllocError>
        ensures { IfOk result (λ copy. copy ≡ self.now) }
    {
        let object = copy_of(self.object.as_ref())?;
        Ok(Case {
            object,
            caller: self.caller,
        })
    }
}
