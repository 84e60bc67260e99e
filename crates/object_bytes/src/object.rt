//! An object from its flat form.

ghost use Rattle.std.specs.Prelude.{◌≡◌, Err, IfOk, IsTrue};
ghost use Rattle.object_store.specs.Object.{PlainObject, AreBytes, IsObject};
ghost use Rattle.std.specs.Option.{option_copied};
ghost use Rattle.object_bytes.specs.Flat.{Spells};

use crate::flat::FlatError;
use crate::reading::object_at;
use object_store::Object;
use std::alloc::Global;

/// Bytes are below 256. It does nothing.
fn are_bytes(bytes: &[u8])
    ensures { AreBytes bytes.now }
{
    // For the proof: each item of a slice of `u8` is below 256.
    let _len = bytes.len();
}

/// An object is within its limits. It does nothing.
pub(crate) fn is_object(object: Option<&Object>)
    ensures { IsObject (option_copied object.entry) }
{
    match object {
        None => {}
        Some(object) => object.within(),
    }
}

/// The object of a flat form; none if it says that there is none. Refused: bytes that are no
/// object's flat form.
pub fn read_object(alloc: Global, bytes: &[u8]) -> Result<Option<Object>, FlatError>
    ensures found { IfOk result (Spells bytes.now) }
    ensures malformed { result ≡ Err FlatError.Malformed → (object : PlainObject) → Spells bytes.now object → ⊥ }
{
    // For the proof: bytes are bytes, and the object read is within its limits.
    are_bytes(bytes);
    let object = object_at(alloc, bytes)?;
    is_object(object.as_ref());
    Ok(object)
}
