//! A law of the flat form, proved as the contract of a function that does nothing.

ghost use Rattle.std.specs.Prelude.{◌≡◌};
ghost use Rattle.object_store.specs.Object.{PlainObject, IsObject};
ghost use Rattle.object_bytes.specs.Flat.{flat};

/// Equal flat forms are of equal objects.
pub fn one_object()
    ensures { (o p : PlainObject) → IsObject o → IsObject p → flat o ≡ flat p → o ≡ p }
{}
