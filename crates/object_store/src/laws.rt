//! Laws of the definitions, for the proofs of the crates above. Their functions do nothing.
ghost use Rattle.std.specs.Prelude.{◌≡◌, ℕ, ◌+◌, ◌≤◌, Bool, List, length};
ghost use Rattle.std.specs.FinMap as fin;
ghost use Rattle.object_store.specs.declared.limits.TheConstants.{DATA_LIMIT, XATTR_LIMIT, KEY_LIMIT, NAME_LIMIT};
ghost use Rattle.object_store.specs.declared.limits.TheConstants.{VALUE_LIMIT, OBJECT_NAME_LIMIT};
ghost use Rattle.object_store.specs.Object.{Attributes, PlainObject, AreBytes, IsName, IsValue, IsObject};
ghost use Rattle.object_store.specs.Object.{part, spliced, resized};
ghost use Rattle.object_store.specs.Calls as spec;
ghost use Rattle.object_store.specs.Laws.{Keeps, Reads};
ghost use Rattle.object_store.specs.Limits.{AreNames, IsAnyObject};

/// A change of an object within the limits leaves one within them, if it is given bytes.
pub fn changes_keep_the_limits()
    ensures write { (at : ℕ) (text : List ℕ) → AreBytes text → Keeps (λ o. spec.write o at text) }
    ensures truncate { (len : ℕ) → Keeps (λ o. spec.truncate o len) }
    ensures set_xattr { (name value : List ℕ) → AreBytes name → AreBytes value →
        Keeps (λ o. spec.set_xattr o name value) }
    ensures set_key { (key value : List ℕ) → AreBytes key → AreBytes value → Keeps (λ o. spec.set_key o key value) }
    ensures remove_xattr { (name : List ℕ) → Keeps (λ o. spec.remove_xattr o name) }
    ensures remove_key { (key : List ℕ) → Keeps (λ o. spec.remove_key o key) }
    ensures create { (exclusive : Bool) → Keeps (λ o. spec.create o exclusive) }
{}

/// A read of an object within the limits gives bytes, or a value.
pub fn reads_are_within()
    ensures read { (at n : ℕ) → Reads (λ o. spec.read o at n) AreBytes }
    ensures get_xattr { (name : List ℕ) → Reads (λ o. spec.get_xattr o name) IsValue }
    ensures get_key { (key : List ℕ) → Reads (λ o. spec.get_key o key) IsValue }
{}

/// What changes do to data and to names keeps bytes bytes and names names, and the data as short as
/// they leave it; an object within its limits is well formed.
pub fn changes_keep_the_form()
    ensures any { (object : PlainObject) → IsObject object → IsAnyObject object }
    ensures part { (bytes : List ℕ) (at n : ℕ) → AreBytes bytes → AreBytes (part bytes at n) }
    ensures spliced { (bytes : List ℕ) (at : ℕ) (text : List ℕ) → AreBytes bytes → AreBytes text →
        AreBytes (spliced bytes at text) }
    ensures spliced_short { (bytes : List ℕ) (at : ℕ) (text : List ℕ) (most : ℕ) → length bytes ≤ most →
        at + length text ≤ most → length (spliced bytes at text) ≤ most }
    ensures resized { (bytes : List ℕ) (len : ℕ) → AreBytes bytes → AreBytes (resized bytes len) }
    ensures resized_short { (bytes : List ℕ) (len : ℕ) → length (resized bytes len) ≡ len }
    ensures none { AreNames fin.empty }
    ensures inserted { (m : Attributes) (name value : List ℕ) → AreNames m → IsName name → IsValue value →
        AreNames (fin.insert m name value) }
    ensures removed { (m : Attributes) (name : List ℕ) → AreNames m → AreNames (fin.remove m name) }
{}

/// The limits by number.
pub fn limits_by_number()
    ensures data { DATA_LIMIT ≡ 65536 }
    ensures xattrs { XATTR_LIMIT ≡ 32 }
    ensures keys { KEY_LIMIT ≡ 1024 }
    ensures name { NAME_LIMIT ≡ 64 }
    ensures value { VALUE_LIMIT ≡ 4096 }
    ensures object_name { OBJECT_NAME_LIMIT ≡ 255 }
{}
