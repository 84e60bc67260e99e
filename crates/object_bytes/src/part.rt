//! The two parts of an object that have names: its xattrs, and its keys.

ghost use Rattle.std.specs.Prelude.{◌≡◌, ◌<◌, IfSome, length};
ghost use Rattle.std.specs.FinMap as fin;
ghost use Rattle.shared_map.specs.Entries.{nth, entry_behind};
ghost use Rattle.object_bytes.specs.Part.{names, IsShort};

use object_store::Object;

/// The part: xattrs, or keys of the omap.
#[derive(Clone, Copy)]
pub(crate) enum Part {
    Xattrs,
    Keys,
}

/// The number of names in the part.
pub(crate) fn count_of(part: Part, object: &Object) -> usize
    ensures value { result ≡ fin.len (names part object.now) }
    ensures fits { result < 65536 }
{
    match part {
        Part::Xattrs => object.xattr_count(),
        Part::Keys => object.key_count(),
    }
}

/// The entry at a place in the order of the names, from 0 on.
pub(crate) fn entry_of<'a>(part: Part, object: &'a Object, n: usize) -> Option<(&'a [u8], &'a [u8])>
    ensures entry { entry_behind result ≡ nth (names part object.now) n }
    ensures short { IfSome result (λ e. IsShort (e.0.now, e.1.now)) }
{
    // For the proof: an object is within its limits, so its names and values are short.
    object.within();
    match part {
        Part::Xattrs => object.xattr_at(n),
        Part::Keys => object.key_at(n),
    }
}
