//! What the helpers that look something up find in the object, not yet copied to memory.

ghost use Rattle.std.specs.Prelude.{◌≡◌, ◌≤◌, length};
ghost use Rattle.object_store.specs.Limits.{profile};
ghost use Rattle.helpers.specs.Table.{stat_answer, getxattr_answer, map_get_answer, map_next_answer, xattr_next_answer};

use crate::answer::{HelperAnswer, looked_up, negative};
use crate::errno::ENOENT;
use object_store::calls;
use txn::Staged;

/// Helper 1, `stat`: the length of the data. Refused: ENOENT.
pub fn stat(staged: &Staged) -> u64
    ensures { result ≡ (stat_answer staged.entry.now.after).number }
{
    match staged.object() {
        None => negative(ENOENT),
        Some(object) => object.len() as u64,
    }
}

/// The answer of `getxattr`: the value of an xattr. Refused: EINVAL, ENOENT, ENODATA, ERANGE.
pub fn xattr_value<'a>(staged: &'a Staged, name: &[u8], room: u64) -> HelperAnswer<'a>
    ensures number { result.number ≡ (getxattr_answer profile staged.entry.now.after name.now room).number }
    ensures bytes { result.bytes.now ≡ (getxattr_answer profile staged.entry.now.after name.now room).bytes }
    ensures short { length result.bytes.now ≤ room }
{
    looked_up(calls::get_xattr(staged.object(), name), room)
}

/// The answer of `map_get`: the value of a key of the omap. Refused: EINVAL, ENOENT, ENODATA,
/// ERANGE.
pub fn map_value<'a>(staged: &'a Staged, key: &[u8], room: u64) -> HelperAnswer<'a>
    ensures number { result.number ≡ (map_get_answer profile staged.entry.now.after key.now room).number }
    ensures bytes { result.bytes.now ≡ (map_get_answer profile staged.entry.now.after key.now room).bytes }
    ensures short { length result.bytes.now ≤ room }
{
    looked_up(calls::get_key(staged.object(), key), room)
}

/// The answer of `map_next`: the least key of the omap above some bytes, and with no bytes the
/// least key. Refused: EINVAL, ENOENT, ENODATA, ERANGE.
pub fn key_above<'a>(staged: &'a Staged, key: &[u8], room: u64) -> HelperAnswer<'a>
    ensures number { result.number ≡ (map_next_answer profile staged.entry.now.after key.now room).number }
    ensures bytes { result.bytes.now ≡ (map_next_answer profile staged.entry.now.after key.now room).bytes }
    ensures short { length result.bytes.now ≤ room }
{
    looked_up(calls::next_key(staged.object(), key), room)
}

/// The answer of `xattr_next`: as of `map_next`, on the xattrs.
pub fn xattr_above<'a>(staged: &'a Staged, name: &[u8], room: u64) -> HelperAnswer<'a>
    ensures number { result.number ≡ (xattr_next_answer profile staged.entry.now.after name.now room).number }
    ensures bytes { result.bytes.now ≡ (xattr_next_answer profile staged.entry.now.after name.now room).bytes }
    ensures short { length result.bytes.now ≤ room }
{
    looked_up(calls::next_xattr(staged.object(), name), room)
}
