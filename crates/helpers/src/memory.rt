//! The helpers that copy bytes into a method's memory, or compare bytes there.

ghost use Rattle.std.specs.Prelude.{◌≡◌, ◌+◌, ◌≤◌, length};
ghost use Rattle.object_store.specs.Object.{part};
ghost use Rattle.object_store.specs.Limits.{profile};
ghost use Rattle.helpers.specs.Table.{read_answer, getxattr_answer, map_get_answer, map_next_answer, compare_answer};
ghost use Rattle.helpers.specs.Table.{copy_answer, xattr_next_answer};
ghost use Rattle.helpers.specs.View.{IsWithin, bytes_in, filled, written};

use crate::answer::negative;
use crate::errno::{ENOENT, ERANGE};
use crate::lookups::{key_above, map_value, xattr_above, xattr_value};
use crate::plain::compared;
use crate::span::Span;
use object_store::Object;
use txn::Staged;

/// The bytes of a range. One of no bytes has no place: its address may be any number then.
pub fn bytes_in(memory: &[u8], span: Span) -> &[u8]
    requires { IsWithin memory.now span }
    ensures { result.now ≡ bytes_in memory.now span }
{
    if span.len == 0 {
        return &memory[..0];
    }
    &memory[span.at as usize..(span.at + span.len) as usize]
}

/// Writes bytes over those at the beginning of a range.
pub fn fill(memory: &mut [u8], span: Span, bytes: &[u8])
    requires within { IsWithin memory.old span }
    requires short { length bytes.now ≤ span.len }
    ensures { memory.new ≡ filled memory.old span bytes.now }
{
    if span.len == 0 {
        return;
    }
    let at = span.at as usize;
    memory[at..at + bytes.len()].copy_from_slice(bytes);
}

/// Copies the data from a place on to a range of `most` bytes, until the data or the range ends,
/// and returns the number of bytes copied.
fn read_into(object: &Object, at: u64, memory: &mut [u8], start: usize, most: usize) -> usize
    requires { start + most ≤ length memory.old }
    ensures count { result ≡ length (part object.now.bytes at most) }
    ensures bytes { memory.new ≡ written memory.old start (part object.now.bytes at most) }
{
    object.read(at, &mut memory[start..start + most])
}

/// Helper 2, `read`: copies the data from a place on into a range, until the data or the range
/// ends. It answers the number of bytes copied. Refused: ENOENT.
pub fn read(staged: &Staged, at: u64, memory: &mut [u8], room: Span) -> u64
    requires { IsWithin memory.old room }
    ensures answer { result ≡ (read_answer staged.entry.now.after at room.len).number }
    ensures bytes { memory.new ≡ filled memory.old room (read_answer staged.entry.now.after at room.len).bytes }
{
    match staged.object() {
        None => {
            // For the proof: a refusal copies no bytes, which leaves the memory as it is.
            fill(memory, room, &[]);
            negative(ENOENT)
        }
        Some(object) => {
            // A range of length 0 may have any address, so memory isn't indexed by it.
            if room.len == 0 {
                return 0;
            }
            read_into(object, at, memory, room.at as usize, room.len as usize) as u64
        }
    }
}

/// Helper 6, `getxattr`: copies the value of an xattr. The name is read whole before the value is
/// written: the two ranges may overlap. Refused, in this order: EINVAL if the name is none, ENOENT,
/// ENODATA if it has no such xattr, ERANGE if the value is longer than the range.
pub fn getxattr(staged: &Staged, memory: &mut [u8], name: Span, value: Span) -> u64
    requires name { IsWithin memory.old name }
    requires value { IsWithin memory.old value }
    ensures answer { result ≡
        (getxattr_answer profile staged.entry.now.after (bytes_in memory.old name) value.len).number }
    ensures bytes { memory.new ≡ filled memory.old value
        (getxattr_answer profile staged.entry.now.after (bytes_in memory.old name) value.len).bytes }
{
    let answer = xattr_value(staged, bytes_in(memory, name), value.len);
    fill(memory, value, answer.bytes);
    answer.number
}

/// Helper 9, `map_get`: as `getxattr`, on the omap.
pub fn map_get(staged: &Staged, memory: &mut [u8], key: Span, value: Span) -> u64
    requires key { IsWithin memory.old key }
    requires value { IsWithin memory.old value }
    ensures answer { result ≡
        (map_get_answer profile staged.entry.now.after (bytes_in memory.old key) value.len).number }
    ensures bytes { memory.new ≡ filled memory.old value
        (map_get_answer profile staged.entry.now.after (bytes_in memory.old key) value.len).bytes }
{
    let answer = map_value(staged, bytes_in(memory, key), value.len);
    fill(memory, value, answer.bytes);
    answer.number
}

/// Helper 12, `map_next`: copies the least key of the omap above the given bytes; no bytes are
/// below all keys. The bytes are read whole before the key is written: the two ranges may overlap.
/// Refused, in this order: EINVAL if the bytes are more than a key has, ENOENT, ENODATA if no key
/// is above them, ERANGE if the key is longer than the range.
pub fn map_next(staged: &Staged, memory: &mut [u8], key: Span, next: Span) -> u64
    requires key { IsWithin memory.old key }
    requires next { IsWithin memory.old next }
    ensures answer { result ≡
        (map_next_answer profile staged.entry.now.after (bytes_in memory.old key) next.len).number }
    ensures bytes { memory.new ≡ filled memory.old next
        (map_next_answer profile staged.entry.now.after (bytes_in memory.old key) next.len).bytes }
{
    let answer = key_above(staged, bytes_in(memory, key), next.len);
    fill(memory, next, answer.bytes);
    answer.number
}

/// Helper 16, `compare`: compares the bytes of two ranges, as `compared` does.
pub fn compare(memory: &[u8], left: Span, right: Span) -> u64
    requires left { IsWithin memory.now left }
    requires right { IsWithin memory.now right }
    ensures { result ≡ (compare_answer (bytes_in memory.now left) (bytes_in memory.now right)).number }
{
    compared(bytes_in(memory, left), bytes_in(memory, right))
}

/// Helper 17, `copy`: copies bytes to the beginning of a range. They are read whole before the
/// first is written: the two ranges may overlap. It answers their number. Refused: ERANGE if they
/// are more than the range has.
pub fn copy(memory: &mut [u8], to: Span, from: Span) -> u64
    requires to { IsWithin memory.old to }
    requires from { IsWithin memory.old from }
    ensures answer { result ≡ (copy_answer (bytes_in memory.old from) to.len).number }
    ensures bytes { memory.new ≡ filled memory.old to (copy_answer (bytes_in memory.old from) to.len).bytes }
{
    if to.len < from.len {
        // For the proof: a refusal copies no bytes, which leaves the memory as it is.
        fill(memory, to, &[]);
        return negative(ERANGE);
    }
    move_bytes(memory, to, from);
    from.len
}

/// Writes the bytes of a range over those at the beginning of another, as they are before.
fn move_bytes(memory: &mut [u8], to: Span, from: Span)
    requires to { IsWithin memory.old to }
    requires from { IsWithin memory.old from }
    requires short { from.len ≤ to.len }
    ensures { memory.new ≡ filled memory.old to (bytes_in memory.old from) }
{
    // A range of length 0 may have any address, so memory isn't indexed by it.
    if from.len == 0 {
        fill(memory, to, &[]);
        return;
    }
    memory.copy_within(
        from.at as usize..(from.at + from.len) as usize,
        to.at as usize,
    );
}

/// Helper 18, `xattr_next`: as `map_next`, on the xattrs.
pub fn xattr_next(staged: &Staged, memory: &mut [u8], name: Span, next: Span) -> u64
    requires name { IsWithin memory.old name }
    requires next { IsWithin memory.old next }
    ensures answer { result ≡
        (xattr_next_answer profile staged.entry.now.after (bytes_in memory.old name) next.len).number }
    ensures bytes { memory.new ≡ filled memory.old next
        (xattr_next_answer profile staged.entry.now.after (bytes_in memory.old name) next.len).bytes }
{
    let answer = xattr_above(staged, bytes_in(memory, name), next.len);
    fill(memory, next, answer.bytes);
    answer.number
}
