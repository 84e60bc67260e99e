//! Reading a list of edits, as it is spelled: each field is cut from the front of the bytes.

ghost use Rattle.part_bytes.specs.inner.Reading.{Reads, bytes_at, number_at, pair_at, text_at};
ghost use Rattle.txn.specs.Staging.{edit_of};
ghost use Rattle.edit_bytes.specs.Reading.{counted_at, edit_at, edit_of_kind};

use byteorder::{ByteOrder, LittleEndian};
use txn::Edit;

/// A number of eight bytes, and what follows it.
fn number_at_8(bytes: &[u8]) -> Option<(u64, &[u8])>
    ensures { Reads (λ x. (x.0, x.1.now)) result (number_at 8 bytes.now) }
{
    if bytes.len() < 8 {
        return None;
    }
    Some((LittleEndian::read_u64(bytes), &bytes[8..]))
}

fn number_at_4(bytes: &[u8]) -> Option<(u32, &[u8])>
    ensures { Reads (λ x. (x.0, x.1.now)) result (number_at 4 bytes.now) }
{
    if bytes.len() < 4 {
        return None;
    }
    Some((LittleEndian::read_u32(bytes), &bytes[4..]))
}

fn number_at_2(bytes: &[u8]) -> Option<(u16, &[u8])>
    ensures { Reads (λ x. (x.0, x.1.now)) result (number_at 2 bytes.now) }
{
    if bytes.len() < 2 {
        return None;
    }
    Some((LittleEndian::read_u16(bytes), &bytes[2..]))
}

/// So many bytes, and what follows them.
fn bytes_at(count: usize, bytes: &[u8]) -> Option<(&[u8], &[u8])>
    ensures { Reads (λ x. (x.0.now, x.1.now)) result (bytes_at count bytes.now) }
{
    if bytes.len() < count {
        return None;
    }
    Some(bytes.split_at(count))
}

/// A text after its length, and what follows it.
#[tactic(auto, unfolding(part_bytes::specs::inner::Reading::text_at))]
fn text_at(bytes: &[u8]) -> Option<(&[u8], &[u8])>
    ensures { Reads (λ x. (x.0.now, x.1.now)) result (text_at bytes.now) }
{
    let (count, rest) = number_at_2(bytes)?;
    bytes_at(count as usize, rest)
}

/// Two texts, and what follows them.
fn pair_at(bytes: &[u8]) -> Option<((&[u8], &[u8]), &[u8])>
    ensures { Reads (λ x. ((x.0.0.now, x.0.1.now), x.1.now)) result (pair_at bytes.now) }
{
    let (first, rest) = text_at(bytes)?;
    let (second, rest) = text_at(rest)?;
    Some(((first, second), rest))
}

/// Bytes after their count, and what follows them.
#[tactic(auto, unfolding(crate::specs::Reading::counted_at))]
fn counted_at(bytes: &[u8]) -> Option<(&[u8], &[u8])>
    ensures { Reads (λ x. (x.0.now, x.1.now)) result (counted_at bytes.now) }
{
    let (count, rest) = number_at_4(bytes)?;
    bytes_at(count as usize, rest)
}

/// The edit of a kind's number, whose fields the bytes begin with, and what follows it.
#[tactic(auto, unfolding(crate::specs::Reading::edit_of_kind))]
fn edit_of_kind(kind: u8, bytes: &[u8]) -> Option<(Edit, &[u8])>
    ensures { Reads (λ x. (edit_of x.0, x.1.now)) result (edit_of_kind kind bytes.now) }
{
    match kind {
        1 => Some((Edit::Create, bytes)),
        2 => Some((Edit::Remove, bytes)),
        3 => {
            let ((name, value), rest) = pair_at(bytes)?;
            Some((Edit::SetXattr(name, value), rest))
        }
        4 => {
            let (name, rest) = text_at(bytes)?;
            Some((Edit::RemoveXattr(name), rest))
        }
        5 => {
            let ((key, value), rest) = pair_at(bytes)?;
            Some((Edit::SetKey(key, value), rest))
        }
        6 => {
            let (key, rest) = text_at(bytes)?;
            Some((Edit::RemoveKey(key), rest))
        }
        7 => {
            let (len, rest) = number_at_8(bytes)?;
            Some((Edit::SetLength(len), rest))
        }
        8 => {
            let (at, rest) = number_at_8(bytes)?;
            let (text, rest) = counted_at(rest)?;
            Some((Edit::Write(at, text), rest))
        }
        _ => None,
    }
}

/// The edit that the bytes begin with, and the bytes that follow it. Names, values and data are slices
/// of the bytes.
///
/// An edit is one byte, its kind, and then its fields. Numbers are little-endian. A text is two bytes,
/// its length, and so many bytes.
///
/// 1. `Create`: no field.
/// 2. `Remove`: no field.
/// 3. `SetXattr`: two texts, name and value.
/// 4. `RemoveXattr`: a text, the name.
/// 5. `SetKey`: two texts, key and value.
/// 6. `RemoveKey`: a text, the key.
/// 7. `SetLength`: eight bytes, the length.
/// 8. `Write`: eight bytes, the place; four bytes, a count; and so many bytes of data.
///
/// `None` where the bytes are none, the first is no kind, or fewer follow than its fields take. Nothing
/// else is refused: a text may be empty or as long as 65,535 bytes, and numbers are any, so who makes
/// the edit of an object looks at its limits.
pub fn edit_at(bytes: &[u8]) -> Option<(Edit, &[u8])>
    ensures { Reads (λ x. (edit_of x.0, x.1.now)) result (edit_at bytes.now) }
{
    match bytes {
        [kind, rest @ ..] => edit_of_kind(*kind, rest),
        [] => None,
    }
}
