//! The fields of a part: each is cut from the front of the bytes.

ghost use Rattle.std.specs.Prelude.{◌≡◌, IsTrue};
ghost use Rattle.part_bytes.specs.inner.Reading.{Reads, number_at, bytes_at, count_at, text_at, pair_at, is_below};

use byteorder::{ByteOrder, LittleEndian};

pub(crate) fn number_at_2(bytes: &[u8]) -> Option<(u16, &[u8])>
    ensures { Reads (λ x. (x.0, x.1.now)) result (number_at 2 bytes.now) }
{
    if bytes.len() < 2 {
        return None;
    }
    Some((LittleEndian::read_u16(bytes), &bytes[2..]))
}

pub(crate) fn number_at_4(bytes: &[u8]) -> Option<(u32, &[u8])>
    ensures { Reads (λ x. (x.0, x.1.now)) result (number_at 4 bytes.now) }
{
    if bytes.len() < 4 {
        return None;
    }
    Some((LittleEndian::read_u32(bytes), &bytes[4..]))
}

pub(crate) fn number_at_8(bytes: &[u8]) -> Option<(u64, &[u8])>
    ensures { Reads (λ x. (x.0, x.1.now)) result (number_at 8 bytes.now) }
{
    if bytes.len() < 8 {
        return None;
    }
    Some((LittleEndian::read_u64(bytes), &bytes[8..]))
}

pub(crate) fn bytes_at(count: usize, bytes: &[u8]) -> Option<(&[u8], &[u8])>
    ensures { Reads (λ x. (x.0.now, x.1.now)) result (bytes_at count bytes.now) }
{
    if bytes.len() < count {
        return None;
    }
    Some(bytes.split_at(count))
}

/// A count that is at most the limit.
pub(crate) fn count_at_2(most: u16, bytes: &[u8]) -> Option<(u16, &[u8])>
    ensures { Reads (λ x. (x.0, x.1.now)) result (count_at 2 most bytes.now) }
{
    let (count, rest) = number_at_2(bytes)?;
    if count > most {
        return None;
    }
    Some((count, rest))
}

/// A count that is at most the limit.
pub(crate) fn count_at_4(most: u32, bytes: &[u8]) -> Option<(u32, &[u8])>
    ensures { Reads (λ x. (x.0, x.1.now)) result (count_at 4 most bytes.now) }
{
    let (count, rest) = number_at_4(bytes)?;
    if count > most {
        return None;
    }
    Some((count, rest))
}

/// A text after its length.
#[tactic(auto, unfolding(crate::specs::inner::Reading::text_at))]
fn text_at(bytes: &[u8]) -> Option<(&[u8], &[u8])>
    ensures { Reads (λ x. (x.0.now, x.1.now)) result (text_at bytes.now) }
{
    let (count, rest) = number_at_2(bytes)?;
    bytes_at(count as usize, rest)
}

/// Two texts.
pub(crate) fn pair_at(bytes: &[u8]) -> Option<((&[u8], &[u8]), &[u8])>
    ensures { Reads (λ x. ((x.0.0.now, x.0.1.now), x.1.now)) result (pair_at bytes.now) }
{
    let (first, rest) = text_at(bytes)?;
    let (second, rest) = text_at(rest)?;
    Some(((first, second), rest))
}

/// True if a name is below another, by bytes.
pub(crate) fn is_below(name: &[u8], other: &[u8]) -> bool
    ensures { result ≡ is_below name.now other.now }
{
    name.cmp(other).is_lt()
}
