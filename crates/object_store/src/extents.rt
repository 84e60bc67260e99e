//! Data in extents: an edit makes anew the extents that it touches, and shares all others.

ghost use Rattle.std.specs.Prelude.{◌≡◌, ◌+◌, ◌-◌, ◌%◌, ◌<◌, ◌≤◌, ◌^◌, ◌++◌, ◌↔◌, IsTrue, IfOk, OnOk, min, length};
ghost use Rattle.std.specs.Prelude.{take, drop, replicate};
ghost use Rattle.object_store.specs.Object.{spliced, resized};
ghost use Rattle.object_store.specs.Extents.{flat, AreFull, ArePacked, cut};
ghost use Rattle.object_store.specs.declared.extent.TheConstants.{EXTENT_LIMIT};

use crate::extent::{EXTENT_LIMIT, Extent};
use crate::slices::overlay;
use std::alloc::{AllocError, Global};

/// The extents of the bytes with a text written over them at a place.
pub(crate) fn with_text(
    alloc: Global,
    parts: &[Extent],
    len: usize,
    at: usize,
    text: &[u8],
) -> Result<Vec<Extent>, AllocError>
    requires len { (len ≡ length (flat parts.now)) × (len ≤ 65536) }
    requires text { 0 < length text.now }
    requires end { at + length text.now ≤ 65536 }
    requires packed { ArePacked parts.now }
    ensures bytes { IfOk result (λ v. flat v.items ≡ spliced (flat parts.now) at text.now) }
    ensures packed { IfOk result (λ v. ArePacked v.items) }
{
    if at <= len {
        return with_text_within(alloc, parts, at, text);
    }
    let longer = with_len(alloc, parts, len, at)?;
    with_text_within(alloc, &longer, at, text)
}

/// The same if the text leaves no gap after the bytes.
fn with_text_within(
    alloc: Global,
    parts: &[Extent],
    at: usize,
    text: &[u8],
) -> Result<Vec<Extent>, AllocError>
    requires len { (at ≤ length (flat parts.now)) × (length (flat parts.now) ≤ 65536) }
    requires text { 0 < length text.now }
    requires end { at + length text.now ≤ 65536 }
    requires packed { ArePacked parts.now }
    ensures bytes { IfOk result (λ v. flat v.items ≡ spliced (flat parts.now) at text.now) }
    ensures packed { IfOk result (λ v. ArePacked v.items) }
{
    let (kept, from) = before(parts, at);
    let (_, rest) = parts.split_at(kept);
    let low = at - from;
    let end = low + text.len();
    let (count, to) = past(rest, end);
    let (old, _) = rest.split_at(count);
    // A text that ends past the old data leaves no old bytes after it: hence `end.min(to)`.
    let middle = touched(alloc, old, (0, low), 0, text, (end.min(to), to))?;
    replaced(alloc, parts, kept, middle, kept + count)
}

/// The extents of the bytes cut, or extended with zeros, to a length.
pub(crate) fn with_len(
    alloc: Global,
    parts: &[Extent],
    len: usize,
    new_len: usize,
) -> Result<Vec<Extent>, AllocError>
    requires len { (len ≡ length (flat parts.now)) × (len ≤ 65536) }
    requires end { new_len ≤ 65536 }
    requires packed { ArePacked parts.now }
    ensures bytes { IfOk result (λ v. flat v.items ≡ resized (flat parts.now) new_len) }
    ensures packed { IfOk result (λ v. ArePacked v.items) }
{
    // Zeros fill the last extent first; those past it stand in extents of their own.
    let near = new_len.min(parts.len() * EXTENT_LIMIT);
    let mut all = with_near_len(alloc, parts, len, near)?;
    if near < new_len {
        push_zeros(alloc, &mut all, new_len - near)?;
    }
    Ok(all)
}

/// The same, of a length that needs at most one new extent.
fn with_near_len(
    alloc: Global,
    parts: &[Extent],
    len: usize,
    new_len: usize,
) -> Result<Vec<Extent>, AllocError>
    requires len { (len ≡ length (flat parts.now)) × (len ≤ 65536) }
    requires end { new_len ≤ 65536 }
    requires packed { ArePacked parts.now }
    ensures bytes { IfOk result (λ v. flat v.items ≡ resized (flat parts.now) new_len) }
    ensures packed { IfOk result (λ v. ArePacked v.items) }
{
    let (kept, from) = before(parts, new_len);
    let (_, rest) = parts.split_at(kept);
    let low = new_len - from;
    let (count, _) = past(rest, low);
    let (old, _) = rest.split_at(count);
    let gap = new_len.saturating_sub(len);
    let middle = touched(alloc, old, (0, low), gap, &[], (0, 0))?;
    replaced(alloc, parts, kept, middle, parts.len())
}

/// The bytes of a range, zeros, a text, and the bytes of another range.
fn touched(
    alloc: Global,
    parts: &[Extent],
    low: (usize, usize),
    gap: usize,
    text: &[u8],
    high: (usize, usize),
) -> Result<Vec<u8>, AllocError>
    requires small { length (flat parts.now) ≤ 65536 }
    requires orders { (low.0 ≤ low.1) × (high.0 ≤ high.1) }
    requires gap { gap ≤ 65536 }
    ensures { IfOk result (λ v. v.items ≡ ((cut low.0 low.1 (flat parts.now) ++ replicate gap 0) ++ text.now) ++
        cut high.0 high.1 (flat parts.now)) }
{
    // Room for one extent: bytes that fit in one need no second allocation.
    let mut bytes = Vec::with_capacity(alloc, EXTENT_LIMIT)?;
    append(parts, low.0, low.1, &mut bytes)?;
    append_zeros(&mut bytes, gap)?;
    bytes.extend_from_slice(text)?;
    append(parts, high.0, high.1, &mut bytes)?;
    Ok(bytes)
}

/// The extents with those of a range replaced by new bytes, which fill theirs if others follow.
fn replaced(
    alloc: Global,
    parts: &[Extent],
    kept: usize,
    bytes: Vec<u8>,
    others: usize,
) -> Result<Vec<Extent>, AllocError>
    requires places { (kept ≤ length parts.now) × (others ≤ length parts.now) }
    requires full { AreFull (take kept parts.now) }
    requires packed { ArePacked (drop others parts.now) }
    requires seam { others < length parts.now → length bytes.items % EXTENT_LIMIT ≡ 0 }
    ensures bytes { IfOk result (λ v. flat v.items ≡ (flat (take kept parts.now) ++ bytes.items) ++
        flat (drop others parts.now)) }
    ensures packed { IfOk result (λ v. ArePacked v.items) }
{
    let (front, _) = parts.split_at(kept);
    let (_, back) = parts.split_at(others);
    let mut all = Vec::with_capacity(alloc, parts.len().saturating_add(1))?;
    share(&mut all, front)?;
    push_bytes(alloc, &mut all, bytes)?;
    share(&mut all, back)?;
    Ok(all)
}

/// Adds zeros.
fn append_zeros(bytes: &mut Vec<u8>, more: usize) -> Result<(), AllocError>
    requires { length bytes.old.items + more < 2 ^ 32 }
    ensures { OnOk result (bytes.new.items ≡ bytes.old.items ++ replicate more 0) }
{
    let len = bytes.as_slice().len() + more;
    bytes.resize(len, 0)?;
    Ok(())
}

/// Adds the bytes of a range to a buffer, as far as they exist.
fn append(parts: &[Extent], from: usize, to: usize, out: &mut Vec<u8>) -> Result<(), AllocError>
    requires order { from ≤ to }
    requires small { length (flat parts.now) ≤ 65536 }
    ensures { OnOk result (out.new.items ≡ out.old.items ++ cut from to (flat parts.now)) }
{
    let mut start = 0;
    for part in parts {
        let bytes: &[u8] = part.bytes();
        let low = from.saturating_sub(start).min(bytes.len());
        let high = to.saturating_sub(start).min(bytes.len());
        out.extend_from_slice(&bytes[low..high])?;
        start += bytes.len();
    }
    Ok(())
}

/// Copies the bytes of a range to the front of a buffer, as far as they exist, and returns their
/// number. Of the extents before it only the lengths are read, and of those past it nothing.
pub(crate) fn copy_out(parts: &[Extent], from: usize, to: usize, out: &mut [u8]) -> usize
    requires order { from ≤ to }
    requires room { to - from ≤ length out.old }
    requires small { length (flat parts.now) ≤ 65536 }
    ensures count { result ≡ length (cut from to (flat parts.now)) }
    ensures bytes { out.new ≡ cut from to (flat parts.now) ++ drop result out.old }
{
    let (kept, start) = before(parts, from);
    let (_, rest) = parts.split_at(kept);
    let (count, _) = past(rest, to - start);
    let (read, _) = rest.split_at(count);
    copy_cut(read, from - start, to - start, out)
}

/// The same, from each extent the bytes that are in the range.
fn copy_cut(parts: &[Extent], from: usize, to: usize, out: &mut [u8]) -> usize
    requires order { from ≤ to }
    requires room { to - from ≤ length out.old }
    requires small { length (flat parts.now) ≤ 65536 }
    ensures count { result ≡ length (cut from to (flat parts.now)) }
    ensures bytes { out.new ≡ cut from to (flat parts.now) ++ drop result out.old }
{
    let mut start = 0;
    let mut done = 0;
    for part in parts {
        let bytes: &[u8] = part.bytes();
        let low = from.saturating_sub(start).min(bytes.len());
        let high = to.saturating_sub(start).min(bytes.len());
        overlay(out, done, &bytes[low..high]);
        done += high - low;
        start += bytes.len();
    }
    done
}

/// True if two lists have the same extents.
pub(crate) fn are_same(parts: &[Extent], others: &[Extent]) -> bool
    ensures { IsTrue result ↔ (parts.now ≡ others.now) }
{
    if parts.len() != others.len() {
        return false;
    }
    for place in 0..parts.len() {
        if !parts[place].is_same(&others[place]) {
            return false;
        }
    }
    true
}

/// The number of full extents before a place, and the number of their bytes.
fn before(parts: &[Extent], at: usize) -> (usize, usize)
    requires { length (flat parts.now) ≤ 65536 }
    ensures place { (result.0 ≤ length parts.now) × (result.1 ≡ length (flat (take result.0 parts.now))) ×
        (result.1 ≤ at) }
    ensures full { AreFull (take result.0 parts.now) }
{
    let mut start = 0;
    for (i, part) in parts.iter().enumerate() {
        let bytes: &[u8] = part.bytes();
        // The last extent is not counted unless it is full: an edit makes it anew, so all but the
        // last are full.
        if bytes.len() < EXTENT_LIMIT || at < start + bytes.len() {
            return (i, start);
        }
        start += bytes.len();
    }
    (parts.len(), start)
}

/// The number of extents before those that lie past a place, and the number of their bytes.
fn past(parts: &[Extent], end: usize) -> (usize, usize)
    requires { length (flat parts.now) ≤ 65536 }
    ensures { (result.0 ≤ length parts.now) × (result.1 ≡ length (flat (take result.0 parts.now))) ×
        (min end (length (flat parts.now)) ≤ result.1) }
{
    let mut start = 0;
    for (i, part) in parts.iter().enumerate() {
        if end <= start {
            return (i, start);
        }
        let bytes: &[u8] = part.bytes();
        start += bytes.len();
    }
    (parts.len(), start)
}

/// Adds the same extents.
fn share(parts: &mut Vec<Extent>, others: &[Extent]) -> Result<(), AllocError>
    ensures { OnOk result (parts.new.items ≡ parts.old.items ++ others.now) }
{
    for part in others {
        parts.push(part.share()?)?;
    }
    Ok(())
}

/// Adds extents of new bytes, which become the extent themselves if they fill one.
fn push_bytes(alloc: Global, parts: &mut Vec<Extent>, bytes: Vec<u8>) -> Result<(), AllocError>
    requires { AreFull parts.old.items }
    ensures bytes { OnOk result (flat parts.new.items ≡ flat parts.old.items ++ bytes.items) }
    ensures packed { OnOk result (ArePacked parts.new.items) }
    ensures full { length bytes.items % EXTENT_LIMIT ≡ 0 → OnOk result (AreFull parts.new.items) }
{
    // A full extent takes the buffer itself, so its bytes are not copied a second time.
    if bytes.len() != EXTENT_LIMIT {
        return push_cut(alloc, parts, &bytes);
    }
    push_extent(alloc, parts, bytes)
}

/// Adds zeros in new extents. The full ones are one extent, shared: it is made and zeroed once.
fn push_zeros(alloc: Global, parts: &mut Vec<Extent>, more: usize) -> Result<(), AllocError>
    requires full { AreFull parts.old.items }
    requires more { (1 ≤ more) × (more ≤ 65536) }
    ensures bytes { OnOk result (flat parts.new.items ≡ flat parts.old.items ++ replicate more 0) }
    ensures packed { OnOk result (ArePacked parts.new.items) }
{
    let full = more / EXTENT_LIMIT;
    let zeros = zeros(alloc, more.min(EXTENT_LIMIT))?;
    parts.reserve(full + 1)?;
    for _ in 0..full {
        parts.push(zeros.share()?)?;
    }
    let bytes: &[u8] = zeros.bytes();
    push_cut(alloc, parts, &bytes[..more % EXTENT_LIMIT])
}

/// An extent of zeros.
fn zeros(alloc: Global, len: usize) -> Result<Extent, AllocError>
    requires { (1 ≤ len) × (len ≤ EXTENT_LIMIT) }
    ensures { IfOk result (λ e. e ≡ replicate len 0) }
{
    let mut bytes = Vec::with_capacity(alloc, len)?;
    append_zeros(&mut bytes, len)?;
    Extent::new(alloc, bytes)
}

/// Adds extents of copied bytes, each full but the last.
fn push_cut(alloc: Global, parts: &mut Vec<Extent>, bytes: &[u8]) -> Result<(), AllocError>
    requires { AreFull parts.old.items }
    ensures bytes { OnOk result (flat parts.new.items ≡ flat parts.old.items ++ bytes.now) }
    ensures packed { OnOk result (ArePacked parts.new.items) }
    ensures full { length bytes.now % EXTENT_LIMIT ≡ 0 → OnOk result (AreFull parts.new.items) }
{
    let mut rest = bytes;
    while rest.len() > EXTENT_LIMIT {
        let (first, others) = rest.split_at(EXTENT_LIMIT);
        push_copy(alloc, parts, first)?;
        rest = others;
    }
    if rest.is_empty() {
        return Ok(());
    }
    push_copy(alloc, parts, rest)
}

/// Adds one extent of copied bytes.
fn push_copy(alloc: Global, parts: &mut Vec<Extent>, bytes: &[u8]) -> Result<(), AllocError>
    requires full { AreFull parts.old.items }
    requires within { (1 ≤ length bytes.now) × (length bytes.now ≤ EXTENT_LIMIT) }
    ensures bytes { OnOk result (flat parts.new.items ≡ flat parts.old.items ++ bytes.now) }
    ensures packed { OnOk result (ArePacked parts.new.items) }
    ensures full { length bytes.now ≡ EXTENT_LIMIT → OnOk result (AreFull parts.new.items) }
{
    push_extent(alloc, parts, Vec::from_slice(alloc, bytes)?)
}

/// Adds one extent of new bytes.
fn push_extent(alloc: Global, parts: &mut Vec<Extent>, bytes: Vec<u8>) -> Result<(), AllocError>
    requires full { AreFull parts.old.items }
    requires within { (1 ≤ length bytes.items) × (length bytes.items ≤ EXTENT_LIMIT) }
    ensures bytes { OnOk result (flat parts.new.items ≡ flat parts.old.items ++ bytes.items) }
    ensures packed { OnOk result (ArePacked parts.new.items) }
    ensures full { length bytes.items ≡ EXTENT_LIMIT → OnOk result (AreFull parts.new.items) }
{
    let extent = Extent::new(alloc, bytes)?;
    parts.push(extent)?;
    Ok(())
}
