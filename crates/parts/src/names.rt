//! What is looked up among names: xattrs, or keys of the omap.

ghost use Rattle.std.specs.Prelude.{◌≡◌, ◌<◌, ◌≤◌, [], List, ℕ, Some, IsTrue, MatchOption, IfOk, IfErr, IfSome, OnOk};
ghost use Rattle.std.specs.Prelude.{length};
ghost use Rattle.object_store.specs.declared.limits.TheConstants.{NAME_LIMIT};
ghost use Rattle.object_store.specs.Object.{Attributes};
ghost use Rattle.object_store.specs.Calls.{is_named_within};
ghost use Rattle.helpers.specs.Effect.{refuses, is_full};
ghost use Rattle.part_names.specs.Known.{Agrees};
ghost use Rattle.part_names.specs.Order.{is_held};
ghost use Rattle.parts.specs.Needs.{IsUnknown, IsMissing, IsLookedUp, IsReached};
ghost use Rattle.parts.specs.inner.Names.{IsForAll, IsCounted, IsFound, IsDecided, value_answer, above_answer};
ghost use Rattle.parts.specs.inner.Names.{set_errno};

use helpers::{EFBIG, EINVAL, ENODATA, ENOENT, ENOSPC, HelperAnswer, copied, negative};
use object_store::{NameLimits, VALUE_LIMIT};
use part_names::{Above, Known, PartNames, Place};

/// True if a name has 1 to that many bytes.
pub(crate) fn is_named(most: u8, name: &[u8]) -> bool
    ensures { result ≡ is_named_within most name.now }
{
    !name.is_empty() && name.len() <= usize::from(most)
}

/// A refusal, which copies nothing.
fn refused<'a>(errno: u64) -> HelperAnswer<'a>
    requires { (1 ≤ errno) × (errno < 4096) }
    ensures number { result.number ≡ (refuses errno).number }
    ensures bytes { result.bytes.now ≡ [] }
{
    HelperAnswer {
        number: negative(errno),
        bytes: &[],
    }
}

/// The answer of a look-up of a name's value; none if it isn't known.
pub(crate) fn value_of<'a>(
    names: &'a PartNames,
    is_there: bool,
    most: u8,
    name: &[u8],
    room: u64,
) -> Option<HelperAnswer<'a>>
    ensures answer { MatchOption result (IsUnknown is_there most names.now name.now)
        (IsForAll names.now (λ m. value_answer is_there most m name.now room)) }
    ensures known { IfSome result (λ _. IsLookedUp is_there most names.now name.now) }
{
    if !is_named(most, name) {
        return Some(refused(EINVAL));
    }
    if !is_there {
        return Some(refused(ENOENT));
    }
    match names.get(name) {
        Known::Unknown => None,
        Known::Absent => Some(refused(ENODATA)),
        Known::Value(value) => Some(copied(value, room)),
    }
}

/// The answer of a look-up of the least name above some bytes; the first place that isn't known, if
/// that decides it.
pub(crate) fn name_above<'a>(
    names: &'a PartNames,
    is_there: bool,
    most: u8,
    bytes: &[u8],
    room: u64,
) -> Result<HelperAnswer<'a>, Place>
    requires { most ≤ NAME_LIMIT }
    ensures found { IfOk result (IsForAll names.now (λ m. above_answer is_there most m bytes.now room)) }
    ensures missing { IfErr result (IsMissing is_there most names.now bytes.now) }
    ensures known { OnOk result (IsReached is_there most names.now bytes.now) }
{
    if bytes.len() > usize::from(most) {
        return Ok(refused(EINVAL));
    }
    if !is_there {
        return Ok(refused(ENOENT));
    }
    match names.above(bytes) {
        Above::Name(name) => Ok(copied(name, room)),
        Above::Absent => Ok(refused(ENODATA)),
        Above::Unknown(place) => Err(place),
    }
}

/// True if a new name would be one too many. All names are known.
fn is_full(names: &PartNames, limit: u32, name: &[u8]) -> bool
    requires { (name : List ℕ) → IsTrue (is_held names.now.intervals name) }
    ensures { (m : Attributes) → Agrees names.now m → result ≡ is_full (Some limit) m name.now }
{
    // For the proof: the entries are then the only map that agrees.
    let _all = names.is_whole();
    let is_new = match names.get(name) {
        Known::Unknown | Known::Absent => true,
        Known::Value(_) => false,
    };
    is_new && names.count() >= limit as usize
}

/// The error number by which a set is refused, if it is.
pub(crate) fn set_errno(
    names: &PartNames,
    limits: &NameLimits,
    name: &[u8],
    value: &[u8],
) -> Option<u64>
    requires { IsCounted limits.now names.now }
    ensures is { (m : Attributes) → Agrees names.now m → result ≡ set_errno limits.now m name.now value.now }
    ensures range { IfSome result (λ e. (1 ≤ e) × (e < 4096)) }
{
    if !is_named(limits.length, name) {
        return Some(EINVAL);
    }
    if value.len() > VALUE_LIMIT {
        return Some(EFBIG);
    }
    match limits.count {
        Some(limit) if is_full(names, limit, name) => Some(ENOSPC),
        _ => None,
    }
}

/// What a helper that removes a name finds.
pub(crate) enum Found {
    /// It is refused by this error number.
    Refused(u64),
    /// It isn't known if the name is there.
    Unknown,
    /// The name is there.
    There,
}

/// What a helper that removes a name finds.
pub(crate) fn found_of(names: &PartNames, is_there: bool, most: u8, name: &[u8]) -> Found
    ensures found { IsFound is_there most names.now name.now result }
    ensures known { IsDecided is_there most names.now name.now result }
{
    if !is_named(most, name) {
        return Found::Refused(EINVAL);
    }
    if !is_there {
        return Found::Refused(ENOENT);
    }
    match names.get(name) {
        Known::Unknown => Found::Unknown,
        Known::Absent => Found::Refused(ENODATA),
        Known::Value(_) => Found::There,
    }
}
