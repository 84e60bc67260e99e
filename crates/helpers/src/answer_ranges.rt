//! Between which numbers the answers of each helper lie, for the verifier.

ghost use Rattle.std.specs.Prelude.{◌≡◌, ◌≤◌, IfSome};
ghost use Rattle.helpers.specs.Ranges.{answer_range_of, range_row, down_to, number_in};

use crate::errno::{EEXIST, EFBIG, ENODATA, ENOENT, ENOSPC, ERANGE};
use crate::helper::Helper;
use object_store::NAME_LIMIT;

/// The greatest answer of a helper that is no negative number.
#[derive(Clone, Copy, PartialEq, Eq)]
pub enum AnswerLimit {
    /// A number.
    Number(u64),
    /// The length of the writable range.
    Room,
    /// The length of the writable range, and at most a number.
    RoomOrNumber(u64),
    /// The length of the first readable range.
    Text,
}

/// The range of a helper's answers: they are a negative number from `-errno` on, or a number that
/// is at most `most`.
#[derive(Clone, Copy, PartialEq, Eq)]
pub struct AnswerRange {
    pub errno: u64,
    pub most: AnswerLimit,
}

/// The range of the answers of the helper of that id; none if they may be any number, and for an id
/// that is no helper's. It takes no memory.
pub fn answer_range(id: u32) -> Option<AnswerRange>
    ensures range { result ≡ answer_range_of id }
    ensures errno { IfSome result (λ r. r.errno ≤ 61) }
    ensures number { IfSome result (λ r. number_in r.most ≤ 64) }
{
    match Helper::of(id) {
        Some(helper) => range_row(helper),
        None => None,
    }
}

/// The table of the ranges.
#[rattlefmt::skip]
fn range_row(helper: Helper) -> Option<AnswerRange>
    ensures range { result ≡ range_row helper }
    ensures errno { IfSome result (λ r. r.errno ≤ 61) }
    ensures number { IfSome result (λ r. number_in r.most ≤ 64) }
{
    match helper {
        Helper::Stat      => None,
        Helper::Read      => down_to(ENOENT, AnswerLimit::Room),
        Helper::Write     => down_to(EFBIG, AnswerLimit::Text),
        Helper::Truncate  => down_to(EFBIG, AnswerLimit::Number(0)),
        Helper::Remove    => down_to(ENOENT, AnswerLimit::Number(0)),
        Helper::GetXattr  => down_to(ENODATA, AnswerLimit::Room),
        Helper::SetXattr  => down_to(ENOSPC, AnswerLimit::Number(0)),
        Helper::RmXattr   => down_to(ENODATA, AnswerLimit::Number(0)),
        Helper::MapGet    => down_to(ENODATA, AnswerLimit::Room),
        Helper::MapSet    => down_to(ENOSPC, AnswerLimit::Number(0)),
        Helper::MapRm     => down_to(ENODATA, AnswerLimit::Number(0)),
        Helper::MapNext   => down_to(ENODATA, AnswerLimit::RoomOrNumber(NAME_LIMIT as u64)),
        Helper::OutLen    => down_to(0, AnswerLimit::Number(0)),
        Helper::Create    => down_to(EEXIST, AnswerLimit::Number(0)),
        Helper::Caller    => None,
        Helper::Compare   => down_to(1, AnswerLimit::Number(1)),
        Helper::Copy      => down_to(ERANGE, AnswerLimit::Text),
        Helper::XattrNext => down_to(ENODATA, AnswerLimit::RoomOrNumber(NAME_LIMIT as u64)),
    }
}

/// The range from `-errno` to a limit.
fn down_to(errno: u64, most: AnswerLimit) -> Option<AnswerRange>
    ensures { result ≡ down_to errno most }
{
    Some(AnswerRange { errno, most })
}
