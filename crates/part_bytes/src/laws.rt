//! Laws of the spellings, proved as the contracts of functions that do nothing.

ghost use Rattle.std.specs.Prelude.{◌≡◌, ◌≤◌, length};
ghost use Rattle.part_bytes.specs.Part.{PlainPart, IsPart, part_bytes};
ghost use Rattle.part_bytes.specs.Need.{IsNeed, need_bytes};
ghost use Rattle.part_bytes.specs.declared.need.Need as declared;

use crate::limits::NEED_LIMIT;
use crate::need::Need;

/// Equal spellings are of equal parts.
pub fn one_part()
    ensures { (p q : PlainPart) → IsPart p → IsPart q → part_bytes p ≡ part_bytes q → p ≡ q }
{}

/// A need's spelling is short.
pub fn need_is_short(need: &Need)
    ensures { length (need_bytes need.now) ≤ NEED_LIMIT }
{
    match need {
        Need::Blocks { first: _, count: _ } => {}
        Need::Xattr(name) | Need::Key(name) | Need::KeyFrom(name) | Need::XattrFrom(name) => {
            // For the proof: a place has at most as many bytes as it has room for.
            let _len = name.len();
        }
    }
}

/// Equal spellings are of equal needs.
pub fn one_need()
    ensures { (n m : declared.Need) → IsNeed n → IsNeed m → need_bytes n ≡ need_bytes m → n ≡ m }
{}
