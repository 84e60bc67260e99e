//! The helpers, through which a method reads and changes its object. `Helper::of` is the one place
//! that lists the ids; `signature` gives the arguments of the helper of an id, `answer_range` where
//! its answers lie; and each helper has one function, which does as its row of the table says
//! (`specs/Table.antt`), over a staged object if it touches one. A refused helper changes nothing,
//! nor does one whose memory was refused.
#![tactic(auto)]

mod answer;
mod answer_ranges;
mod argument;
mod changes;
mod errno;
mod helper;
mod laws;
mod lookups;
mod memory;
mod plain;
mod span;

pub use answer::{HelperAnswer, copied, negative};
pub use answer_ranges::{AnswerLimit, AnswerRange, answer_range};
pub use argument::{Argument, Signature};
pub use changes::{create, map_rm, map_set, remove, rmxattr, setxattr, truncate, write};
pub use errno::{EBUSY, EEXIST, EFBIG, EINVAL, EIO, ENODATA, ENOENT, ENOMEM, ENOSPC, ERANGE};
pub use helper::{Helper, LAST_HELPER, signature};
pub use laws::{
    answers_are_in_range, edits_lead, edits_make, effects_are_within_limits, effects_keep_the_form,
    errors_by_number,
};
pub use lookups::{key_above, map_value, stat, xattr_above, xattr_value};
pub use memory::{bytes_in, compare, copy, fill, getxattr, map_get, map_next, read, xattr_next};
pub use plain::{caller, compared, out_len};
pub use span::Span;
