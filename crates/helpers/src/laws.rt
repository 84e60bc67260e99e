//! The laws of the table, for the proofs of the crates above, and the numbers of the errors.
ghost use Rattle.std.specs.Prelude.{◌≡◌};
ghost use Rattle.helpers.specs.declared.errno.TheConstants.{ENOENT, EIO, ENOMEM, EBUSY, EEXIST, EINVAL, EFBIG, ENOSPC};
ghost use Rattle.helpers.specs.declared.errno.TheConstants.{ERANGE, ENODATA};
ghost use Rattle.helpers.specs.Edits.{EditsLead, EditsMake};
ghost use Rattle.helpers.specs.Laws.{EffectsAreWithinLimits, EffectsKeepTheForm};
ghost use Rattle.helpers.specs.Ranges.{AnswersAreInRange};

use object_store::{changes_keep_the_form, changes_keep_the_limits, reads_are_within};

/// By the limits of all objects every helper keeps an object within them, and copies bytes, no more than the range has.
/// The function does nothing.
pub fn effects_are_within_limits()
    ensures { EffectsAreWithinLimits }
{
    // For the proof: each change of the table leaves an object within its limits.
    changes_keep_the_limits();
    // For the proof: a read of such an object gives bytes, or a value.
    reads_are_within();
}

/// By any host's limits every helper leaves a well-formed object well formed, and copies bytes, no
/// more than the range has. The function does nothing.
pub fn effects_keep_the_form()
    ensures { EffectsKeepTheForm }
{
    // For the proof: what changes do to data and names.
    changes_keep_the_form();
}

/// Every helper answers a number of its range. The function does nothing.
pub fn answers_are_in_range()
    ensures { AnswersAreInRange }
{}

/// By the limits of all objects the edits of every helper make of the object before the object
/// after, and none of them is refused. The function does nothing.
pub fn edits_lead()
    ensures { EditsLead }
{}

/// By any limits that a host may give the edits of every helper, made without limits, make of the
/// object before the object after. The function does nothing.
pub fn edits_make()
    ensures { EditsMake }
{}

/// The errors by number, as Linux has them. The function does nothing.
pub fn errors_by_number()
    ensures enoent { ENOENT ≡ 2 }
    ensures eio { EIO ≡ 5 }
    ensures enomem { ENOMEM ≡ 12 }
    ensures ebusy { EBUSY ≡ 16 }
    ensures eexist { EEXIST ≡ 17 }
    ensures einval { EINVAL ≡ 22 }
    ensures efbig { EFBIG ≡ 27 }
    ensures enospc { ENOSPC ≡ 28 }
    ensures erange { ERANGE ≡ 34 }
    ensures enodata { ENODATA ≡ 61 }
{}
