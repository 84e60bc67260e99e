//! The classes of a table are verified. The calls change nothing: what the type of a class promises
//! is known of a class that is looked at.
ghost use Rattle.std.specs.Prelude.{IfSome, slice_get};
ghost use Rattle.std.specs.List.{AllByRecursion};
ghost use Rattle.verifier.specs.Verified.{IsVerifiedClass};

use pg_log::ClassTable;

/// The class of an id is verified, if there is one.
fn is_verified(table: &ClassTable, id: usize)
    ensures { IfSome (slice_get table.now id) IsVerifiedClass }
{
    match table.get(id) {
        Some(class) => {
            let _ = class.methods();
        }
        None => {}
    }
}

/// Each class of a table is verified.
pub(crate) fn are_verified(table: &ClassTable)
    ensures { AllByRecursion IsVerifiedClass table.now }
{
    for id in 0..table.len() {
        is_verified(table, id);
    }
}
