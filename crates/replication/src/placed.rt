//! How a member takes a request that the primary sent it.

ghost use Rattle.std.specs.Prelude.{◌≡◌, ◌⊎◌, Err, OnOk, OnErr, None, length};
ghost use mathlib.Core.List.{IsPrefix};
ghost use Rattle.pg_log.specs.Refusals.{refusal};
ghost use Rattle.pg_log.specs.declared.log_error.LogError.TheVariants.{NoMemory};
ghost use Rattle.replication.specs.Places.{append_at_answer, list_with};

use crate::rep::Rep;
use pg_log::{ClassTable, Classes, Group, LogError};

/// Puts a request at its place. If that is the log's length the request is added, and if it is a
/// smaller one nothing changes; both give the length after. A greater place gives none, and changes
/// nothing. Its epoch isn't looked at.
///
/// At the length it refuses as `Group::append` does, but a logged pair is `StaleNumber`, on a full
/// log `LogFull`. A refusal leaves the group as it was.
///
/// The table is that of the earlier calls, or that one with classes added. A place that isn't the
/// length costs the same however long the log is; one that is costs what `Group::append` costs. The
/// request is never copied.
pub fn append_at<C: Classes>(
    group: &mut Group<C>,
    table: &ClassTable,
    rep: Rep,
) -> Result<Option<usize>, LogError>
    requires { IsPrefix table.now C.classes }
    // The answer by the list; want of memory only if the request would be added.
    ensures answer { (result ≡ append_at_answer table.now group.old rep.place rep.request)
        ⊎ ((result ≡ Err NoMemory) × (rep.place ≡ length group.old) ×
        (refusal table.now group.old rep.request ≡ None)) }
    ensures ok { OnOk result (group.new ≡ list_with group.old rep.place rep.request) }
    ensures refused { OnErr result (group.new ≡ group.old) }
{
    let length = group.len();
    // A repeated Rep: the entry is there already, and the length acknowledges it again.
    if rep.place < length {
        return Ok(Some(length));
    }
    if length < rep.place {
        return Ok(None);
    }
    let entry = group.next_entry(table, rep.request)?;
    let place = group.keep(entry)?;
    Ok(Some(place + 1))
}
