//! Rows of a group's log: `append`, `append_at`, `adopt` and `replay`, 3 NoMemory.
ghost use mathlib.Core.List.{IsPrefix};

use crate::ending::Ending;
use crate::made::{Asked, list_of, names_of, request_of, table_of};
use crate::store::same;
use object_store::ObjectName;
use pg_log::{ClassTable, Classes, Group, GroupWork, LogError, Request, with_group};
use placement::Epoch;
use replication::{Rep, append_at};
use std::alloc::Global;

/// A call of a log.
#[derive(Clone, Copy)]
pub enum Verb {
    Append,
    AppendAt,
    Adopt,
    Replay,
}

/// Puts its input after the object's data and answers their length; sets the xattr and the key of
/// its input's first byte.
const KEEP: &str = ".method keep rw 4 0\nmov r6, r1\ncall 1\n\
    jsge r0, 0, there\nmov r0, 0\n\
    there:\nmov r1, r0\nmov r2, r6\nmov r3, 4\ncall 3\n\
    mov r1, r6\nmov r2, 1\nmov r3, r6\nmov r4, 4\ncall 7\n\
    mov r1, r6\nmov r2, 1\nmov r3, r6\nmov r4, 4\ncall 10\n\
    call 1\nexit\n";

/// The log before: as many entries as its first room has.
const LOGGED: [Asked; 4] = [
    (1, 1, "a", "keep", b"xone"),
    (2, 1, "a", "keep", b"ytwo"),
    (1, 2, "b", "keep", b"zsix"),
    (3, 1, "a", "keep", b"xten"),
];

/// The request that is appended.
const NEXT: Asked = (4, 1, "a", "keep", b"zall");

/// A list that has the first entry of the log alone.
const OTHER: [Asked; 5] = [
    (1, 1, "a", "keep", b"xone"),
    (1, 3, "b", "keep", b"xred"),
    (4, 1, "a", "keep", b"zall"),
    (2, 1, "c", "keep", b"ytwo"),
    (5, 1, "a", "keep", b"xend"),
];

/// The names of the objects.
const NAMES: [&str; 3] = ["a", "b", "c"];

/// True if two logs have the same entries with the same replies, and the same objects of those
/// names.
pub fn same_logs<C: Classes>(one: &Group<C>, other: &Group<C>, names: &[ObjectName]) -> bool {
    same_entries(one, other) && same_objects(one, other, names)
}

fn same_entries<C: Classes>(one: &Group<C>, other: &Group<C>) -> bool {
    let (first, second) = (one.entries(), other.entries());
    for k in 0..first.len().min(second.len()) {
        let is_same = first[k].request.is(&second[k].request)
            && first[k].code == second[k].code
            && first[k].output.as_slice() == second[k].output.as_slice();
        if !is_same {
            return false;
        }
    }
    first.len() == second.len()
}

fn same_objects<C: Classes>(one: &Group<C>, other: &Group<C>, names: &[ObjectName]) -> bool {
    for name in names {
        if !same(one.object(name), other.object(name)) {
            return false;
        }
    }
    true
}

/// True if the log has that many entries, and the last one has that code.
fn ends<C: Classes>(group: &Group<C>, len: usize, code: i64) -> bool {
    match group.entries().last() {
        None => false,
        Some(entry) => group.len() == len && entry.code == code,
    }
}

/// True if the log is that list, and its last entry has the code 12.
fn is_other<C: Classes>(group: &Group<C>, list: &[Request]) -> bool {
    let entries = group.entries();
    for k in 0..list.len().min(entries.len()) {
        if !entries[k].request.is(&list[k]) {
            return false;
        }
    }
    list.len() == 5 && ends(group, 5, 12)
}

/// The log before, and what the calls are given.
#[derive(Drop)]
struct Trial<C: Classes> {
    names: Vec<ObjectName>,
    before: Group<C>,
    list: Vec<Request>,
}

impl<C: Classes> Trial<C> {
    fn of(alloc: Global, group: &Group<C>) -> Option<Trial<C>> {
        let before = group.copy(alloc).ok()?;
        Some(Trial {
            names: names_of(alloc, &NAMES)?,
            before,
            list: list_of(alloc, &OTHER)?,
        })
    }

    /// The end of a refused call.
    fn refused(&self, group: &Group<C>, error: LogError) -> Ending {
        let is_named = error == LogError::NoMemory && error.number() == 3;
        Ending::refused(is_named && same_logs(group, &self.before, &self.names))
    }

    fn append(&self, table: &ClassTable, group: &mut Group<C>, request: Request) -> Ending
        requires { IsPrefix table.now C.classes }
    {
        match group.append(table, request) {
            Ok(place) => Ending::of(place == 4 && ends(group, 5, 16)),
            Err(error) => self.refused(group, error),
        }
    }

    fn append_at(&self, table: &ClassTable, group: &mut Group<C>, request: Request) -> Ending
        requires { IsPrefix table.now C.classes }
    {
        let rep = Rep {
            epoch: Epoch::new(1),
            place: 4,
            request,
        };
        match append_at(group, table, rep) {
            Ok(len) => Ending::of(len == Some(5) && ends(group, 5, 16)),
            Err(error) => self.refused(group, error),
        }
    }

    fn adopt(&self, table: &ClassTable, group: &mut Group<C>) -> Ending
        requires { IsPrefix table.now C.classes }
    {
        match group.adopt(table, &self.list) {
            Ok(common) => Ending::of(common == 1 && is_other(group, &self.list)),
            Err(error) => self.refused(group, error),
        }
    }

    fn replay(&self, alloc: Global, table: &ClassTable) -> Ending
        requires { IsPrefix table.now C.classes }
    {
        match Group::<C>::replay(alloc, table, &self.list) {
            Ok(group) => Ending::of(is_other(&group, &self.list)),
            Err(error) => Ending::refused(error == LogError::NoMemory && error.number() == 3),
        }
    }

    /// Makes the call on the log of four entries.
    fn end(
        &self,
        alloc: Global,
        table: &ClassTable,
        group: &mut Group<C>,
        verb: Verb,
    ) -> Option<Ending>
        requires { IsPrefix table.now C.classes }
    {
        Some(match verb {
            Verb::Append => self.append(table, group, request_of(alloc, &NEXT)?),
            Verb::AppendAt => self.append_at(table, group, request_of(alloc, &NEXT)?),
            Verb::Adopt => self.adopt(table, group),
            Verb::Replay => self.replay(alloc, table),
        })
    }
}

fn append_all<C: Classes>(alloc: Global, table: &ClassTable, group: &mut Group<C>) -> Option<()>
    requires { IsPrefix table.now C.classes }
{
    for request in list_of(alloc, &LOGGED)? {
        group.append(table, request).ok()?;
    }
    Some(())
}

/// The end of a call on a new group's log.
fn ending<C: Classes>(
    alloc: Global,
    table: &ClassTable,
    group: &mut Group<C>,
    verb: Verb,
) -> Option<Ending>
    requires { IsPrefix table.now C.classes }
{
    append_all(alloc, table, group)?;
    let trial = Trial::of(alloc, group)?;
    match trial.end(alloc, table, group, verb) {
        Some(Ending::Refused) => Some(Ending::Refused.then(trial.end(alloc, table, group, verb))),
        ending => ending,
    }
}

#[derive(Drop)]
struct Row {
    alloc: Global,
    verb: Verb,
}

impl GroupWork for Row {
    type Output = Option<Ending>;

    ghost gives = { λ _ _ _ _. Unit {0} };

    fn work<C: Classes>(self, table: &ClassTable, mut group: Group<C>) -> Option<Ending> {
        ending(self.alloc, table, &mut group, self.verb)
    }
}

/// A call of a log.
pub fn logged(alloc: Global, verb: Verb) -> Option<Ending> {
    let table = table_of(alloc, KEEP)?;
    with_group(alloc, &table, Row { alloc, verb })
}
