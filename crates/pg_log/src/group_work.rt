ghost use Rattle.std.specs.Prelude.{◌≡◌, []};
ghost use mathlib.Core.List.{IsPrefix};

use crate::classes::Classes;
use crate::group::Group;
use interp::ClassTable;
use std::alloc::Global;
use std::marker::Brand;

/// Work on a group and the table of its classes, for any name (`Classes`) of these.
pub trait GroupWork {
    ghost use Rattle.std.specs.Prelude.{List};
    ghost use Rattle.bpf_decode.specs.Class.{ClassMethod};
    ghost use Rattle.pg_log.specs.Requests.{ClientRequest};

    /// The result of the work.
    type Output;

    /// The postcondition of the result, by the work, the classes, and the list of the group that it
    /// is handed.
    ghost gives: { Self → List (List ClassMethod) → List ClientRequest → Self.Output → Type 0 };

    /// Does the work. All calls on the group may be given the table.
    fn work<C: Classes>(self, table: &ClassTable, group: Group<C>) -> Self::Output
        requires table { table.now ≡ C.classes }
        requires fits { IsPrefix table.now C.classes }
        ensures { gives self C.classes group result };
}

/// Names the classes of a table, and does the work with it and an empty group for those classes.
pub fn with_group<W: GroupWork>(alloc: Global, table: &ClassTable, work: W) -> W::Output
    ensures { W.gives work table.now [] result }
{
    start::<Brand, W>(alloc, table, work)
}

/// The same, for classes that have a name.
// A function of its own, as `go_on_as` is: a call picks the names that the called function takes.
pub fn start<C: Classes, W: GroupWork>(alloc: Global, table: &ClassTable, work: W) -> W::Output
    requires { table.now ≡ C.classes }
    ensures { W.gives work table.now [] result }
{
    work.work::<C>(table, Group::new(alloc))
}

/// Goes on with a group after classes were added to its table: names the classes of the longer
/// table, and does the work with it and the same group for those classes.
pub fn go_on<C: Classes, W: GroupWork>(table: &ClassTable, group: Group<C>, work: W) -> W::Output
    requires { IsPrefix C.classes table.now }
    ensures { W.gives work table.now group result }
{
    go_on_as::<C, Brand, W>(table, group, work)
}

/// The same, for classes that have a name.
pub fn go_on_as<C: Classes, D: Classes, W: GroupWork>(
    table: &ClassTable,
    group: Group<C>,
    work: W,
) -> W::Output
    requires table { table.now ≡ D.classes }
    requires fits { IsPrefix C.classes D.classes }
    ensures { W.gives work table.now group result }
{
    work.work::<D>(table, group.with_classes_added::<D>())
}
