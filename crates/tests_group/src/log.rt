//! The log of a group: the worked rows of its answers and refusals, and the parts of a request.
ghost use Rattle.std.specs.Prelude.{◌≡◌};
ghost use mathlib.Core.List.{IsPrefix};

use super::requests::request_of;
use super::script::{Script, check, go_on_with, table};
use super::words::{halves, see};
use builtin_classes::{load_lock, load_obj};
use interp::ClassTable;
use pg_log::{Classes, ClientId, Group, Request, RequestNumber, class_refusal, go_on};
use std::alloc::Global;
use std::marker::Brand;
use std::process::Abort;
use verifier::VerifiedClass;

/// Answers of the log, worked out by hand.
const ROWS: &str =
    "new refusals: two clients, a logged pair whatever else the request holds, and each but a full log
append 1 5 a lock lock - | 0
append 1 5 a lock lock - | 0
append 1 5 b none g 61 | 0
append 1 4 a lock lock - | StaleNumber
append 2 1 a none steal 61 | NoClass
append 2 1 a lock steal 61 | NoMethod
append 2 1 a lock lock 61 | InputTooLong
length | 1
append 2 1 a lock lock - | 1
append 2 4294967295 a obj stat - | 2
length | 3
reply 1 5 | 0 0
reply 2 1 | 1 -16
reply 2 4294967295 | 2 0
replay 2; 2 2 a obj stat - | 3
reply 2 2 | 2 0
replay 2; 1 5 a lock lock - | StaleNumber
new a call that wrote and failed is logged, and its object is absent
1 a fails f 616263 | -5 -
length | 1
1 a obj stat - | -2 -
new the owner's unlock and second lock are undone, so the lock is still the owner's
append 1 1 a lock lock - | 0
append 1 2 a lock unlock - | 1
append 1 3 a lock lock - | 2
adopt 1; 2 1 a lock lock - | 1
length | 2
reply 2 1 | 1 -16
adopt 2; 1 1 a lock lock - | StaleNumber
length | 2
adopt 1 | 1
length | 1
new places: past the end, the end, an earlier one, and at the end a logged pair and a lower number
at 1 1 2 a lock lock - | none
at 0 1 1 a lock lock - | 1
at 0 1 1 a lock lock - | 1
at 1 1 2 a lock lock - | 2
at 2 1 2 a lock lock - | StaleNumber
at 2 1 1 a lock lock - | StaleNumber
at 0 2 1 a lock lock - | 2
length | 2";

#[test]
fn answers_and_refusals_of_the_log(rt: HostRuntime) {
    check(&rt, rt.alloc(), ROWS);
}

/// The second request names a class that isn't loaded; and then it is.
const BEFORE: &str = "append 1 1 a lock lock - | 0
append 1 2 b obj stat - | NoClass";

const AFTER: &str = "append 1 2 b obj stat - | 1
reply 1 2 | 1 -2";

/// Goes on with a group after the class was added to its table.
fn go_on_after<C: Classes, R: Abort>(rt: &R, alloc: Global, table: &ClassTable, group: Group<C>)
    requires { IsPrefix C.classes table.now }
{
    let text = AFTER;
    go_on(table, group, Script { rt, alloc, text });
}

/// Does the lines before, and those after the class is loaded.
fn adds<C: Classes, R: Abort>(rt: &R, alloc: Global, mut table: ClassTable, class: VerifiedClass)
    requires { table ≡ C.classes }
{
    let text = BEFORE;
    let mut group = Group::<C>::new(alloc);
    go_on_with(&Script { rt, alloc, text }, &table, &mut group);
    // The lines after it name the class by its number.
    let _ = table.add(class).expect(rt, "memory");
    go_on_after(rt, alloc, &table, group);
}

/// A class added between two appends can be named by the second.
#[test]
fn class_added(rt: HostRuntime) {
    let alloc = rt.alloc();
    let mut table = ClassTable::new(alloc);
    let lock = load_lock(alloc).expect(&rt, "a class");
    // The lines name the class by its number.
    let _ = table.add(lock).expect(&rt, "memory");
    let obj = load_obj(alloc).expect(&rt, "a class");
    adds::<Brand, HostRuntime>(&rt, alloc, table, obj);
}

/// A request, and why the classes can't run it: a class that isn't loaded comes before a method
/// that there isn't, and that before a long input.
const CLASS_ROWS: &str = "1 1 a lock lock - |
1 1 a lock lock 61 | InputTooLong
1 1 a fails f 616263 |
1 1 a fails f 61626364 | InputTooLong
1 1 a lock steal 61 | NoMethod
1 1 a none steal 61 | NoClass";

/// The name of the refusal of a request by the classes, or nothing if they can run it.
fn refusal_name(table: &ClassTable, request: &Request) -> &'static str {
    match class_refusal(table, request) {
        Some(why) => why.name(),
        None => "",
    }
}

#[test]
fn refusals_by_class(rt: HostRuntime) {
    let table = table(&rt, rt.alloc());
    for line in CLASS_ROWS.lines() {
        let (text, wanted) = halves(line, '|');
        let request = request_of(&rt, rt.alloc(), text);
        see(&rt, refusal_name(&table, &request) == wanted, line);
    }
}

#[test]
fn numbers_begin_at_one(rt: HostRuntime) {
    assert!(rt; ClientId::new(0).is_none() && RequestNumber::new(0).is_none());
}
