//! The operations of a script's lines on a group, and their results.
ghost use mathlib.Core.List.{IsPrefix};

use super::requests::{add_list, bytes_of, call_of, client, number, request_of};
use super::words::{halves, is_code, is_number, number_of, see};
use bpf_asm::assemble_class;
use builtin_classes::{load_lock, load_obj};
use interp::ClassTable;
use pg_log::{
    Classes, Group, GroupWork, LogError, Request, are_same_requests, copy_log, list_refusal,
    with_group,
};
use placement::Epoch;
use replication::{Rep, append_at};
use std::alloc::Global;
use std::mem::replace;
use std::process::Abort;
use verifier::verify;

/// The lines of a text. A line is an operation, a bar, and its result:
///
/// - `new WORDS`: an empty group, which the words describe.
/// - `append REQUEST`, `at PLACE REQUEST`, `adopt LIST`, `replay LIST`: the answer, or the
///   refusal's name. A list is a number of the log's first requests, and the requests after them.
/// - `length`: the log's.
/// - `reply CLIENT NUMBER`: place and code.
/// - `CLIENT OBJECT CLASS METHOD INPUT`: a call by the line's number; its code and its output.
#[derive(Drop)]
pub(super) struct Script<'a, R> {
    pub(super) rt: &'a R,
    pub(super) alloc: Global,
    pub(super) text: &'a str,
}

impl<R: Abort> GroupWork for Script<'_, R> {
    type Output = ();

    ghost gives = { λ _ _ _ _. Unit {0} };

    fn work<C: Classes>(self, table: &ClassTable, mut group: Group<C>) {
        go_on_with(&self, table, &mut group);
        drop(group);
    }
}

/// A class whose method writes three bytes of its input, and fails.
const FAILS: &str = ".method f w 3 0
mov r2, r1
mov r1, 0
mov r3, 3
call 3
mov r0, -5
exit
";

/// Both built-in classes, and one that fails.
pub(super) fn table<R: Abort>(rt: &R, alloc: Global) -> ClassTable {
    let mut table = ClassTable::new(alloc);
    for class in [load_lock(alloc), load_obj(alloc)] {
        table.add(class.expect(rt, "a class")).expect(rt, "room");
    }
    let image = assemble_class(alloc, FAILS).expect(rt, "a class");
    let class = verify(alloc, &image).expect(rt, "a safe class");
    table.add(class).expect(rt, "room");
    table
}

/// Does the lines of a text with an empty group.
pub(super) fn check<R: Abort>(rt: &R, alloc: Global, text: &str) {
    let table = table(rt, alloc);
    with_group(alloc, &table, Script { rt, alloc, text });
}

/// Does the lines of a text with a group.
pub(super) fn go_on_with<C: Classes, R: Abort>(
    script: &Script<'_, R>,
    table: &ClassTable,
    group: &mut Group<C>,
)
    requires { IsPrefix table.now C.classes }
{
    let (rt, alloc) = (script.rt, script.alloc);
    let mut number = 0u32;
    for line in script.text.lines() {
        number = number.wrapping_add(1);
        let parts = line_of(line, number);
        let is_done = is_done(rt, alloc, table, group, &parts);
        see(rt, is_done, line);
    }
}

/// A line of a text, by its parts.
#[derive(Clone, Copy)]
struct Line<'a> {
    number: u32,
    what: &'a str,
    said: &'a str,
    wanted: &'a str,
}

fn line_of(line: &str, number: u32) -> Line<'_> {
    let (done, wanted) = halves(line, '|');
    let (what, said) = halves(done, ' ');
    Line {
        number,
        what,
        said,
        wanted,
    }
}

/// True if the operation of a line on a group has the result that the line says.
fn is_done<C: Classes, R: Abort>(
    rt: &R,
    alloc: Global,
    table: &ClassTable,
    group: &mut Group<C>,
    line: &Line<'_>,
) -> bool
    requires { IsPrefix table.now C.classes }
{
    match line.what {
        "append" => is_answer(
            group.append(table, request_of(rt, alloc, line.said)),
            line.wanted,
        ),
        "at" => is_placed(rt, alloc, table, group, line),
        "adopt" => is_adopted(rt, alloc, table, group, line),
        "replay" => is_replayed(rt, alloc, table, group, line),
        "new" => becomes(group, Ok(Group::new(alloc))).is_ok(),
        "length" => has_length(rt, alloc, group, line.wanted),
        "reply" => is_logged(rt, group, line),
        _ => is_called(rt, alloc, table, group, line),
    }
}

/// True if an answer is as wanted: a place or a length, or a refusal's name.
fn is_answer(answer: Result<usize, LogError>, wanted: &str) -> bool {
    match answer {
        Ok(place) => is_number(wanted, place as u64),
        Err(error) => error.name() == wanted,
    }
}

/// True if a request that arrives for a place is answered as the line says: `none` if it arrives
/// too early.
fn is_placed<C: Classes, R: Abort>(
    rt: &R,
    alloc: Global,
    table: &ClassTable,
    group: &mut Group<C>,
    line: &Line<'_>,
) -> bool
    requires { IsPrefix table.now C.classes }
{
    let (place, request) = halves(line.said, ' ');
    let rep = Rep {
        epoch: Epoch::new(1),
        place: number_of(rt, place) as usize,
        request: request_of(rt, alloc, request),
    };
    match append_at(group, table, rep).transpose() {
        None => line.wanted == "none",
        Some(answer) => is_answer(answer, line.wanted),
    }
}

/// The list of a text: a number of the first requests of a group's log, and then more requests.
fn list_of<C: Classes, R: Abort>(
    rt: &R,
    alloc: Global,
    group: &Group<C>,
    text: &str,
) -> Vec<Request> {
    let (count, rest) = halves(text, ';');
    let mut list = copy_log(alloc, group.entries()).expect(rt, "memory");
    list.truncate(number_of(rt, count) as usize);
    add_list(rt, alloc, &mut list, rest);
    list
}

/// True if adopting a list is answered as the line says.
fn is_adopted<C: Classes, R: Abort>(
    rt: &R,
    alloc: Global,
    table: &ClassTable,
    group: &mut Group<C>,
    line: &Line<'_>,
) -> bool
    requires { IsPrefix table.now C.classes }
{
    let list = list_of(rt, alloc, group, line.said);
    is_answer(group.adopt(table, &list), line.wanted)
}

/// True if replaying a list is answered as the line says, and its test gives the same refusal.
fn is_replayed<C: Classes, R: Abort>(
    rt: &R,
    alloc: Global,
    table: &ClassTable,
    group: &mut Group<C>,
    line: &Line<'_>,
) -> bool
    requires { IsPrefix table.now C.classes }
{
    let list = list_of(rt, alloc, group, line.said);
    let is_tested = match list_refusal(alloc, table, &list).expect(rt, "memory") {
        Some(why) => why.name() == line.wanted,
        None => is_number(line.wanted, list.len() as u64),
    };
    let answer = becomes(group, Group::<C>::replay(alloc, table, &list));
    is_tested & is_answer(answer, line.wanted)
}

/// The group becomes another, unless there is none. It gives the log's length.
fn becomes<C: Classes>(
    group: &mut Group<C>,
    new: Result<Group<C>, LogError>,
) -> Result<usize, LogError> {
    match new {
        Err(error) => Err(error),
        Ok(new) => {
            drop(replace(group, new));
            Ok(group.len())
        }
    }
}

/// True if the log has this length, and begins with its copied list.
fn has_length<C: Classes, R: Abort>(rt: &R, alloc: Global, group: &Group<C>, wanted: &str) -> bool {
    let list = copy_log(alloc, group.entries()).expect(rt, "memory");
    let again = copy_log(alloc, group.entries()).expect(rt, "memory");
    is_number(wanted, group.len() as u64)
        & is_number(wanted, list.len() as u64)
        & group.begins_with(&list)
        & are_same_requests(&list, &again)
}

/// True if the request of a client and a number has this place and code.
fn is_logged<C: Classes, R: Abort>(rt: &R, group: &Group<C>, line: &Line<'_>) -> bool {
    let (who, value) = halves(line.said, ' ');
    let who = client(rt, number_of(rt, who));
    let (place, code) = halves(line.wanted, ' ');
    match group.reply_of(who, number(rt, number_of(rt, value))) {
        None => false,
        Some((at, found, _output)) => is_number(place, at as u64) & is_code(code, found),
    }
}

/// True if the call of a line is appended at the end, and gets its reply.
fn is_called<C: Classes, R: Abort>(
    rt: &R,
    alloc: Global,
    table: &ClassTable,
    group: &mut Group<C>,
    line: &Line<'_>,
) -> bool
    requires { IsPrefix table.now C.classes }
{
    let end = group.len();
    let who = number_of(rt, line.what);
    let mut words = line.said.split_whitespace();
    let request = call_of(rt, alloc, who, line.number, &mut words);
    group.append(table, request).ok() == Some(end) && is_reply(rt, alloc, group, end, line.wanted)
}

/// True if the reply at a place has this code and this output.
fn is_reply<C: Classes, R: Abort>(
    rt: &R,
    alloc: Global,
    group: &Group<C>,
    place: usize,
    wanted: &str,
) -> bool {
    let (code_word, output_word) = halves(wanted, ' ');
    match group.reply_at(place) {
        None => false,
        Some((code, output)) => {
            let bytes = bytes_of(rt, alloc, output_word);
            is_code(code_word, code) & (output == bytes.as_slice())
        }
    }
}
