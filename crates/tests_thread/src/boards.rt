//! Commits of several writers, read by several threads.
ghost use Rattle.std.specs.Prelude.{◌≡◌, ◌<◌, ◌≤◌, [], length};

use crate::locks::request;
use commit_board::{Board, NoMemory, Note, Seen, Writer};
use std::alloc::Global;
use std::process::Abort;
use std::thread::{Threads, join};

/// The number of requests that each thread commits.
const MANY: u64 = 1000;

/// Commits a request `times` times. The board counts only, so it may be the same each time.
fn commit_many<R: Abort>(rt: &R, alloc: Global, board: &Board, writer: &mut Writer, times: u64)
    requires board { writer.old.board ≡ board.now }
    requires new { writer.old.list ≡ [] }
    requires times { times ≤ 1000 }
    ensures board { writer.new.board ≡ board.now }
    ensures row { writer.new.row ≡ writer.old.row }
    ensures length { length writer.new.list ≡ times }
{
    let request = request(rt, alloc, 1, 1);
    for _ in 0..times {
        board.commit(writer, &request);
    }
}

/// A writer's thread: it commits, and tells of it by a note.
fn write<R: Abort>(rt: &R, alloc: Global, board: &Board, mut writer: Writer) -> (Writer, Note)
    requires board { writer.board ≡ board.now }
    requires new { writer.list ≡ [] }
    ensures writer { result.0.board ≡ board.now }
    ensures note { result.1.board ≡ board.now }
{
    commit_many(rt, alloc, board, &mut writer, MANY);
    let note = board.share(&mut writer);
    (writer, note)
}

/// A looking thread. Returns true if the row only grew, up to the number of all commits.
fn watch(board: &Board, mut seen: Seen) -> (Seen, bool)
    requires board { seen.board ≡ board.now }
    requires rows { 1 ≤ board.now.words }
    ensures { result.0.board ≡ board.now }
{
    let mut last = 0;
    let mut rising = true;
    for _ in 0..MANY {
        let found = board.look(&mut seen, 0);
        rising = rising && last <= found && found <= MANY;
        last = found;
    }
    (seen, rising)
}

/// The count that a token without any knowledge finds in the first row, after three commits there.
fn found_late<R: Abort>(
    rt: &R,
    alloc: Global,
    board: &Board,
    mut writer: Writer,
    mut seen: Seen,
) -> u64
    requires writer { writer.board ≡ board.now }
    requires new { writer.list ≡ [] }
    requires seen { seen.board ≡ board.now }
    requires rows { 0 < board.now.words }
{
    commit_many(rt, alloc, board, &mut writer, 3);
    let mut late = board.fresh(&mut seen);
    board.look(&mut late, 0)
}

#[test]
fn a_fresh_token_sees_three_commits(rt: HostRuntime) {
    let (board, mut writers, seen) = Board::new(rt.alloc(), 1).expect(&rt, "memory");
    let writer = writers.pop().expect(&rt, "a writer");
    assert!(rt; found_late(&rt, rt.alloc(), &board, writer, seen) == 3);
}

#[test]
fn a_thousand_rows(rt: HostRuntime) {
    let (board, writers, mut seen) = Board::new(rt.alloc(), 1000).expect(&rt, "memory");
    assert!(rt; writers.len() == 1000 && board.look(&mut seen, 999) == 0);
}

#[test]
fn the_refusal_prints_its_name(rt: HostRuntime) {
    let name = NoMemory.to_string(rt.alloc()).expect(&rt, "memory");
    assert!(rt; name.as_str() == "NoMemory");
}

/// The writers of two rows.
#[derive(Drop)]
struct TwoWriters {
    first: Writer,
    second: Writer,
}

/// True if two rows have counts of their own, after five commits to the second and two to the
/// first.
fn are_apart<R: Abort>(
    rt: &R,
    alloc: Global,
    board: &Board,
    writers: TwoWriters,
    mut seen: Seen,
) -> bool
    requires first { writers.first.board ≡ board.now }
    requires second { writers.second.board ≡ board.now }
    requires new { writers.first.list ≡ [] × writers.second.list ≡ [] }
    requires seen { seen.board ≡ board.now }
    requires rows { 1 < board.now.words }
{
    let TwoWriters {
        mut first,
        mut second,
    } = writers;
    commit_many(rt, alloc, board, &mut second, 5);
    commit_many(rt, alloc, board, &mut first, 2);
    let in_first = board.look(&mut seen, 0);
    let in_second = board.look(&mut seen, 1);
    first.row() == 0 && second.row() == 1 && in_first == 2 && in_second == 5
}

#[test]
fn neighbouring_rows_have_counts_of_their_own(rt: HostRuntime) {
    let (board, mut writers, seen) = Board::new(rt.alloc(), 2).expect(&rt, "memory");
    let two = TwoWriters {
        second: writers.pop().expect(&rt, "a writer"),
        first: writers.pop().expect(&rt, "a writer"),
    };
    assert!(rt; are_apart(&rt, rt.alloc(), &board, two, seen));
}

/// The count in the first row for a token that heard of it through another token's note.
fn heard(board: &Board, mut writer: Writer, note: Note, mut late: Seen, mut seen: Seen) -> u64
    requires writer { writer.board ≡ board.now }
    requires note { note.board ≡ board.now }
    requires late { late.board ≡ board.now }
    requires seen { seen.board ≡ board.now }
    requires rows { 0 < board.now.words }
{
    board.meet(&mut late, note);
    board.compare(&mut writer, &mut late);
    let note = board.tell(&mut late);
    board.meet(&mut seen, note);
    board.look(&mut seen, 0)
}

/// Checks that a token hears of the commits of another thread while a third looks.
fn carry_notes<R: Threads + Abort + Sync>(
    rt: &R,
    alloc: Global,
    board: &Board,
    writer: Writer,
    mut seen: Seen,
)
    requires writer { writer.board ≡ board.now }
    requires new { writer.list ≡ [] }
    requires seen { seen.board ≡ board.now }
    requires rows { 1 ≤ board.now.words }
{
    let late = board.fresh(&mut seen);
    let ((writer, note), (late, rising)) = join(
        rt,
        || -> (Writer, Note)
            requires board { writer.board ≡ board.now }
            requires new { writer.list ≡ [] }
            ensures writer { result.0.board ≡ board.entry.now }
            ensures note { result.1.board ≡ board.entry.now }
        { write(rt, alloc, board, writer) },
        || -> (Seen, bool)
            requires board { late.board ≡ board.now }
            requires rows { 1 ≤ board.now.words }
            ensures { result.0.board ≡ board.entry.now }
        { watch(board, late) },
    );
    let found = heard(board, writer, note, late, seen);
    assert!(rt; rising);
    assert!(rt; found == MANY);
}

#[test]
fn notes_are_carried_between_threads(rt: HostRuntime) {
    let (board, mut writers, seen) = Board::new(rt.alloc(), 1).expect(&rt, "memory");
    let writer = writers.pop().expect(&rt, "a writer");
    carry_notes(&rt, rt.alloc(), &board, writer, seen);
}
