//! Queues of operations among threads.

ghost use Rattle.std.specs.Prelude.{◌≡◌, ◌<◌, length, IsTrue};
ghost use Rattle.op_shards.specs.Passes.{Grew, WasSent};

use op_shards::{GroupOp, OpShards, SendPass, TakePass, sending_goes_on};
use std::alloc::Global;
use std::marker::Brand;
use std::process::Abort;
use std::sync::Wait;
use std::sync::atomic::{AtomicU64, Ordering};
use std::thread::{Threads, join, yield_now};

const SHARDS: usize = 5;

/// The number of operations that each of the four senders sends.
const EACH: usize = 25_000;

/// An operation with its sender, and its number among all of this sender's.
#[derive(Drop)]
struct Job {
    group: usize,
    sender: usize,
    number: usize,
}

impl GroupOp for Job {
    ghost group = { λ j. j.group };

    fn group(&self) -> usize {
        self.group
    }
}

fn request(group: usize) -> Job
    ensures { result.group ≡ group }
{
    Job {
        group,
        sender: 0,
        number: 0,
    }
}

/// Sends to seventeen groups in turn, each operation until it is accepted.
fn send_all<R: Wait>(rt: &R, shards: &OpShards<Job>, mut pass: SendPass<Job>, sender: usize)
    requires { pass.queues ≡ shards.now.queues }
{
    let mut number = 0;
    for _ in rt.forever() {
        if number >= EACH {
            break;
        }
        let job = Job {
            group: number % 17,
            sender,
            number,
        };
        match shards.submit(rt, &mut pass, job) {
            Ok(()) => number += 1,
            Err(_) => yield_now(),
        }
    }
}

/// Takes from each shard in turn, until all takers together have taken all. Returns the operations
/// that it took, in order.
fn take_all<R: Wait + Abort>(
    rt: &R,
    alloc: Global,
    shards: &OpShards<Job>,
    mut pass: TakePass<Job>,
    taken: &AtomicU64,
) -> Vec<Job>
    requires { pass.queues ≡ shards.now.queues }
{
    let mut jobs = Vec::new(alloc);
    take_into(rt, shards, &mut pass, taken, &mut jobs);
    jobs
}

/// Appends the operations that it takes.
fn take_into<R: Wait + Abort>(
    rt: &R,
    shards: &OpShards<Job>,
    pass: &mut TakePass<Job>,
    taken: &AtomicU64,
    jobs: &mut Vec<Job>,
)
    requires { pass.old.queues ≡ shards.now.queues }
{
    let mut shard = 0;
    for _ in rt.forever() {
        if taken.load(Ordering::SeqCst) >= 4 * EACH as u64 {
            break;
        }
        if shard >= shards.count() {
            shard = 0;
        }
        match shards.take(rt, pass, shard) {
            Some(job) => {
                taken.fetch_add(1, Ordering::SeqCst);
                jobs.push(job).expect(rt, "memory");
            }
            None => yield_now(),
        }
        shard += 1;
    }
}

fn send_two<R: Threads + Wait + Sync>(
    rt: &R,
    shards: &OpShards<Job>,
    first: SendPass<Job>,
    second: SendPass<Job>,
    sender: usize,
)
    requires first { first.queues ≡ shards.now.queues }
    requires second { second.queues ≡ shards.now.queues }
{
    join(
        rt,
        || send_all(rt, shards, first, sender),
        || send_all(rt, shards, second, sender.wrapping_add(1)),
    );
}

/// The passes of two senders, the first of them with the number `sender`, and of a taker.
#[derive(Drop)]
struct Crew {
    first: SendPass<Job>,
    second: SendPass<Job>,
    sender: usize,
    take: TakePass<Job>,
}

/// Runs a crew. Returns the operations that its taker took.
fn run_crew<R: Threads + Wait + Abort + Sync>(
    rt: &R,
    alloc: Global,
    shards: &OpShards<Job>,
    crew: Crew,
    taken: &AtomicU64,
) -> Vec<Job>
    requires first { crew.first.queues ≡ shards.now.queues }
    requires second { crew.second.queues ≡ shards.now.queues }
    requires take { crew.take.queues ≡ shards.now.queues }
{
    let Crew {
        first,
        second,
        sender,
        take,
    } = crew;
    let ((), jobs) = join(
        rt,
        ||
            requires first { first.queues ≡ shards.now.queues }
            requires second { second.queues ≡ shards.now.queues }
        { send_two(rt, shards, first, second, sender) },
        || take_all(rt, alloc, shards, take, taken),
    );
    jobs
}

/// Two crews, four senders and two takers.
#[derive(Drop)]
struct TwoCrews {
    one: Crew,
    two: Crew,
}

/// Runs two crews and a third taker.
fn run_crews<R: Threads + Wait + Abort + Sync>(
    rt: &R,
    alloc: Global,
    shards: &OpShards<Job>,
    crews: TwoCrews,
    taken: &AtomicU64,
) -> (Vec<Job>, Vec<Job>)
    requires first_one { crews.one.first.queues ≡ shards.now.queues }
    requires second_one { crews.one.second.queues ≡ shards.now.queues }
    requires take_one { crews.one.take.queues ≡ shards.now.queues }
    requires first_two { crews.two.first.queues ≡ shards.now.queues }
    requires second_two { crews.two.second.queues ≡ shards.now.queues }
    requires take_two { crews.two.take.queues ≡ shards.now.queues }
{
    let TwoCrews { one, two } = crews;
    join(
        rt,
        || -> Vec<Job>
            requires first { one.first.queues ≡ shards.now.queues }
            requires second { one.second.queues ≡ shards.now.queues }
            requires take { one.take.queues ≡ shards.now.queues }
        { run_crew(rt, alloc, shards, one, taken) },
        || -> Vec<Job>
            requires first { two.first.queues ≡ shards.now.queues }
            requires second { two.second.queues ≡ shards.now.queues }
            requires take { two.take.queues ≡ shards.now.queues }
        { run_crew(rt, alloc, shards, two, taken) },
    )
}

/// True if an operation is no earlier than the next one due of its sender and shard. Then the one
/// after it is due.
fn is_due(next: &mut [usize], job: &Job) -> bool {
    let place = job
        .sender
        .wrapping_mul(SHARDS)
        .wrapping_add(job.group % SHARDS);
    match next.get_mut(place) {
        None => false,
        Some(due) => {
            let is_due = *due <= job.number;
            *due = job.number.wrapping_add(1);
            is_due
        }
    }
}

/// True if the operations of each sender and shard are in the order in which they were sent.
fn in_order(jobs: &[Job]) -> bool {
    // One for each of four senders and five shards.
    let mut next = [0usize; 20];
    let mut all = true;
    for job in jobs {
        all = all && is_due(&mut next, job);
    }
    all
}

/// Adds to the count of an operation. False if there is no such operation.
fn count_one(counts: &mut [u8], job: &Job) -> bool {
    let place = job.sender.wrapping_mul(EACH).wrapping_add(job.number);
    match counts.get_mut(place) {
        None => false,
        Some(count) => {
            *count = count.wrapping_add(1);
            job.number < EACH
        }
    }
}

/// Adds to the count of each operation. False if there is no such operation.
fn count(counts: &mut [u8], jobs: &[Job]) -> bool {
    let mut all = true;
    for job in jobs {
        all = all && count_one(counts, job);
    }
    all
}

/// True if each count is 1.
fn are_ones(counts: &[u8]) -> bool {
    let mut all = true;
    for count in counts {
        all = all && *count == 1;
    }
    all
}

/// True if each operation was taken exactly once, and each taker's operations are in order.
fn is_complete(
    rt: &impl Abort,
    alloc: Global,
    first: &[Job],
    second: &[Job],
    third: &[Job],
) -> bool {
    let mut counts = Vec::from_elem(alloc, 0u8, 4 * EACH).expect(rt, "memory");
    let counted = count(&mut counts, first)
        && count(&mut counts, second)
        && count(&mut counts, third);
    counted && in_order(first) && in_order(second) && in_order(third) && are_ones(&counts)
}

#[test]
fn each_once_and_in_order(rt: HostRuntime) {
    let alloc = rt.alloc();
    let (shards, mut sends, mut takes) = OpShards::new(alloc, SHARDS, 64, 4, 3).expect(
        &rt, "memory",
    );
    let third = takes.pop().expect(&rt, "a taker");
    let two = Crew {
        second: sends.pop().expect(&rt, "a sender"),
        first: sends.pop().expect(&rt, "a sender"),
        sender: 2,
        take: takes.pop().expect(&rt, "a taker"),
    };
    let one = Crew {
        second: sends.pop().expect(&rt, "a sender"),
        first: sends.pop().expect(&rt, "a sender"),
        sender: 0,
        take: takes.pop().expect(&rt, "a taker"),
    };
    let crews = TwoCrews { one, two };
    let taken = AtomicU64::new(0);
    let ((first, second), third) = join(
        &rt,
        || -> (Vec<Job>, Vec<Job>)
            requires first_one { crews.one.first.queues ≡ shards.queues }
            requires second_one { crews.one.second.queues ≡ shards.queues }
            requires take_one { crews.one.take.queues ≡ shards.queues }
            requires first_two { crews.two.first.queues ≡ shards.queues }
            requires second_two { crews.two.second.queues ≡ shards.queues }
            requires take_two { crews.two.take.queues ≡ shards.queues }
        { run_crews(&rt, alloc, &shards, crews, &taken) },
        || take_all(&rt, alloc, &shards, third, &taken),
    );
    assert!(rt; is_complete(&rt, alloc, &first, &second, &third));
}

/// The group of the operation that comes back; `None` if it is accepted.
fn given_back<R: Wait>(
    rt: &R,
    shards: &OpShards<Job>,
    pass: &mut SendPass<Job>,
    group: usize,
) -> Option<usize>
    requires { pass.old.queues ≡ shards.now.queues }
    ensures { pass.new.queues ≡ pass.old.queues }
{
    match shards.submit(rt, pass, request(group)) {
        Ok(()) => None,
        Err(job) => Some(job.group),
    }
}

/// The group of the operation that is taken of a shard.
fn taken_of<R: Wait>(
    rt: &R,
    shards: &OpShards<Job>,
    pass: &mut TakePass<Job>,
    shard: usize,
) -> Option<usize>
    requires pass { pass.old.queues ≡ shards.now.queues }
    requires shard { shard < length shards.now.queues.names }
    ensures { pass.new.queues ≡ pass.old.queues }
{
    match shards.take(rt, pass, shard) {
        None => None,
        Some(job) => Some(job.group),
    }
}

/// True if the second of two operations of one shard comes back, and one of the other shard
/// doesn't.
fn gives_back_nine<R: Wait>(rt: &R, shards: &OpShards<Job>, mut send: SendPass<Job>) -> bool
    requires { send.queues ≡ shards.now.queues }
{
    let first = given_back(rt, shards, &mut send, 7);
    let back = given_back(rt, shards, &mut send, 9);
    let other = given_back(rt, shards, &mut send, 8);
    first.is_none() && back == Some(9) && other.is_none()
}

#[test]
fn a_full_queue_gives_back(rt: HostRuntime) {
    let (shards, mut sends, _takes) = OpShards::new(rt.alloc(), 2, 1, 1, 1).expect(&rt, "memory");
    let send = sends.pop().expect(&rt, "a sender");
    assert!(rt; gives_back_nine(&rt, &shards, send));
}

/// Sends an operation of the group, each time after one of group 1, until it is accepted, at most
/// `tries` times. Returns true if it was accepted.
fn is_sent_within<R: Wait>(
    rt: &R,
    shards: &OpShards<Job>,
    pass: &mut SendPass<Job>,
    group: usize,
    tries: usize,
) -> bool
    requires { pass.old.queues ≡ shards.now.queues }
    ensures queues { pass.new.queues ≡ pass.old.queues }
    ensures grew { Grew pass.old pass.new }
    ensures sent { IsTrue result → WasSent pass.old pass.new (λ job. job.group ≡ group) }
{
    // For the proof: a request that was sent in one round was sent in all rounds together.
    sending_goes_on::<Job, usize, Brand>(&group);
    for _ in 0..tries {
        // It may come back: only the operation of `group` counts.
        let _ = shards.submit(rt, pass, request(1));
        match shards.submit(rt, pass, request(group)) {
            Ok(()) => return true,
            Err(_) => {}
        }
    }
    false
}

#[test]
fn a_loop_says_what_it_sent(rt: HostRuntime) {
    let (shards, mut sends, _takes) = OpShards::new(rt.alloc(), 2, 1, 1, 1).expect(&rt, "memory");
    let mut send = sends.pop().expect(&rt, "a sender");
    let first = is_sent_within(&rt, &shards, &mut send, 8, 3);
    let again = is_sent_within(&rt, &shards, &mut send, 8, 3);
    assert!(rt; first && !again);
}

/// True if a sent operation of group 7 is taken once from shard 1 of two, and not from shard 0.
fn takes_seven_once<R: Wait>(
    rt: &R,
    shards: &OpShards<Job>,
    mut send: SendPass<Job>,
    mut take: TakePass<Job>,
) -> bool
    requires send { send.queues ≡ shards.now.queues }
    requires take { take.queues ≡ shards.now.queues }
    requires shards { 1 < length shards.now.queues.names }
{
    let _ = given_back(rt, shards, &mut send, 7);
    let before = taken_of(rt, shards, &mut take, 0);
    let seven = taken_of(rt, shards, &mut take, 1);
    let behind = taken_of(rt, shards, &mut take, 1);
    before.is_none() && seven == Some(7) && behind.is_none()
}

#[test]
fn an_empty_queue_gives_none(rt: HostRuntime) {
    let (shards, mut sends, mut takes) = OpShards::new(rt.alloc(), 2, 1, 1, 1).expect(
        &rt, "memory",
    );
    let send = sends.pop().expect(&rt, "a sender");
    let take = takes.pop().expect(&rt, "a taker");
    assert!(rt; takes_seven_once(&rt, &shards, send, take));
}

/// True if two takers take the operations of groups 1 and 2, one before and one after the two are
/// joined.
fn take_one_each<R: Wait>(
    rt: &R,
    shards: &OpShards<Job>,
    mut send: SendPass<Job>,
    mut take: TakePass<Job>,
    mut other: TakePass<Job>,
) -> bool
    requires send { send.queues ≡ shards.now.queues }
    requires take { take.queues ≡ shards.now.queues }
    requires other { other.queues ≡ shards.now.queues }
    requires shards { 0 < length shards.now.queues.names }
{
    let _ = given_back(rt, shards, &mut send, 1);
    let _ = given_back(rt, shards, &mut send, 2);
    let first = taken_of(rt, shards, &mut other, 0);
    shards.gather(&mut take, other);
    shards.compare(&mut send, &mut take, 0);
    let second = taken_of(rt, shards, &mut take, 0);
    first == Some(1) && second == Some(2) && shards.count() == 1
}

#[test]
fn takers_put_together(rt: HostRuntime) {
    let (shards, mut sends, mut takes) = OpShards::new(rt.alloc(), 1, 4, 1, 2).expect(
        &rt, "memory",
    );
    let send = sends.pop().expect(&rt, "a sender");
    let other = takes.pop().expect(&rt, "a taker");
    let take = takes.pop().expect(&rt, "a taker");
    assert!(rt; take_one_each(&rt, &shards, send, take, other));
}
