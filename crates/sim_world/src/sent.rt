//! The messages that were sent.
ghost use Rattle.std.specs.Prelude.{◌≡◌, ◌≤◌, ◌<◌, ◌++◌, ◌∷◌, [], length, suc, IfOk, OnOk, OnErr, slice_index_or};
ghost use Rattle.std.specs.Prelude.{slice_set};
ghost use Rattle.sim_world.specs.Lines.{numbered};
ghost use Rattle.sim_world.specs.inner.Buckets.{AreInBuckets, bucket, first_equal, is_equal_to, kept_number};

use crate::counted::numbered;
use crate::kept::KeptMessage;
use crate::numbers::Numbers;
use crate::same::is_same_kept;
use carried::CarriedKind;
use std::alloc::{AllocError, Global};
use std::marker::Model;

/// The number of buckets for messages that may be sent again. One more is for the others.
const SPREAD: usize = 1024;

/// The number of all buckets.
const BUCKETS: usize = 1025;

/// The bucket of a message.
#[rattlefmt::skip]
fn bucket(kind: &CarriedKind) -> usize
    ensures value { result ≡ bucket kind.now }
    ensures below { result ≤ SPREAD }
{
    match kind {
        CarriedKind::Query(map, _)         => map.interval().get() as usize % SPREAD,
        CarriedKind::Install(map, _)       => map.interval().get() as usize % SPREAD,
        CarriedKind::AskActivate(interval) => interval.get() as usize % SPREAD,
        CarriedKind::Rep(_, place, _)      => *place % SPREAD,
        CarriedKind::Log(_, _)             => SPREAD,
        CarriedKind::Installed(_)          => SPREAD,
        CarriedKind::Activated(_)          => SPREAD,
        CarriedKind::Ack(_, _)             => SPREAD,
        CarriedKind::Reply(_, _, _, _)     => SPREAD,
    }
}

/// Empty buckets.
fn fresh_buckets(alloc: Global) -> Result<Vec<Numbers>, AllocError>
    ensures { IfOk result (λ v. AreInBuckets [] v.items) }
{
    let mut buckets = Vec::new(alloc);
    for _at in 0..BUCKETS {
        buckets.push(Numbers::new(alloc))?;
    }
    Ok(buckets)
}

/// Puts a number into a bucket.
fn put(buckets: &mut Vec<Numbers>, at: usize, number: usize) -> Result<(), AllocError>
    requires { at < length buckets.old.items }
    ensures ok { OnOk result (buckets.new.items ≡
        slice_set buckets.old.items at (slice_index_or buckets.old.items at [] ++ number ∷ [])) }
    ensures err { OnErr result (buckets.new.items ≡ buckets.old.items) }
{
    buckets[at].push(number)
}

/// The number after that one. There is no memory for more messages than there are numbers.
pub(crate) fn next_number(number: usize) -> Result<usize, AllocError>
    ensures { IfOk result (λ n. n ≡ suc number) }
{
    number.checked_add(1).ok_or(AllocError)
}

/// The number of the last message.
fn last_number(kept: &Vec<KeptMessage>) -> usize
    ensures { result ≡ length kept.now.items }
{
    kept.len()
}

/// Keeps a message after the others, and its number in its bucket. If memory is refused, both
/// are as before.
fn keep_numbered(
    kept: &mut Vec<KeptMessage>,
    buckets: &mut Vec<Numbers>,
    message: KeptMessage,
) -> Result<(), AllocError>
    requires { AreInBuckets kept.old.items buckets.old.items }
    ensures ok { OnOk result (kept.new.items ≡ kept.old.items ++ message ∷ []) }
    ensures err { OnErr result (kept.new.items ≡ kept.old.items) }
    ensures in_buckets { AreInBuckets kept.new.items buckets.new.items }
{
    let before = kept.len();
    let at = bucket(&message.message.kind);
    kept.push(message)?;
    match put(buckets, at, last_number(kept)) {
        Ok(()) => Ok(()),
        Err(error) => {
            kept.truncate(before);
            Err(error)
        }
    }
}

/// True if the message of a number is equal to that one.
fn is_equal_to(message: &KeptMessage, kept: &[KeptMessage], number: usize) -> bool
    ensures { result ≡ is_equal_to message.now (numbered kept.now number) }
{
    match numbered(kept, number as u64) {
        Some(kept) => is_same_kept(message, kept),
        None => false,
    }
}

/// The first of these numbers whose message is equal to that one; the one past the last if there is
/// none.
fn first_equal(
    message: &KeptMessage,
    kept: &[KeptMessage],
    numbers: &[usize],
) -> Result<usize, AllocError>
    ensures { IfOk result (λ n. n ≡ first_equal message.now kept.now numbers.now) }
{
    for number in numbers {
        if is_equal_to(message, kept, *number) {
            return Ok(*number);
        }
    }
    next_number(kept.len())
}

/// The lowest number of a message equal to that one.
fn lowest_equal(
    message: &KeptMessage,
    kept: &[KeptMessage],
    buckets: &Vec<Numbers>,
) -> Result<usize, AllocError>
    requires { AreInBuckets kept.now buckets.now.items }
    ensures { IfOk result (λ n. n ≡ kept_number kept.now message.now) }
{
    let at = bucket(&message.message.kind);
    first_equal(message, kept, buckets[at].items())
}

/// The messages that were sent, as they are kept, by numbers from 1. One that is equal to another
/// is found among few. Contracts see the list of them.
#[derive(Drop)]
pub(crate) struct Sent {
    kept: Vec<KeptMessage>,
    buckets: Vec<Numbers>,
}

impl Model for Sent {
    ghost use Rattle.std.specs.Prelude.{List};
    ghost use Rattle.sim_world.specs.declared.kept.KeptMessage.{KeptMessage};
    ghost use Rattle.sim_world.specs.inner.Buckets.{AreInBuckets};

    ghost Value = { List KeptMessage };

    ghost view = { λ s. s.kept.items };

    ghost invariant = { λ s. AreInBuckets s.kept.items s.buckets.items };
}

impl Sent {
    /// No message.
    pub(crate) fn new(alloc: Global) -> Result<Sent, AllocError>
        ensures { IfOk result (λ s. s ≡ []) }
    {
        let buckets = fresh_buckets(alloc)?;
        Ok(Sent {
            kept: Vec::new(alloc),
            buckets,
        })
    }

    /// All of them.
    pub(crate) fn items(&self) -> &[KeptMessage]
        ensures { result.now ≡ self.now }
    {
        &self.kept
    }

    /// The number of them.
    pub(crate) fn len(&self) -> usize
        ensures { result ≡ length self.now }
    {
        self.kept.len()
    }

    /// Keeps a message after the others. It fails for want of memory alone; all is then as before.
    pub(crate) fn push(&mut self, message: KeptMessage) -> Result<(), AllocError>
        ensures ok { OnOk result (self.new ≡ self.old ++ message ∷ []) }
        ensures err { OnErr result (self.new ≡ self.old) }
    {
        keep_numbered(&mut self.kept, &mut self.buckets, message)
    }

    /// The lowest number of a message equal to that one. It looks at the messages of one bucket.
    pub(crate) fn number_of(&self, message: &KeptMessage) -> Result<usize, AllocError>
        ensures { IfOk result (λ n. n ≡ kept_number self.now message.now) }
    {
        lowest_equal(message, &self.kept, &self.buckets)
    }
}
