use crate::word::Word;
use std::sync::Wait;
use std::thread::yield_now;

/// Which shards are served, at most 64. A taker claims a shard before it takes from its queue, and releases it
/// afterwards, so that one taker at a time serves it. Whether a queue has operations only the queue
/// tells: what is kept here can't be out of step with it.
#[derive(Drop)]
pub struct Schedule<W: Word> {
    /// A bit for each shard, set while a taker has claimed it.
    claimed: W,
    /// A bit for each shard, set if a taker skipped it since another one had claimed it.
    skipped: W,
}

/// The bit of a shard.
fn bit_of(shard: usize) -> u64 {
    // The remainder is the shard itself. It shows the proof that the shift stays within the word.
    1 << (shard % 64)
}

impl<W: Word> Schedule<W> {
    /// A schedule by two words that are 0: no shard is claimed.
    pub fn of(claimed: W, skipped: W) -> Schedule<W> {
        Schedule { claimed, skipped }
    }

    /// True while a taker has claimed the shard.
    pub fn is_claimed(&self, shard: usize) -> bool {
        self.claimed.has(bit_of(shard))
    }

    /// Claims a shard. False if another taker has claimed it: then it is skipped. Who skips it
    /// needn't come again before the bell rings, since the other rings when it releases the shard.
    pub fn claim(&self, shard: usize) -> bool {
        if self.try_claim(shard) {
            return true;
        }
        self.skipped.set(bit_of(shard));
        // The other may have released the shard before it could see that.
        self.try_claim(shard)
    }

    /// Claims a shard, and answers whether no other taker had. It is one step.
    pub fn try_claim(&self, shard: usize) -> bool {
        !self.claimed.set(bit_of(shard))
    }

    /// Releases a shard, for good or for a while. True if it was skipped meanwhile: then who
    /// releases it rings, so that an operation in it isn't left to nobody.
    #[must_use]
    pub fn release(&self, shard: usize) -> bool {
        let bit = bit_of(shard);
        self.claimed.clear(bit);
        self.skipped.has(bit) && self.skipped.clear(bit)
    }

    /// Claims a shard again that was released for a while, as soon as no other taker has claimed
    /// it.
    pub fn reclaim<R: Wait>(&self, rt: &R, shard: usize) {
        for _ in rt.forever() {
            if self.try_claim(shard) {
                break;
            }
            yield_now();
        }
    }
}
