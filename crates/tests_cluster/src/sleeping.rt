//! Workers that have nothing to do sleep. The system tells: it says which of the process's threads
//! run, and how much processor time the process has taken.

use crate::hold::{Hold, pause};
use crate::play::{ONE, Play, is_played};
use crate::requests::{call, lock};
use osd::{ClusterName, DeliveryMode, Fate, Open, OpenedSession, Running};
use rados_client::Config;
use std::alloc::{AllocGlobal, Global};
use std::fs::{DirEntry, read_dir, read_to_string};
use std::io;
use std::rt::Files;
use std::sync::Wait;
use std::thread::{sleep, yield_now};
use std::time::{Clock, Duration};

/// The limit on looks until the workers sleep.
const LOOKS: u32 = 10_000;

/// The number of calls after each of which the workers sleep.
const CALLS: u32 = 5;

/// The number of calls that are timed, and the hundredths of a second that all workers may take for
/// them together. Three that look 100,000 times before they sleep take forty, if a look takes seven
/// billionths of a second.
const TIMED: u32 = 200;

const HUNDREDTHS: u64 = 24;

/// The number of times that they are timed. What else the machine does can only add to what the
/// workers take, so one time of little is enough.
const TIMES: u32 = 5;

/// The workers.
const WORKERS: usize = 3;

/// Three workers of two queues are left alone, called, and left alone again.
#[derive(Drop)]
struct Asleep<H> {
    host: H,
    hold: Hold,
}

/// Holds a message of the nodes.
impl<H: Drop> Fate for Asleep<H> {
    fn of(&self, _worker: usize, _n: u64) -> DeliveryMode {
        self.hold.pass();
        DeliveryMode::Pass
    }
}

impl<H: Files + Clock + AllocGlobal + Clone + Drop> Asleep<H> {
    /// True if a thread of the process runs, or would if a processor were free.
    fn runs(&self, thread: &DirEntry<H, Global>) -> io::Result<bool> {
        let name = thread.file_name();
        let path = format!(in self.host.alloc(); "/proc/self/task/{name}/stat")?;
        let stat = read_to_string(&self.host, path.as_str())?;
        // The state follows the name in parentheses; R is running or ready to run.
        Ok(stat.contains(") R "))
    }

    /// The number of threads of the process that run.
    fn running(&self) -> io::Result<u32> {
        let mut count = 0u32;
        for thread in read_dir(&self.host, "/proc/self/task")? {
            if self.runs(&thread?)? {
                count = count.wrapping_add(1);
            }
        }
        Ok(count)
    }

    /// Returns true if soon no more threads run than that, of which one is this thread, which
    /// looks.
    fn only_run(&self, count: u32) -> bool {
        for _ in 0..LOOKS {
            if self.running().is_ok_and(|running| running <= count) {
                return true;
            }
            yield_now();
        }
        false
    }

    /// The hundredths of a second of processor time that the other threads of the process have
    /// taken: this one calls.
    fn taken(&self) -> Option<u64> {
        let all = self.time_in("/proc/self/stat")?;
        let own = self.time_in("/proc/thread-self/stat")?;
        Some(all.saturating_sub(own))
    }

    /// The hundredths of a second of processor time that such a file of the system's tells.
    fn time_in(&self, path: &str) -> Option<u64> {
        let stat = read_to_string(&self.host, path).ok()?;
        // After the name in parentheses come the state and ten numbers, then the time of its own
        // instructions and that of the system's for it.
        let (_, words) = stat.as_str().rsplit_once(") ")?;
        let mut words = words.split_whitespace().skip(11);
        let own = words.next()?.parse::<u64>().ok()?;
        let system = words.next()?.parse::<u64>().ok()?;
        Some(own.wrapping_add(system))
    }

    /// True if a call of the object is answered.
    fn calls<N: ClusterName, R: Wait>(
        &self,
        running: &Running<N, R>,
        opened: &mut OpenedSession<N>,
        number: u32,
    ) -> Option<bool> {
        let request = lock(self.host.alloc(), opened.client.get(), number, "a")?;
        Some(call(running, &mut opened.sends, &request).is_some())
    }

    /// True if the workers sleep after each call.
    fn sleep_after_calls<N: ClusterName, R: Wait>(
        &self,
        running: &Running<N, R>,
        opened: &mut OpenedSession<N>,
    ) -> Option<bool> {
        let mut done = self.only_run(1);
        for number in 1..=CALLS {
            done = done && self.calls(running, opened, number)? && self.only_run(1);
        }
        Some(done)
    }

    /// True if the other workers sleep while one is held with a message, and an operation of its
    /// shard waits.
    fn sleep_beside_a_turn<N: ClusterName, R: Wait>(
        &self,
        running: &Running<N, R>,
        opened: &mut OpenedSession<N>,
    ) -> Option<bool> {
        let client = opened.client.get();
        let held = lock(self.host.alloc(), client, CALLS + 1, "a")?;
        let waiting = lock(self.host.alloc(), client, CALLS + 2, "a")?;
        let _ = self.hold.want();
        running.ask(&mut opened.sends, &held).ok()?;
        let is_held = self.hold.holds();
        running.ask(&mut opened.sends, &waiting).ok()?;
        pause();
        let sleep = self.only_run(2);
        Some(is_held && sleep && self.hold.free())
    }

    /// The hundredths of a second that the workers take for calls between which they sleep.
    fn timed<N: ClusterName, R: Wait>(
        &self,
        running: &Running<N, R>,
        opened: &mut OpenedSession<N>,
        first: u32,
    ) -> Option<u64> {
        let before = self.taken()?;
        for number in 0..TIMED {
            if !self.calls(running, opened, first.wrapping_add(number))? {
                return None;
            }
            sleep(&self.host, Duration::from_millis(2));
        }
        Some(self.taken()?.wrapping_sub(before))
    }

    /// True if the workers take little time for such calls.
    fn take_little<N: ClusterName, R: Wait>(
        &self,
        running: &Running<N, R>,
        opened: &mut OpenedSession<N>,
    ) -> Option<bool> {
        let mut first = CALLS + 3;
        for _ in 0..TIMES {
            let taken = self.timed(running, opened, first)?;
            if taken <= HUNDREDTHS {
                return Some(true);
            }
            first = first.wrapping_add(TIMED);
        }
        Some(false)
    }

    fn all<N: ClusterName, R: Wait>(&self, running: &Running<N, R>) -> Option<bool> {
        let mut opened = running.open()?;
        let sleep = self.sleep_after_calls(running, &mut opened)?
            && self.sleep_beside_a_turn(running, &mut opened)?;
        Some(sleep && self.take_little(running, &mut opened)?)
    }
}

impl<H: Files + Clock + AllocGlobal + Clone + Drop> Play for Asleep<H> {
    fn parts(&self) -> usize {
        WORKERS + 1
    }

    fn begins<N: ClusterName, R: Wait>(&self, _running: &Running<N, R>) -> bool {
        true
    }

    fn part<N: ClusterName, R: Wait>(&self, running: &Running<N, R>, number: usize) -> bool {
        if number < WORKERS {
            running.serve_with(number, &Open, self);
            return true;
        }
        let done = self.all(running);
        running.finish();
        done == Some(true)
    }

    fn ends<N: ClusterName, R: Wait>(&self, _running: &Running<N, R>) -> bool {
        true
    }
}

#[test]
fn workers_that_have_nothing_to_do_sleep(rt: HostRuntime) {
    let config = Config {
        groups: 2,
        shards: 2,
        workers: WORKERS,
        ..ONE
    };
    let asleep = Asleep {
        host: rt,
        hold: Hold::new(),
    };
    assert!(rt; is_played(rt, rt.alloc(), config, &asleep));
}
