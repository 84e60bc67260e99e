//! Each client and each worker of a file of calls has a thread of its own: clients that begin their
//! first calls wait until all of them have begun one, and until the process has as many threads as
//! it should, and none waits for ever.

use crate::ended::only_prints;
use std::alloc::Global;
use std::rt::Files;
use std::sync::Wait;
use std::sync::atomic::{AtomicU64, Ordering};
use std::thread::{Threads, yield_now};
use std::time::{Clock, Duration};
use std::{fs, io};

/// The clients, the workers, and the threads that they need beside the one of the test, which calls
/// for one of the clients.
const CLIENTS: u64 = 8;

const WORKERS: u64 = 16;

const THREADS: u64 = CLIENTS - 1 + WORKERS;

/// The most counts of the threads, for each client.
const COUNTS: u32 = 1_000_000;

/// The runtime of a run, whose clock waits at the beginning of each client's call.
#[derive(Drop)]
struct Watched<'a, R> {
    rt: &'a R,
    /// The number of the process's threads before the run.
    before: u64,
    /// The number of the clock's readings.
    readings: AtomicU64,
    /// 1 if all calls had begun while all threads were there, 2 if that was waited for in vain, and
    /// 0 before.
    met: AtomicU64,
}

impl<R: Threads> Threads for Watched<'_, R> {}

impl<R: Wait> Wait for Watched<'_, R> {}

impl<R: Alloc<A = Global>> Alloc for Watched<'_, R> {
    type A = Global;

    fn alloc(&self) -> Global {
        self.rt.alloc()
    }
}

/// The number of the process's threads, by what the system says of it.
fn threads_of(status: &str) -> Option<u64> {
    let line = status.lines().find(|line| line.starts_with("Threads:"))?;
    line.split_whitespace().nth(1)?.parse::<u64>().ok()
}

/// The same, 0 if the system doesn't say it.
fn count_threads<R: Files + Alloc<A = Global>>(rt: &R) -> u64 {
    match fs::read_to_string(rt, "/proc/self/status") {
        Ok(status) => threads_of(&status).unwrap_or(0),
        Err(_) => 0,
    }
}

impl<R: Files + Alloc<A = Global>> Watched<'_, R> {
    /// True if all calls have begun, and all threads are there.
    fn sees_all(&self) -> bool {
        self.readings.load(Ordering::SeqCst) > CLIENTS
            && count_threads(self.rt) >= self.before.saturating_add(THREADS)
    }

    /// Waits until that is seen, for some looks at most.
    fn wait(&self) {
        for _ in 0..COUNTS {
            if self.met.load(Ordering::SeqCst) != 0 {
                return;
            }
            if self.sees_all() {
                self.met.store(1, Ordering::SeqCst);
                return;
            }
            yield_now();
        }
        self.met.store(2, Ordering::SeqCst);
    }
}

impl<R: Files + Alloc<A = Global>> Clock for Watched<'_, R> {
    fn monotonic(&self) -> io::Result<Duration> {
        // the first reading is the run's beginning, and a client's first one that of its call
        if self.readings.fetch_add(1, Ordering::SeqCst) > 0 {
            self.wait();
        }
        Ok(Duration::ZERO)
    }

    fn since_1970(&self) -> io::Result<Duration> {
        Ok(Duration::ZERO)
    }
}

/// A call of each client, of which one is refused.
const TEXT: &str = "cluster nodes 1 replicas 1 groups 64 shards 16 workers 16 tries 4294967295
client 1 a lock lock -
client 2 b lock lock 00
client 3 c lock lock -
client 4 d lock lock -
client 5 e lock lock -
client 6 f lock lock -
client 7 g lock lock -
client 8 h lock lock -
";

/// Each object is the only one of its group.
const ANSWERS: &str = "client 1 call 0 place 0 code 0 output -
client 2 call 0 refused 7 InputTooLong
client 3 call 0 place 0 code 0 output -
client 4 call 0 place 0 code 0 output -
client 5 call 0 place 0 code 0 output -
client 6 call 0 place 0 code 0 output -
client 7 call 0 place 0 code 0 output -
client 8 call 0 place 0 code 0 output -
";

#[test]
fn each_client_and_worker_has_a_thread(rt: HostRuntime) {
    let before = count_threads(&rt);
    assert!(rt; before > 0, "the system counts threads");
    let watched = Watched {
        rt: &rt,
        before,
        readings: AtomicU64::new(0),
        met: AtomicU64::new(0),
    };
    let is_done = only_prints(&watched, &["cluster", "text"], TEXT.as_bytes(), ANSWERS, 0);
    assert!(rt; is_done && watched.met.load(Ordering::SeqCst) == 1);
}
