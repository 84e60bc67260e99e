//! The refusals of a cluster: of its classes and runs; and their texts. Those of its numbers are
//! tried on the program.

use crate::first_page::IMAGE;
use crate::play::ONE;
use rados_client::{
    Cluster, ClusterName, ConfigError, ExecError, LoadError, OpenError, RunError, Running, Scenario,
};
use std::alloc::Global;
use std::fmt::Display;
use std::process::Abort;
use std::sync::Wait;
use std::thread::Threads;

/// The class without its first instruction, so that it answers a register that isn't set.
const UNSAFE: [u8; 25] = [
    0x52, 0x43, 0x4c, 0x31, 1, 0, 0, 0, 1, 0x66, 1, 0, 0, 0, 0, 1, 0, 0x95, 0, 0, 0, 0, 0, 0, 0,
];

/// A scenario in which nothing is done.
#[derive(Drop)]
struct Nothing;

impl Scenario for Nothing {
    type Output = ();

    ghost gives = { λ _ _ _. Unit {0} };

    fn play<N: ClusterName + Send + Sync, R: Threads + Wait + Sync>(
        &self,
        _running: &Running<N, R>,
    ) {}
}

fn prints<T: Display, R: Abort>(rt: &R, alloc: Global, error: &T, text: &str) -> bool {
    error.to_string(alloc).expect(rt, "memory").as_str() == text
}

/// True if a class isn't loaded, by a refusal that prints as this text.
fn refuses<R: Abort>(
    rt: &R,
    alloc: Global,
    cluster: &mut Cluster,
    image: &[u8],
    text: &str,
) -> bool {
    match cluster.load_class(image) {
        Ok(_) => false,
        Err(error) => prints(rt, alloc, &error, text),
    }
}

/// True if classes are loaded with the ids from 2 to below `end`.
fn load_many(cluster: &mut Cluster, end: usize) -> bool {
    for id in 2..end {
        if !cluster
            .load_class(&IMAGE)
            .is_ok_and(|found| found.get() == id)
        {
            return false;
        }
    }
    true
}

#[test]
fn what_a_started_cluster_refuses(rt: HostRuntime) {
    let alloc = rt.alloc();
    let mut cluster = Cluster::new(alloc, ONE).expect(&rt, "a cluster");
    let is_so = load_many(&mut cluster, 63)
        && cluster.run(rt, &Nothing) == Ok(())
        && refuses(&rt, alloc, &mut cluster, &IMAGE, "5 Started")
        && refuses(&rt, alloc, &mut cluster, &UNSAFE, "2 Verdict")
        && cluster.run(rt, &Nothing) == Err(RunError::Started);
    drop(cluster);
    assert!(rt; is_so);
}

#[test]
fn sixty_four_classes_and_one_more(rt: HostRuntime) {
    let alloc = rt.alloc();
    let mut cluster = Cluster::new(alloc, ONE).expect(&rt, "a cluster");
    let is_so = load_many(&mut cluster, 64)
        && refuses(&rt, alloc, &mut cluster, &IMAGE, "3 TooMany")
        && refuses(&rt, alloc, &mut cluster, b"RCL2", "1 Image")
        && cluster.run(rt, &Nothing) == Ok(())
        && refuses(&rt, alloc, &mut cluster, &IMAGE, "3 TooMany");
    drop(cluster);
    assert!(rt; is_so);
}

#[rattlefmt::skip]
const CALLS: [(ExecError, &str); 12] = [
    (ExecError::NotPrimary, "1 NotPrimary"),
    (ExecError::Peering, "2 Peering"),
    (ExecError::LogFull, "3 LogFull"),
    (ExecError::StaleNumber, "4 StaleNumber"),
    (ExecError::NoClass, "5 NoClass"),
    (ExecError::NoMethod, "6 NoMethod"),
    (ExecError::InputTooLong, "7 InputTooLong"),
    (ExecError::NoMemory, "8 NoMemory"),
    (ExecError::Unanswered, "9 Unanswered"),
    (ExecError::NothingSent, "10 NothingSent"),
    (ExecError::NumbersUsedUp, "11 NumbersUsedUp"),
    (ExecError::NotTaken, "12 NotTaken"),
];

#[test]
fn refusals_of_calls_print_number_and_name(rt: HostRuntime) {
    for row in &CALLS {
        assert!(rt; prints(&rt, rt.alloc(), &row.0, row.1));
    }
}

#[test]
fn refusals_of_a_cluster_print_number_and_name(rt: HostRuntime) {
    assert!(rt; prints(&rt, rt.alloc(), &ConfigError::Limit, "1 Limit"));
    assert!(rt; prints(&rt, rt.alloc(), &ConfigError::NoMemory, "2 NoMemory"));
    assert!(rt; prints(&rt, rt.alloc(), &LoadError::NoMemory, "4 NoMemory"));
    assert!(rt; prints(&rt, rt.alloc(), &OpenError::TooMany, "1 TooMany"));
    assert!(rt; prints(&rt, rt.alloc(), &OpenError::NoMemory, "2 NoMemory"));
    assert!(rt; prints(&rt, rt.alloc(), &RunError::Started, "1 Started"));
    assert!(rt; prints(&rt, rt.alloc(), &RunError::NoMemory, "2 NoMemory"));
}
