//! A user's first page: a cluster, a class from an image, two workers and two sessions.
ghost use Rattle.std.specs.Prelude.{◌≡◌};

use object_store::ObjectName;
use osd::{ClusterParts, Open, running_crosses};
use pg_log::ClassTable;
use rados_client::{ClassId, Cluster, ClusterName, Config, Running, Session};
use std::alloc::Global;
use std::marker::Brand;
use std::process::Abort;
use std::sync::Wait;
use std::thread::{Threads, join};

/// A class with the method `f`, which answers 0.
pub const IMAGE: [u8; 33] = [
    0x52, 0x43, 0x4c, 0x31, 1, 0, 0, 0, 1, 0x66, 1, 0, 0, 0, 0, 2, 0, 0xb7, 0, 0, 0, 0, 0, 0, 0,
    0x95, 0, 0, 0, 0, 0, 0, 0,
];

/// The places of both sessions' calls, on the cluster of these parts and classes.
fn play<R: Threads + Wait + Sync + Drop>(
    alloc: Global,
    rt: R,
    parts: ClusterParts,
    table: ClassTable,
    class: ClassId,
) -> Option<(usize, usize)> {
    play_named::<Brand, R>(alloc, rt, parts, table, class)
}

fn play_named<N: ClusterName + Send + Sync, R: Threads + Wait + Sync + Drop>(
    alloc: Global,
    rt: R,
    parts: ClusterParts,
    table: ClassTable,
    class: ClassId,
) -> Option<(usize, usize)>
    requires board { parts.board ≡ N.board }
    requires queues { parts.queues ≡ N.queues }
    requires config { parts.config ≡ N.config }
    requires table { table ≡ N.classes }
{
    let running = Running::<N, R>::named(alloc, rt, parts, table).ok()?;
    call_served(alloc, &running, class)
}

/// Two workers serve while the sessions call.
fn call_served<N: ClusterName + Send + Sync, R: Threads + Wait + Sync>(
    alloc: Global,
    running: &Running<N, R>,
    class: ClassId,
) -> Option<(usize, usize)> {
    running_crosses::<N, R>();
    let (_, places) = join(
        running.runtime(),
        || serve_both(running),
        || call_and_finish(alloc, running, class),
    );
    places
}

fn serve_both<N: ClusterName + Send + Sync, R: Threads + Wait + Sync>(running: &Running<N, R>) {
    running_crosses::<N, R>();
    join(
        running.runtime(),
        || running.serve(0, &Open),
        || running.serve(1, &Open),
    );
}

fn call_and_finish<N: ClusterName, R: Wait>(
    alloc: Global,
    running: &Running<N, R>,
    class: ClassId,
) -> Option<(usize, usize)> {
    let places = call(alloc, running, class);
    running.finish();
    places
}

fn call<N: ClusterName, R: Wait>(
    alloc: Global,
    running: &Running<N, R>,
    class: ClassId,
) -> Option<(usize, usize)> {
    let object = ObjectName::new(alloc, "a").ok()?;
    let mut first = Session::open(running).ok()?;
    let mut second = Session::open(running).ok()?;
    let reply = first.exec(alloc, &object, class, "f", b"").ok()?;
    second.hear(first.tell());
    let later = second.exec(alloc, &object, class, "f", b"").ok()?;
    Some((reply.place(), later.place()))
}

#[test]
fn a_first_page(rt: HostRuntime) {
    let config = Config {
        nodes: 3,
        replicas: 3,
        groups: 64,
        shards: 4,
        workers: 2,
        tries: 100_000_000,
    };
    let mut cluster = Cluster::new(rt.alloc(), config).expect(&rt, "a cluster");
    let class = cluster.load_class(&IMAGE).expect(&rt, "a class");
    let (parts, table) = cluster.start().expect(&rt, "its parts");
    drop(cluster);
    let places = play(rt.alloc(), rt, parts, table, class);
    assert!(rt; places == Some((0, 1)));
}
