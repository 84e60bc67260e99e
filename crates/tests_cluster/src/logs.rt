//! The logs of the cluster's nodes.

use crate::hold::TURNS;
use osd::{ClusterName, LoggedEntry, Running};
use placement::NodeId;
use std::sync::Wait;
use std::thread::yield_now;

/// An answered call: the entry that it should have, and its place.
#[derive(Clone, Copy, Drop)]
pub struct Answered {
    pub place: usize,
    pub entry: LoggedEntry,
}

/// The number of entries that a node has of a group; `usize::MAX` if no log is reported.
pub fn entries<N: ClusterName, R: Wait>(running: &Running<N, R>, node: u64, group: usize) -> usize {
    match running.logged(NodeId::new(node), group) {
        Ok(entries) => entries.len(),
        Err(_) => usize::MAX,
    }
}

/// Waits until a node has that many entries of group 0. False if that takes too long.
pub fn gets<N: ClusterName, R: Wait>(running: &Running<N, R>, node: u64, count: usize) -> bool {
    for _ in 0..TURNS {
        if entries(running, node, 0) == count {
            return true;
        }
        yield_now();
    }
    false
}

/// A node that has that many entries of group 0.
pub fn node_with<N: ClusterName, R: Wait>(running: &Running<N, R>, count: usize) -> Option<u64> {
    for node in 0..running.config().nodes {
        if entries(running, node, 0) == count {
            return Some(node);
        }
    }
    None
}

/// The number of nodes that have that many entries of group 0.
pub fn nodes_with<N: ClusterName, R: Wait>(running: &Running<N, R>, count: usize) -> usize {
    let mut nodes = 0usize;
    for node in 0..running.config().nodes {
        if entries(running, node, 0) == count {
            nodes = nodes.wrapping_add(1);
        }
    }
    nodes
}

/// True if the nodes have these numbers of entries of a group, from node 0 on.
pub fn have<N: ClusterName, R: Wait>(
    running: &Running<N, R>,
    group: usize,
    want: &[usize],
) -> bool {
    for node in 0..running.config().nodes {
        if want.get(node as usize) != Some(&entries(running, node, group)) {
            return false;
        }
    }
    true
}

/// True if a node's log of group 0 has these entries.
pub fn is_log<N: ClusterName, R: Wait>(
    running: &Running<N, R>,
    node: u64,
    want: &[LoggedEntry],
) -> bool {
    match running.logged(NodeId::new(node), 0) {
        Ok(entries) => entries.as_slice() == want,
        Err(_) => false,
    }
}

/// True if node 0's log of group 0 is full: the first client's lock, then requests of the second by
/// rising numbers, and the last client's first request, all refused the lock.
pub fn is_full<N: ClusterName, R: Wait>(
    running: &Running<N, R>,
    first: u32,
    second: u32,
    last: u32,
) -> bool {
    let Ok(log) = running.logged(NodeId::new(0), 0) else {
        return false;
    };
    for (place, entry) in log.iter().enumerate() {
        let want = match place {
            0 => (first, 1, 0),
            65_535 => (last, 1, -16),
            _ => (second, place, -16),
        };
        if (entry.client, entry.number as usize, entry.code) != want {
            return false;
        }
    }
    log.len() == 65_536
}

/// True if these answers stand in a node's log of group 0, and no pair of client and number stands
/// there twice.
pub fn stand<N: ClusterName, R: Wait>(
    running: &Running<N, R>,
    node: u64,
    answers: &[Answered],
) -> bool {
    let Ok(log) = running.logged(NodeId::new(node), 0) else {
        return false;
    };
    for answer in answers {
        if log.get(answer.place) != Some(&answer.entry) {
            return false;
        }
    }
    !answers.is_empty() && none_twice(&log)
}

fn none_twice(log: &[LoggedEntry]) -> bool {
    for (place, entry) in log.iter().enumerate() {
        for other in log.iter().skip(place.saturating_add(1)) {
            if other.client == entry.client && other.number == entry.number {
                return false;
            }
        }
    }
    true
}
