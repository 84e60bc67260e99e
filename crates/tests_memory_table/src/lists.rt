//! Rows of packed lists, `pack_log` NoMemory and `unpack_log` 2 NoMemory; of `acting`, 3 NoMemory;
//! and of the queues and the board, NoMemory.

use crate::ending::Ending;
use crate::made::{Asked, list_of, nodes_of};
use commit_board::Board;
use op_shards::{GroupOp, OpShards};
use pg_log::{NoMemory, Request, are_same_requests};
use placement::{ClusterMap, NodeId, PlacementError, acting};
use replication::{PackedLog, UnpackError, pack_log, unpack_log};
use std::alloc::Global;

/// A list of seven requests; the receiver has the first two.
const LIST: [Asked; 7] = [
    (1, 1, "object", "method", b"input"),
    (2, 1, "object", "method", b"input"),
    (1, 2, "object", "method", b"input"),
    (3, 1, "object", "method", b"input"),
    (3, 2, "object", "method", b"input"),
    (4, 1, "object", "method", b"input"),
    (5, 1, "object", "method", b"input"),
];

/// The number of them that the receiver has.
const HAS: usize = 2;

/// True if a packed list leaves those out that the receiver has, and has the others of the list.
fn is_packed(log: &PackedLog, list: &[Request]) -> bool {
    match list.get(HAS..) {
        None => false,
        Some(rest) => log.common() == HAS && are_same_requests(log.rest(), rest),
    }
}

/// `pack_log`.
pub fn packed(alloc: Global) -> Option<Ending> {
    let list = list_of(alloc, &LIST)?;
    let before = list_of(alloc, &LIST)?;
    Some(match pack_log(alloc, &list, HAS) {
        Ok(log) => Ending::of(is_packed(&log, &before)),
        Err(NoMemory) => Ending::refused(are_same_requests(&list, &before)),
    })
}

/// True if they are those that the receiver has.
fn are_own(own: &[Request], list: &[Request]) -> bool {
    match list.get(..HAS) {
        None => false,
        Some(first) => are_same_requests(own, first),
    }
}

fn unpack(alloc: Global, own: &[Request], log: &PackedLog, list: &[Request]) -> Ending {
    match unpack_log(alloc, own, log) {
        Ok(found) => Ending::of(are_same_requests(&found, list)),
        Err(error) => {
            let is_named = error == UnpackError::NoMemory && error.number() == 2;
            Ending::refused(is_named && is_packed(log, list) && are_own(own, list))
        }
    }
}

/// `unpack_log`.
pub fn unpacked(alloc: Global) -> Option<Ending> {
    let list = list_of(alloc, &LIST)?;
    let own = list_of(alloc, &LIST[..HAS])?;
    let log = pack_log(alloc, &list, HAS).ok()?;
    Some(unpack(alloc, &own, &log, &list))
}

/// True if three of the five nodes act, and no node twice.
fn are_three(nodes: &[NodeId]) -> bool {
    match nodes {
        [a, b, c] => a != b && b != c && a != c && a.get() < 5 && b.get() < 5 && c.get() < 5,
        _ => false,
    }
}

/// `acting`.
pub fn acts(alloc: Global) -> Option<Ending> {
    let map = ClusterMap {
        epoch: 1,
        up: nodes_of(alloc, &[0, 1, 2, 3, 4])?,
        replicas: 3,
        groups: 8,
    };
    Some(match acting(alloc, &map, 3) {
        Ok(nodes) => Ending::of(are_three(&nodes)),
        Err(error) => {
            let is_kept = map.up.len() == 5 && map.epoch == 1;
            Ending::refused(error == PlacementError::NoMemory && is_kept)
        }
    })
}

/// An operation of the queues: a group's number.
#[derive(Clone, Copy, Drop)]
struct Numbered {
    group: usize,
}

impl GroupOp for Numbered {
    ghost group = { λ n. n.group };

    fn group(&self) -> usize {
        self.group
    }
}

/// `OpShards::new`.
pub fn queues(alloc: Global) -> Ending {
    match OpShards::<Numbered>::new(alloc, 3, 2, 2, 2) {
        Ok((shards, sends, takes)) => {
            Ending::of(shards.count() == 3 && sends.len() == 2 && takes.len() == 2)
        }
        Err(NoMemory) => Ending::Refused,
    }
}

/// `Board::new`.
pub fn board(alloc: Global) -> Ending {
    match Board::new(alloc, 5) {
        Ok((board, writers, mut seen)) => {
            Ending::of(writers.len() == 5 && board.look(&mut seen, 4) == 0)
        }
        Err(NoMemory) => Ending::Refused,
    }
}
