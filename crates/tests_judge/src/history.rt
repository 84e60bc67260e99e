//! What the nodes of a run keep.

use crate::lines::log_line;
use osd::{ClusterName, LoggedEntry, Running};
use placement::{ClusterMap, NodeId, acting};
use std::alloc::{AllocError, Global};
use std::sync::Wait;

/// The nodes with the numbers below this.
fn all_nodes(alloc: Global, count: u64) -> Result<Vec<NodeId>, AllocError> {
    let mut nodes = Vec::new(alloc);
    for number in 0..count {
        nodes.push(NodeId::new(number))?;
    }
    Ok(nodes)
}

/// A node's log of a group.
fn log_of<N: ClusterName, R: Wait>(
    running: &Running<N, R>,
    node: u64,
    group: u64,
) -> Option<Vec<LoggedEntry>> {
    let group = usize::try_from(group).ok()?;
    running.logged(NodeId::new(node), group).ok()
}

/// The lines of all logs. None if memory is refused, or a node doesn't tell.
pub fn push_logs<N: ClusterName, R: Wait>(
    alloc: Global,
    running: &Running<N, R>,
    texts: &mut Vec<String>,
) -> Option<()> {
    for node in 0..running.config().nodes {
        push_logs_of(alloc, running, node, texts)?;
    }
    Some(())
}

/// The lines of a node's logs.
fn push_logs_of<N: ClusterName, R: Wait>(
    alloc: Global,
    running: &Running<N, R>,
    node: u64,
    texts: &mut Vec<String>,
) -> Option<()> {
    for group in 0..running.config().groups {
        let entries = log_of(running, node, group)?;
        texts
            .push(log_line(alloc, node, group, &entries).ok()?)
            .ok()?;
    }
    Some(())
}

/// True if the nodes that act for each group where all are up keep one list.
pub fn is_settled<N: ClusterName, R: Wait>(alloc: Global, running: &Running<N, R>) -> bool {
    for group in 0..running.config().groups {
        if is_one_list(alloc, running, group) != Some(true) {
            return false;
        }
    }
    true
}

/// True if the nodes that act for a group keep one list. None if memory is refused.
fn is_one_list<N: ClusterName, R: Wait>(
    alloc: Global,
    running: &Running<N, R>,
    group: u64,
) -> Option<bool> {
    let config = running.config();
    let map = ClusterMap {
        epoch: 1,
        up: all_nodes(alloc, config.nodes).ok()?,
        replicas: config.replicas,
        groups: config.groups,
    };
    let nodes = acting(alloc, &map, group).ok()?;
    let first = log_of(running, nodes.first()?.get(), group)?;
    for node in &nodes {
        let other = log_of(running, node.get(), group)?;
        if first.as_slice() != other.as_slice() {
            return Some(false);
        }
    }
    Some(true)
}
