use placement::NodeId;
use std::alloc::{AllocError, Global};
use std::sync::atomic::{AtomicU64, Ordering};

/// The primary of each group by its newest map, in a word of its own: a request finds it in one step,
/// and waits for no lock.
#[derive(Drop)]
pub(crate) struct Primaries {
    nodes: Vec<AtomicU64>,
}

impl Primaries {
    /// Node 0 for each of that many groups.
    pub fn new(alloc: Global, groups: usize) -> Result<Primaries, AllocError> {
        let mut nodes = Vec::new(alloc);
        for _ in 0..groups {
            nodes.push(AtomicU64::new(0))?;
        }
        Ok(Primaries { nodes })
    }

    /// The primary of a group; node 0 if there is no such group.
    pub fn of(&self, group: usize) -> NodeId {
        match self.nodes.get(group) {
            Some(node) => NodeId::new(node.load(Ordering::SeqCst)),
            None => NodeId::new(0),
        }
    }

    /// The node is the primary of a group from now on.
    pub fn set(&self, group: usize, node: NodeId) {
        if let Some(word) = self.nodes.get(group) {
            word.store(node.get(), Ordering::SeqCst);
        }
    }
}
