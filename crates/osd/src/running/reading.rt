//! One node as it is handled from outside: its log is read, and it is stopped or let go on.

ghost use Rattle.std.specs.Prelude.{◌≡◌, ◌<◌, ◌↔◌, ◌⊎◌, IsOk, IfOk, OnOk, IfErr, map};
ghost use Rattle.osd.specs.Logged.{IsLogOf, logged_entry};
ghost use Rattle.osd.specs.declared.logged.LoggedError.TheVariants.{NoSuch, NoMemory};
ghost use Rattle.osd.specs.Places.{IsThere, IsMissing};

use crate::logged::{LoggedEntry, LoggedError};
use crate::name::ClusterName;
use crate::no_node::NoNode;
use crate::running::Running;
use pg_log::Entry;
use placement::NodeId;
use std::alloc::{AllocError, Global};
use std::sync::Wait;

impl<N: ClusterName, R: Wait> Running<N, R> {
    /// The entries of a node's log of a group: by the clause of some legal log, which may be an
    /// empty one. It refuses by `NoSuch` exactly if there is no such node or group, and else by
    /// `NoMemory`.
    pub fn logged(&self, node: NodeId, group: usize) -> Result<Vec<LoggedEntry>, LoggedError>
        ensures log { IfOk result (λ v. IsLogOf N.classes v.items) }
        ensures there { OnOk result (IsThere N.config node group) }
        ensures refused { IfErr result (λ e. ((e ≡ NoSuch) × IsMissing N.config node group) ⊎
            ((e ≡ NoMemory) × IsThere N.config node group)) }
    {
        let Some(cell) = self.cell(node, group) else {
            return Err(LoggedError::NoSuch);
        };
        let cell = cell.lock(&self.rt);
        match entries(self.alloc, cell.node().group().entries()) {
            Ok(entries) => Ok(entries),
            Err(_) => Err(LoggedError::NoMemory),
        }
    }

    /// Stops a node: what reaches it from then on is lost.
    pub fn stop(&self, node: NodeId) -> Result<(), NoNode>
        ensures { IsOk result ↔ (node < N.config.nodes) }
    {
        self.set_stopped(node, true)
    }

    /// Lets a node go on.
    pub fn go(&self, node: NodeId) -> Result<(), NoNode>
        ensures { IsOk result ↔ (node < N.config.nodes) }
    {
        self.set_stopped(node, false)
    }

    fn set_stopped(&self, node: NodeId, stopped: bool) -> Result<(), NoNode>
        ensures { IsOk result ↔ (node < N.config.nodes) }
    {
        match self.nodes.get(node.get() as usize) {
            Some(node) => {
                node.set_stopped(stopped);
                Ok(())
            }
            None => Err(NoNode),
        }
    }
}

/// The client, the number and the code of an entry.
fn logged_entry(entry: &Entry) -> LoggedEntry
    ensures { result ≡ logged_entry entry.now }
{
    LoggedEntry {
        client: entry.request.client().get(),
        number: entry.request.number().get(),
        code: entry.code,
    }
}

/// The client, the number and the code of each entry.
fn entries(alloc: Global, log: &[Entry]) -> Result<Vec<LoggedEntry>, AllocError>
    ensures { IfOk result (λ v. v.items ≡ map logged_entry log.now) }
{
    let mut entries = Vec::new(alloc);
    for entry in log {
        entries.push(logged_entry(entry))?;
    }
    Ok(entries)
}
