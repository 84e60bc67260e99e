//! What a cluster is made of before it has a name.

ghost use Rattle.std.specs.Prelude.{◌≡◌, ◌*◌, ◌+◌, IsTrue, IfOk, All, length, vec_len};
ghost use Rattle.osd.specs.Limits.{is_within_limits};
ghost use Rattle.osd.specs.Maps.{HasPrimary, IsBookOf};
ghost use Rattle.osd.specs.Unnamed.{IsUnused};

use crate::config::Config;
use crate::limits::{OTHER_SENDERS, QUEUE_PLACES};
use crate::queued::Queued;
use commit_board::{Board, NoMemory, Seen, Writer};
use map_book::{MapBook, NewMap};
use op_shards::{OpShards, SendPass, TakePass};
use placement::NodeId;
use std::alloc::{AllocError, Global};
use std::marker::Model;

/// A cluster that has no name yet: all of it but the classes, with a map of each group by which all
/// nodes are up. Contracts see its board, its queues and what it is made of.
pub struct ClusterParts {
    config: Config,
    rows: Rows,
    queues: AllQueues,
    maps: Maps,
}

// Written out, so that a crate that drops them calls this and needn't prove again how each part is
// dropped.
impl Drop for ClusterParts {
    fn drop(self) {
        let ClusterParts {
            config: _,
            rows,
            queues,
            maps,
        } = self;
        drop(rows);
        drop(queues);
        drop(maps);
    }
}

/// The board, an unused writer for each node of each group, and a token that knows nothing.
#[derive(Drop)]
pub(crate) struct Rows {
    pub board: Board,
    pub writers: Vec<Writer>,
    pub seen: Seen,
}

/// The queues, and a pass for each sender and each taker.
#[derive(Drop)]
pub(crate) struct AllQueues {
    pub shards: OpShards<Queued>,
    pub sends: Vec<SendPass<Queued>>,
    pub takes: Vec<TakePass<Queued>>,
}

/// The monitors, and the newest map of each group.
#[derive(Drop)]
pub(crate) struct Maps {
    pub book: MapBook,
    pub newest: Vec<NewMap>,
}

impl Model for ClusterParts {
    ghost use Rattle.std.specs.Prelude.{◌≡◌, ◌*◌, ◌+◌, IsTrue, All, length, vec_len};
    ghost use Rattle.osd.specs.Limits.{is_within_limits};
    ghost use Rattle.osd.specs.Maps.{HasPrimary, IsBookOf};
    ghost use Rattle.osd.specs.Unnamed.{Unnamed, IsUnused};

    ghost Value = { Unnamed };

    ghost view = { λ p. record { board = p.rows.board; queues = p.queues.shards.queues; config = p.config } };

    ghost invariant = { λ p. IsTrue (is_within_limits p.config)
        × (vec_len p.rows.writers ≡ p.config.nodes * p.config.groups)
        × All (IsUnused p.rows.board) p.rows.writers.items
        × (p.rows.seen.board ≡ p.rows.board)
        × (vec_len p.queues.sends ≡ 65 + p.config.workers)
        × All (λ s. s.queues ≡ p.queues.shards.queues) p.queues.sends.items
        × (vec_len p.queues.takes ≡ p.config.workers)
        × All (λ t. t.queues ≡ p.queues.shards.queues) p.queues.takes.items
        × IsBookOf p.config p.maps.book × (length p.maps.newest.items ≡ p.config.groups)
        × All HasPrimary p.maps.newest.items };
}

impl ClusterParts {
    /// The parts of a cluster whose numbers are within their limits. It makes the first map of each
    /// group, with all nodes up.
    pub fn new(alloc: Global, config: Config) -> Result<ClusterParts, NoMemory>
        requires { IsTrue (is_within_limits config) }
        ensures { IfOk result (λ p. p.config ≡ config) }
    {
        let rows = rows_of(alloc, &config)?;
        let queues = queues_of(alloc, &config)?;
        let maps = maps_of(alloc, &config)?;
        Ok(ClusterParts {
            config,
            rows,
            queues,
            maps,
        })
    }

    /// The numbers, the board, the queues and the maps.
    pub(crate) fn into_pieces(self) -> (Config, Rows, AllQueues, Maps)
        ensures config { (result.0 ≡ self.config) × IsTrue (is_within_limits result.0) }
        ensures board { (result.1.board ≡ self.board) × (result.1.seen.board ≡ result.1.board) }
        ensures writers { (vec_len result.1.writers ≡ result.0.nodes * result.0.groups) ×
            All (IsUnused result.1.board) result.1.writers.items }
        ensures queues { result.2.shards.queues ≡ self.queues }
        ensures sends { (vec_len result.2.sends ≡ 65 + result.0.workers) ×
            All (λ s. s.queues ≡ result.2.shards.queues) result.2.sends.items }
        ensures takes { (vec_len result.2.takes ≡ result.0.workers) ×
            All (λ t. t.queues ≡ result.2.shards.queues) result.2.takes.items }
        ensures book { IsBookOf result.0 result.3.book }
        ensures newest { (length result.3.newest.items ≡ result.0.groups) × All HasPrimary result.3.newest.items }
    {
        let ClusterParts {
            config,
            rows,
            queues,
            maps,
        } = self;
        (config, rows, queues, maps)
    }
}

/// The board and its tokens.
fn rows_of(alloc: Global, config: &Config) -> Result<Rows, NoMemory>
    requires { IsTrue (is_within_limits config.now) }
    ensures { IfOk result (λ r. (vec_len r.writers ≡ config.now.nodes * config.now.groups) ×
        All (IsUnused r.board) r.writers.items × (r.seen.board ≡ r.board)) }
{
    let rows = (config.nodes * config.groups) as usize;
    let (board, writers, seen) = Board::new(alloc, rows)?;
    Ok(Rows {
        board,
        writers,
        seen,
    })
}

/// The queues and their passes.
fn queues_of(alloc: Global, config: &Config) -> Result<AllQueues, NoMemory>
    requires { IsTrue (is_within_limits config.now) }
    ensures sends { IfOk result (λ q. (vec_len q.sends ≡ 65 + config.now.workers) ×
        All (λ s. s.queues ≡ q.shards.queues) q.sends.items) }
    ensures takes { IfOk result (λ q. (vec_len q.takes ≡ config.now.workers) ×
        All (λ t. t.queues ≡ q.shards.queues) q.takes.items) }
{
    let senders = OTHER_SENDERS + config.workers;
    let made = OpShards::new(alloc, config.shards, QUEUE_PLACES, senders, config.workers);
    let Ok((shards, sends, takes)) = made else {
        return Err(NoMemory);
    };
    Ok(AllQueues {
        shards,
        sends,
        takes,
    })
}

/// The monitors, with a first map of each group.
fn maps_of(alloc: Global, config: &Config) -> Result<Maps, NoMemory>
    requires { IsTrue (is_within_limits config.now) }
    ensures book { IfOk result (λ m. IsBookOf config.now m.book) }
    ensures newest { IfOk result (λ m. (length m.newest.items ≡ config.now.groups) × All HasPrimary m.newest.items) }
{
    let all = all_nodes(alloc, config.nodes)?;
    let made = MapBook::new(alloc, config.nodes, config.replicas, config.groups);
    let Ok(mut book) = made else {
        return Err(NoMemory);
    };
    match book.new_map(&all) {
        Ok(newest) => Ok(Maps { book, newest }),
        Err(_) => Err(NoMemory),
    }
}

/// The nodes with the numbers below this.
fn all_nodes(alloc: Global, nodes: u64) -> Result<Vec<NodeId>, AllocError> {
    let mut all = Vec::new(alloc);
    for number in 0..nodes {
        all.push(NodeId::new(number))?;
    }
    Ok(all)
}
