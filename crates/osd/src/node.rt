ghost use Rattle.std.specs.Prelude.{◌≡◌, ◌<◌, ◌≤◌, MatchOption, vec_len};

use crate::name::ClusterName;
use group_cell::GroupCell;
use std::marker::{Model, PhantomData};
use std::sync::Mutex;
use std::sync::atomic::{AtomicBool, Ordering};

/// A node: its part in each group, each part under a lock of its own. Contracts see how many groups
/// it has.
pub(crate) struct Node<N: ClusterName> {
    stopped: AtomicBool,
    cells: Vec<Mutex<GroupCell<N>>>,
    of: PhantomData<N>,
}

impl<N: ClusterName> Drop for Node<N> {
    fn drop(self) {
        let Node {
            stopped,
            cells,
            of: _,
        } = self;
        drop(stopped);
        drop(cells);
    }
}

impl<N: ClusterName> Model for Node<N> {
    ghost use Rattle.std.specs.Prelude.{◌≡◌, ℕ, vec_len};

    ghost Value = { ℕ };

    ghost view = { λ n. vec_len n.cells };

    ghost invariant = { λ n. vec_len n.cells ≡ N.config.groups };
}

impl<N: ClusterName> Node<N> {
    /// A node of a cell for each group, which isn't stopped.
    pub fn new(cells: Vec<Mutex<GroupCell<N>>>) -> Node<N>
        requires { vec_len cells ≡ N.config.groups }
    {
        Node {
            stopped: AtomicBool::new(false),
            cells,
            of: PhantomData,
        }
    }

    /// Its part in a group.
    pub fn cell(&self, group: usize) -> Option<&Mutex<GroupCell<N>>>
        ensures { MatchOption result (N.config.groups ≤ group) (λ _. group < N.config.groups) }
    {
        self.cells.get(group)
    }

    /// True if it is stopped. What reaches a stopped node is lost.
    pub fn is_stopped(&self) -> bool {
        self.stopped.load(Ordering::SeqCst)
    }

    /// Stops it, or lets it go on.
    pub fn set_stopped(&self, stopped: bool) {
        self.stopped.store(stopped, Ordering::SeqCst);
    }
}
