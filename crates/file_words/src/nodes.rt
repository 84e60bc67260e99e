ghost use Rattle.std.specs.Prelude.{◌≡◌, IfOk, map};
ghost use Rattle.file_words.specs.Words.{numbers_in};

use crate::number::number_in;
use placement::NodeId;
use std::alloc::{AllocError, Global};
use std::marker::Model;

/// A list of nodes. Contracts see their numbers.
#[derive(Drop)]
pub struct Nodes {
    items: Vec<NodeId>,
}

impl Model for Nodes {
    ghost use Rattle.std.specs.Prelude.{List, ℕ};

    ghost Value = { List ℕ };

    ghost view = { λ n. n.items.items };
}

impl Nodes {
    /// These nodes. It takes no memory.
    pub fn new(items: Vec<NodeId>) -> Nodes
        ensures { result ≡ items.items }
    {
        Nodes { items }
    }

    /// The nodes, the first one first.
    pub fn items(&self) -> &[NodeId]
        ensures { result.now ≡ self.now }
    {
        &self.items
    }
}

/// The nodes of the words' numbers, in their order; `None` if a word is no number. A number above
/// 15 is no node's, and is kept.
pub fn nodes_in(alloc: Global, words: &[&str]) -> Result<Option<Nodes>, AllocError>
    ensures { IfOk result (λ ns. ns ≡ numbers_in (map (λ w. w.now) words.now)) }
{
    let mut nodes = Vec::new(alloc);
    for word in words {
        match number_in(word) {
            Some(number) => nodes.push(NodeId::new(number))?,
            None => return Ok(None),
        }
    }
    Ok(Some(Nodes::new(nodes)))
}
