//! Tests of lists of nodes, and of requests.
ghost use Rattle.std.specs.Prelude.{◌≡◌};
ghost use Rattle.group_world.specs.Maps.{all_among, is_same_list, is_first};
ghost use Rattle.group_world.specs.Rules.{is_same_request};

use pg_log::Request;
use placement::{NodeId, has};

/// True if each of `nodes` is among `others`.
pub fn are_among(nodes: &[NodeId], others: &[NodeId]) -> bool
    ensures { result ≡ all_among nodes.now others.now }
{
    for node in nodes {
        if !has(*node, others) {
            return false;
        }
    }
    true
}

/// True if the node is the first, and so the primary.
pub fn leads(nodes: &[NodeId], node: NodeId) -> bool
    ensures { result ≡ is_first node nodes.now }
{
    match nodes {
        [first, ..] => node == *first,
        [] => false,
    }
}

/// True if the lists are equal: the same nodes in the same order.
pub fn are_same(nodes: &[NodeId], others: &[NodeId]) -> bool
    ensures { result ≡ is_same_list nodes.now others.now }
{
    if nodes.len() != others.len() {
        return false;
    }
    for place in 0..nodes.len() {
        if nodes[place] != others[place] {
            return false;
        }
    }
    true
}

/// True if the requests are equal.
pub fn is_same_request(request: &Request, other: &Request) -> bool
    ensures { result ≡ is_same_request request.now other.now }
{
    request.is(other)
}
