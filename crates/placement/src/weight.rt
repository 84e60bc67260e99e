//! How high a node ranks for a group, as a number.

ghost use Rattle.std.specs.Prelude.{◌≡◌};
ghost use Rattle.placement.specs.Placement.{score};

use crate::node_id::NodeId;

/// The score of a node for a group: both numbers, mixed as SplitMix64 mixes its state. Arithmetic
/// wraps modulo 2^64.
pub fn score(group: u64, node: NodeId) -> u64
    ensures { result ≡ score group node }
{
    // One number for each pair: node numbers are below 16, so they fit below the group's bits.
    let z = group.wrapping_mul(0x1_0000).wrapping_add(node.get());
    let z = (z ^ (z >> 30)).wrapping_mul(0xbf58_476d_1ce4_e5b9);
    let z = (z ^ (z >> 27)).wrapping_mul(0x94d0_49bb_1331_11eb);
    z ^ (z >> 31)
}
