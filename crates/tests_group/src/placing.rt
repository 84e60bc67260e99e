//! Which group an object has, and which nodes act for a group: the formulas, worked out by hand.
use super::words::{halves, is_number, next, next_long, next_number, see};
use placement::{
    ClusterMap, GROUP_LIMIT, NodeId, PlacementError, acting, are_nodes, group_of, has, is_acting,
    score,
};
use std::alloc::Global;
use std::process::Abort;
use std::str::SplitWhitespace;

/// A group, a node, and the score: SplitMix64's output at the state that both numbers make. The
/// third to fifth are the generator's first outputs from the seed 0.
const SCORES: [(u64, u64, u64); 5] = [
    (0, 0, 0),
    (0, 1, 0x5692_161d_100b_05e5),
    (0x9e37_79b9_7f4a, 0x7c15, 0xe220_a839_7b1d_cdaf),
    (0x3c6e_f372_fe94, 0xf82a, 0x6e78_9e6a_a1b9_65f4),
    (0xdaa6_6d2c_7ddf, 0x743f, 0x06c4_5d18_8009_454f),
];

/// A group, replicas, groups and epoch; the nodes that are up; and the acting set. The up nodes are
/// in falling order, so that the order of the acting set comes from the scores.
const ACTING: &str = "0 3 64 1 | 4 3 2 1 0 | 2 4 1
1 3 64 1 | 4 3 2 1 0 | 2 0 4
2 2 64 1 | 4 3 2 1 0 | 4 1
12 3 64 1 | 4 3 2 1 0 | 4 3 2
12 3 64 1 | 3 2 1 0 | 3 2 1
63 1 64 1 | 4 3 2 1 0 | 3
0 3 64 1 | 3 0 | 3 0
0 3 64 1 | 0 | 0
5 3 64 1 | 15 14 13 12 11 10 9 8 7 6 5 4 3 2 1 0 | 6 10 5";

/// Each is one number away from a valid map, on both sides of its range if it has two; then no node
/// is up, and every number is outside its range; and then every number is the last of its range.
const LIMITS: &str = "0 3 64 0 | 0 1 | Limit
0 3 64 4294967296 | 0 1 | Limit
0 3 64 1 | 0 16 | Limit
0 3 64 1 | 0 18446744073709551615 | Limit
0 3 64 1 | 3 1 3 | Limit
0 0 64 1 | 0 1 | Limit
0 4 64 1 | 0 1 | Limit
0 3 0 1 | 0 1 | Limit
0 3 63 1 | 0 1 | Limit
0 3 128 1 | 0 1 | Limit
64 3 64 1 | 0 1 | Limit
0 0 0 0 | | NoneUp
63 3 64 4294967295 | 15 | 15";

/// The nodes of the numbers of a text.
fn nodes<R: Abort>(rt: &R, alloc: Global, text: &str) -> Vec<NodeId> {
    let mut nodes = Vec::new(alloc);
    for word in text.split_whitespace() {
        let number = word.parse::<u64>().expect(rt, "a node");
        nodes.push(NodeId::new(number)).expect(rt, "memory");
    }
    nodes
}

/// True if nodes have the numbers of a text.
fn have_numbers(nodes: &[NodeId], text: &str) -> bool {
    let mut words = text.split_whitespace();
    for node in nodes {
        if !is_number(next(&mut words), node.get()) {
            return false;
        }
    }
    words.next().is_none()
}

/// True if a name belongs to this group, of 64 groups.
fn is_group(name: &str, group: u64) -> bool {
    group_of(name.as_bytes(), 64) == group
}

/// The published values of FNV-1a with 64 bits, modulo 64 and less.
#[test]
fn names(rt: HostRuntime) {
    assert!(rt; is_group("", 0x25) && is_group("a", 12) && is_group("foobar", 0x28));
    assert!(rt; group_of(b"a", 8) == 4 && group_of(b"a", 1) == 0);
}

#[test]
fn scores(rt: HostRuntime) {
    for (group, node, value) in SCORES {
        assert!(rt; score(group, NodeId::new(node)) == value, "of node {node}");
    }
}

/// The map of a line, whose words are after the group.
fn map_of<R: Abort>(
    rt: &R,
    alloc: Global,
    words: &mut SplitWhitespace<'_>,
    up: &str,
) -> ClusterMap {
    let replicas = next_number(rt, words) as usize;
    let groups = next_long(rt, words);
    ClusterMap {
        epoch: next_long(rt, words),
        up: nodes(rt, alloc, up),
        replicas,
        groups,
    }
}

fn name_of(error: PlacementError) -> &'static str {
    match error {
        PlacementError::NoneUp => "NoneUp",
        PlacementError::Limit => "Limit",
        PlacementError::NoMemory => "NoMemory",
    }
}

/// True if the acting set is these nodes, or is refused by an error of this name.
fn are_acting(alloc: Global, map: &ClusterMap, group: u64, wanted: &str) -> bool {
    match acting(alloc, map, group) {
        Ok(found) => have_numbers(&found, wanted),
        Err(error) => name_of(error) == wanted,
    }
}

/// True if the acting set is as a line says.
fn is_right<R: Abort>(rt: &R, alloc: Global, line: &str) -> bool {
    let (numbers, rest) = halves(line, '|');
    let (up, wanted) = halves(rest, '|');
    let mut words = numbers.split_whitespace();
    let group = next_long(rt, &mut words);
    let map = map_of(rt, alloc, &mut words, up);
    are_acting(alloc, &map, group, wanted)
}

/// Checks the lines of a text.
fn check<R: Abort>(rt: &R, alloc: Global, text: &str) {
    for line in text.lines() {
        see(rt, is_right(rt, alloc, line), line);
    }
}

#[test]
fn acting_sets(rt: HostRuntime) {
    check(&rt, rt.alloc(), ACTING);
}

#[test]
fn refusals(rt: HostRuntime) {
    check(&rt, rt.alloc(), LIMITS);
    assert!(rt; GROUP_LIMIT == 64);
}

/// Nodes, and `yes` if they may act: one to three, each below 16, none twice.
const MAY_ACT: &str = "| no
0 | yes
15 | yes
16 | no
2 4 1 | yes
2 4 2 | no
3 18446744073709551615 | no
1 2 3 4 | no";

#[test]
fn lists_that_may_act(rt: HostRuntime) {
    for line in MAY_ACT.lines() {
        let (list, wanted) = halves(line, '|');
        let may_act = is_acting(&nodes(&rt, rt.alloc(), list));
        see(&rt, may_act == (wanted == "yes"), line);
    }
}

/// True if the number of a node is among these, and no number is there twice.
fn is_among(nodes: &[NodeId], number: u64) -> bool {
    are_nodes(nodes) && has(NodeId::new(number), nodes)
}

#[test]
fn among_nodes(rt: HostRuntime) {
    let nodes = nodes(&rt, rt.alloc(), "1 2 3 4");
    assert!(rt; is_among(&nodes, 1) && is_among(&nodes, 4) && !is_among(&nodes, 0));
}
