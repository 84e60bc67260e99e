//! The maps of 64 groups on five nodes; three nodes act for each group.
use crate::words::{halves, nodes, number_of, see};
use group_world::{Epoch, MonitorError};
use map_book::{MapBook, MapError};
use std::alloc::Global;
use std::process::Abort;

/// The up nodes of each map, from epoch 1 on, and in how many groups it begins an interval; then
/// the nodes that act for group 0, and those for group 12, by falling score.
const ROWS: &str = "0 1 2 3 4 : 64 | 2 4 1 : 4 3 2
4 2 0 3 1 : 0 | 2 4 1 : 4 3 2
2 : 64 | 2 : 2
0 1 2 3 4 : 64 | 2 4 1 : 4 3 2";

/// The number of groups with a new interval by a map of these up nodes, if there is a map for each
/// group and all have this epoch.
fn told<R: Abort>(
    rt: &R,
    alloc: Global,
    book: &mut MapBook,
    up: &str,
    epoch: u32,
) -> Option<usize> {
    let maps = book.new_map(&nodes(rt, alloc, up)).expect(rt, "maps");
    if maps.len() != 64 || !maps.iter().all(|new| new.map.epoch().get() == epoch) {
        return None;
    }
    Some(maps.iter().filter(|new| new.is_new_interval).count())
}

/// True if these nodes act for a group by its newest map, in this order.
fn is_kept_by<R: Abort>(rt: &R, alloc: Global, book: &MapBook, group: usize, acting: &str) -> bool {
    let acting = nodes(rt, alloc, acting);
    group < book.groups() && book.newest(group).acting() == acting.as_slice()
}

/// True if the map of a line is made as the line says.
fn is_made<R: Abort>(rt: &R, alloc: Global, book: &mut MapBook, line: &str, epoch: u32) -> bool {
    let (said, wanted) = halves(line, '|');
    let (up, count) = halves(said, ':');
    let (group_0, group_12) = halves(wanted, ':');
    told(rt, alloc, book, up, epoch) == Some(number_of(rt, count) as usize)
        && is_kept_by(rt, alloc, book, 0, group_0)
        && is_kept_by(rt, alloc, book, 12, group_12)
}

fn book<R: Abort>(rt: &R, alloc: Global) -> MapBook {
    MapBook::new(alloc, 5, 3, 64).expect(rt, "memory")
}

#[test]
fn only_groups_with_another_acting_list_are_told(rt: HostRuntime) {
    let mut book = book(&rt, rt.alloc());
    let mut epoch = 0u32;
    for line in ROWS.lines() {
        epoch = epoch.wrapping_add(1);
        see(&rt, is_made(&rt, rt.alloc(), &mut book, line, epoch), line);
    }
}

/// Maps of one node and of all five in turn: each begins an interval in each group.
#[test]
fn many_maps(rt: HostRuntime) {
    let mut book = book(&rt, rt.alloc());
    for epoch in 1..=1_100u32 {
        let up = if epoch % 2 == 0 { "0 1 2 3 4" } else { "2" };
        assert!(rt; told(&rt, rt.alloc(), &mut book, up, epoch) == Some(64));
    }
}

/// Up nodes, and the printed refusal of their map.
const REFUSED: [(&str, &str); 3] = [("", "1 NoneUp"), ("0 5", "2 Limit"), ("3 1 3", "2 Limit")];

/// True if a map of these up nodes is refused by an error that prints so.
fn is_refused<R: Abort>(rt: &R, alloc: Global, book: &mut MapBook, up: &str, text: &str) -> bool {
    match book.new_map(&nodes(rt, alloc, up)) {
        Ok(_) => false,
        Err(why) => prints(rt, alloc, why, text),
    }
}

/// True if a refusal prints as this text.
fn prints<R: Abort>(rt: &R, alloc: Global, error: MapError, text: &str) -> bool {
    error.to_string(alloc).expect(rt, "memory").as_str() == text
}

#[test]
fn refused_maps_change_nothing(rt: HostRuntime) {
    let alloc = rt.alloc();
    let mut book = book(&rt, alloc);
    for (up, text) in REFUSED {
        see(&rt, is_refused(&rt, alloc, &mut book, up, text), up);
    }
    assert!(rt; book.epoch().get() == 0 && is_kept_by(&rt, alloc, &book, 63, ""));
    assert!(rt; prints(&rt, alloc, MapError::EpochsUsedUp, "3 EpochsUsedUp"));
    assert!(rt; prints(&rt, alloc, MapError::NoMemory, "4 NoMemory"));
}

/// True if only the newest interval of a group can be activated.
fn activates_the_newest(book: &mut MapBook, group: usize, newest: u32, other: u32) -> bool {
    group < book.groups()
        && book.activate(group, Epoch::new(other)) == Err(MonitorError::NotNewest)
        && book.activate(group, Epoch::new(newest)) == Ok(())
}

/// The second map keeps the interval of the first, and the third begins one.
#[test]
fn a_groups_newest_interval_is_activated(rt: HostRuntime) {
    let alloc = rt.alloc();
    let mut book = book(&rt, alloc);
    assert!(rt; told(&rt, alloc, &mut book, "0 1 2 3 4", 1) == Some(64));
    assert!(rt; told(&rt, alloc, &mut book, "0 1 2 3 4", 2) == Some(0));
    assert!(rt; activates_the_newest(&mut book, 12, 1, 2));
    assert!(rt; told(&rt, alloc, &mut book, "2", 3) == Some(64));
    assert!(rt; activates_the_newest(&mut book, 12, 3, 1));
}
