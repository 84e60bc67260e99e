//! The monitor's refusals, and its maps and their intervals.
use crate::words::{halves, nodes, see};
use group_world::{Epoch, GroupMap, MonitorError};
use peering::Monitor;
use placement::NodeId;
use std::alloc::Global;

/// Acting lists that no map has: of no node, of four, with a repeat, of a number above 15.
const BAD: [&str; 5] = ["", "1 2 3 4", "1 2 1", "16", "3 3"];

/// The refusal of the monitor to activate an interval, if it refuses.
fn refusal(monitor: &mut Monitor, interval: u32) -> Option<MonitorError> {
    monitor.activate(Epoch::new(interval)).err()
}

#[test]
fn refusals(rt: HostRuntime) {
    let mut monitor = Monitor::new(rt.alloc());
    for numbers in BAD {
        let acting = nodes(&rt, rt.alloc(), numbers);
        let why = monitor.new_map(&acting).err();
        see(&rt, why == Some(MonitorError::BadActing), numbers);
    }
    for interval in [0, 1] {
        let why = refusal(&mut monitor, interval);
        see(&rt, why == Some(MonitorError::NotNewest), "no map");
    }
}

/// True if a map has these nodes, this epoch and this interval.
fn is_map(map: &GroupMap, acting: &[NodeId], epoch: u32, interval: u32) -> bool {
    map.epoch().get() == epoch && map.interval().get() == interval && map.acting() == acting
}

/// True if the monitor's next map has these nodes and begins an interval, which is activated.
fn makes(monitor: &mut Monitor, acting: &[NodeId], epoch: u32) -> bool {
    match monitor.new_map(acting) {
        Err(_) => false,
        Ok(map) => is_map(&map, acting, epoch, epoch) && refusal(monitor, epoch).is_none(),
    }
}

/// Maps with another acting list than the one before, the longest that there is.
#[test]
fn many_maps(rt: HostRuntime) {
    let mut monitor = Monitor::new(rt.alloc());
    let one = nodes(&rt, rt.alloc(), "15 0 14");
    let other = nodes(&rt, rt.alloc(), "14 0 15");
    for epoch in 1..=70_000u32 {
        let acting = if epoch % 2 == 0 { &one } else { &other };
        see(&rt, makes(&mut monitor, acting, epoch), "70,000 maps");
    }
}

/// The nodes of each map, from epoch 1 on; then its interval, and the one that was activated before
/// it. After each of the first two maps interval 1 is activated.
const ROWS: &str = "1 2 | 1 0
1 2 | 1 0
2 1 | 3 1
2 1 | 3 1
1 2 | 5 1";

/// True if a monitor's newest map has these nodes, this epoch, and the interval and the one before
/// of a text.
fn is_newest(monitor: &Monitor, acting: &[NodeId], epoch: u32, numbers: &str) -> bool {
    let map = monitor.newest();
    let (interval, prev) = halves(numbers, ' ');
    interval.parse::<u32>().ok() == Some(map.interval().get())
        && prev.parse::<u32>().ok() == Some(map.prev().get())
        && map.epoch().get() == epoch
        && map.acting() == acting
}

/// True if making the monitor's next map changes nothing, and keeping it makes it the newest.
fn is_kept(
    alloc: Global,
    monitor: &mut Monitor,
    acting: &[NodeId],
    epoch: u32,
    numbers: &str,
) -> bool {
    let before = monitor.newest().epoch();
    let Ok(map) = monitor.next_map(alloc, acting) else {
        return false;
    };
    let is_apart = monitor.newest().epoch() == before;
    monitor.keep(map);
    is_apart && is_newest(monitor, acting, epoch, numbers)
}

#[test]
fn maps_that_keep_their_interval(rt: HostRuntime) {
    let alloc = rt.alloc();
    let mut monitor = Monitor::new(alloc);
    let mut epoch = 0u32;
    for line in ROWS.lines() {
        epoch = epoch.wrapping_add(1);
        let (acting, numbers) = halves(line, '|');
        let acting = nodes(&rt, alloc, acting);
        let is_kept = is_kept(alloc, &mut monitor, &acting, epoch, numbers);
        let copy = monitor.copy(alloc).expect(&rt, "memory");
        see(
            &rt,
            is_kept && is_newest(&copy, &acting, epoch, numbers),
            line,
        );
        if epoch <= 2 {
            see(&rt, refusal(&mut monitor, 1).is_none(), "interval 1");
        }
    }
}
