//! Two threads make maps at once: clients are sent to the nodes of the newer one.

use crate::hold::{TURNS, reaches};
use crate::play::{ONE, Play, is_played};
use crate::requests::{answer_to, lock};
use osd::{ClusterName, Open, OpenedSession, Running};
use placement::NodeId;
use rados_client::Config;
use std::alloc::Global;
use std::sync::Wait;
use std::sync::atomic::{AtomicU64, Ordering};

/// Of nodes 0 and 1 the one that is up acts for all groups.
const GROUPS: Config = Config {
    nodes: 2,
    groups: 8,
    shards: 8,
    ..ONE
};

/// The number of maps that both make.
const ROUNDS: u64 = 40;

/// The limit on the tries of a request until its primary has done peering.
const ASKS: u32 = 100;

/// Two makers of maps, and others who look at the newest maps all the time, so that the makers wait
/// for these.
#[derive(Drop)]
struct Makers {
    alloc: Global,
    /// The rounds that the first maker has begun, and the second has ended: more than `ROUNDS` once
    /// all is over.
    begun: AtomicU64,
    ended: AtomicU64,
}

impl Makers {
    /// True if the node that is asked answers as the primary by the newest map does.
    fn is_answered<N: ClusterName, R: Wait>(
        &self,
        running: &Running<N, R>,
        opened: &mut OpenedSession<N>,
        number: u32,
    ) -> Option<bool> {
        let request = lock(self.alloc, opened.client.get(), number, "a")?;
        for _ in 0..ASKS {
            running.ask(&mut opened.sends, &request).ok()?;
            if answer_to(running, &request)?.is_some() {
                return Some(true);
            }
        }
        Some(false)
    }

    /// Makes a map of node 0 in each round, and judges it.
    fn first<N: ClusterName, R: Wait>(&self, running: &Running<N, R>) -> Option<bool> {
        let mut opened = running.open()?;
        for round in 1..=ROUNDS {
            self.begun.store(round, Ordering::SeqCst);
            running.new_map(&[NodeId::new(0)]).ok()?;
            let is_made = reaches(&self.ended, round);
            if !is_made || !self.is_answered(running, &mut opened, round as u32)? {
                return Some(false);
            }
        }
        Some(true)
    }

    /// Makes a map of node 1 in each round.
    fn second<N: ClusterName, R: Wait>(&self, running: &Running<N, R>) -> bool {
        for round in 1..=ROUNDS {
            if !reaches(&self.begun, round) || running.new_map(&[NodeId::new(1)]).is_err() {
                return false;
            }
            self.ended.store(round, Ordering::SeqCst);
        }
        true
    }

    /// Looks at the newest map of a group again and again.
    fn looks<N: ClusterName, R: Wait>(&self, running: &Running<N, R>, group: usize) -> bool {
        let Some(mut opened) = running.open() else {
            return false;
        };
        for _ in 0..TURNS {
            if self.begun.load(Ordering::SeqCst) > ROUNDS {
                return true;
            }
            running.nudge(&mut opened.sends, group);
        }
        false
    }
}

impl Play for Makers {
    fn parts(&self) -> usize {
        9
    }

    fn begins<N: ClusterName, R: Wait>(&self, _running: &Running<N, R>) -> bool {
        true
    }

    fn part<N: ClusterName, R: Wait>(&self, running: &Running<N, R>, number: usize) -> bool {
        match number {
            0 => {
                running.serve(0, &Open);
                true
            }
            1 => {
                let done = self.first(running);
                self.begun.store(ROUNDS + 1, Ordering::SeqCst);
                running.finish();
                done == Some(true)
            }
            2 => self.second(running),
            _ => self.looks(running, number.wrapping_sub(2)),
        }
    }

    fn ends<N: ClusterName, R: Wait>(&self, _running: &Running<N, R>) -> bool {
        true
    }
}

#[test]
fn the_newer_of_two_maps_is_the_newest(rt: HostRuntime) {
    let makers = Makers {
        alloc: rt.alloc(),
        begun: AtomicU64::new(0),
        ended: AtomicU64::new(0),
    };
    assert!(rt; is_played(rt, rt.alloc(), GROUPS, &makers));
}
