//! Calls by rounds of methods that remove names and look for the next one: what each round needs, by
//! hand. There are as many needs as helper calls and removals at most, in some rows as many. And the
//! laws of calls on parts, each called once.

use crate::calls_on_parts::{limits, put_number, put_text};
use crate::lists::{self, Made};
use crate::words::pairs;
use class_calls::{
    PartCall, PartCallError, call_part, lists_stand_over_others, more_of_a_part_is_enough,
    parts_have_one_answer,
};
use part_bytes::{Need, need_form};
use part_calls::{PartRoom, more_is_enough};
use part_rounds::{part_rounds_are_few, rounds_are_few};
use std::alloc::Global;
use std::process::Abort;

/// The helper calls that a method makes on an object with the names `b`, `c` and `d`, each with the
/// value `1`; whether these are keys; how many removals of names succeed; the needs of the rounds; and
/// the list.
#[rattlefmt::skip]
const ROWS: &[(&str, bool, usize, &[&str], &str)] = &[
    // the next name, and the one after it
    ("map_next <- >9; map_next <b >9", true, 0, &["040000", "0402006200"], ""),
    // a need finds the name that is removed then, and one more the name after it
    ("map_next <- >9; map_rm <b; map_next <- >9", true, 1, &["040000", "0402006200"], "06010062"),
    // one that was removed unseen is found again: one need each beside those of the removals
    ("map_rm <b; map_rm <c; map_next <- >9", true, 2,
        &["03010062", "03010063", "040000", "0402006200", "0402006300"], "0601006206010063"),
    ("map_rm <d; map_rm <b; map_rm <c; map_next <- >9", true, 3,
        &["03010064", "03010062", "03010063", "040000", "0402006200", "0402006300", "0402006400"],
        "060100640601006206010063"),
    // a removal that fails is none, and after the object's removal nothing is needed
    ("map_rm <a; map_next <- >9", true, 0, &["03010061", "040000"], ""),
    ("map_rm <b; remove; map_next <- >9", true, 1, &["03010062"], "0601006202"),
    // and so of xattrs
    ("rmxattr <b; xattr_next <- >9", false, 1, &["02010062", "050000", "0502006200"], "04010062"),
];

/// What a host asks for: the name that isn't there, and those that are.
const NAMES: [&[u8]; 4] = [b"a", b"b", b"c", b"d"];

/// The strings in nine pieces: those before each name, the name, and those after the last.
const PIECES: usize = 9;

/// Which pieces a host has fetched.
#[derive(Drop)]
struct Fetched {
    are_keys: bool,
    known: [bool; PIECES],
}

/// Where a piece begins.
fn start(rt: &impl Abort, alloc: Global, piece: usize) -> Vec<u8> {
    let mut place = Vec::new(alloc);
    let name = if piece % 2 == 1 {
        piece / 2
    } else {
        (piece / 2).wrapping_sub(1)
    };
    if let Some(name) = NAMES.get(name) {
        place.extend_from_slice(name).expect(rt, "memory");
        if piece % 2 == 0 {
            place.push(0).expect(rt, "memory");
        }
    }
    place
}

impl Fetched {
    /// True if a piece is one, and was fetched.
    fn has(&self, piece: Option<usize>) -> bool {
        piece.and_then(|piece| self.known.get(piece)) == Some(&true)
    }

    /// Puts the intervals that the fetched pieces make up, and the names in them, each with its value.
    fn put(&self, rt: &impl Abort, alloc: Global, bytes: &mut Vec<u8>) {
        let (mut bounds, mut entries) = (Vec::new(alloc), Vec::new(alloc));
        let (mut intervals, mut count) = (0u64, 0u64);
        for piece in 0..PIECES {
            if self.has(Some(piece)) {
                if !self.has(piece.checked_sub(1)) {
                    put_text(rt, &mut bounds, &start(rt, alloc, piece));
                    intervals = intervals.saturating_add(1);
                }
                if !self.has(piece.checked_add(1)) {
                    put_text(rt, &mut bounds, &start(rt, alloc, piece + 1));
                }
                if piece % 2 == 1 && piece > 1 {
                    put_text(rt, &mut entries, &start(rt, alloc, piece));
                    put_text(rt, &mut entries, b"1");
                    count = count.saturating_add(1);
                }
            }
        }
        put_number(rt, bytes, intervals, 2);
        bytes.extend_from_slice(&bounds).expect(rt, "memory");
        put_number(rt, bytes, count, 2);
        bytes.extend_from_slice(&entries).expect(rt, "memory");
    }

    /// The part that says what was fetched of an object without data.
    fn part(&self, rt: &impl Abort, alloc: Global) -> Vec<u8> {
        let mut bytes = Vec::new(alloc);
        put_number(rt, &mut bytes, 1, 1);
        put_number(rt, &mut bytes, 0, 8);
        put_number(rt, &mut bytes, 0, 4);
        if self.are_keys {
            put_number(rt, &mut bytes, 0, 4);
            self.put(rt, alloc, &mut bytes);
        } else {
            self.put(rt, alloc, &mut bytes);
            put_number(rt, &mut bytes, 0, 4);
        }
        bytes
    }

    /// Fetches a name, or all from a place on up to and with the next name that is there.
    fn fetch(&mut self, rt: &impl Abort, alloc: Global, need: &Need) {
        let (place, is_name) = match need {
            Need::Blocks { first: _, count: _ } => return,
            Need::Xattr(name) | Need::Key(name) => (name, true),
            Need::KeyFrom(place) | Need::XattrFrom(place) => (place, false),
        };
        let mut is_on = false;
        for piece in 0..PIECES {
            is_on = is_on || start(rt, alloc, piece).as_slice() == place.as_slice();
            if let Some(is_known) = self.known.get_mut(piece) {
                *is_known = *is_known || is_on;
            }
            is_on = is_on && !is_name && (piece % 2 == 0 || piece == 1);
        }
    }
}

/// True if the rounds of a method's call need these, one after the other, and then leave the list.
fn needs(
    rt: &impl Abort,
    alloc: Global,
    made: &Made,
    fetched: &mut Fetched,
    wanted: &[&str],
) -> bool {
    let mut room = PartRoom::new(alloc);
    for need in wanted {
        let part = fetched.part(rt, alloc);
        let request = PartCall {
            method: b"f",
            part: &part,
            caller: 7,
            limits: limits(),
            input: &made.input,
        };
        match call_part(alloc, &mut room, &made.class, request) {
            Err(PartCallError::Needs(needed)) => {
                let form = need_form(alloc, &needed).expect(rt, "memory");
                if form.as_slice() != pairs(rt, alloc, need).as_slice() {
                    return false;
                }
                fetched.fetch(rt, alloc, &needed);
            }
            _ => return false,
        }
    }
    true
}

/// True if a call answers, and leaves the list.
fn leaves(rt: &impl Abort, alloc: Global, made: &Made, fetched: &Fetched, list: &str) -> bool {
    let part = fetched.part(rt, alloc);
    let request = PartCall {
        method: b"f",
        part: &part,
        caller: 7,
        limits: limits(),
        input: &made.input,
    };
    match call_part(alloc, &mut PartRoom::new(alloc), &made.class, request) {
        Ok(answer) => answer.edits.as_slice() == pairs(rt, alloc, list).as_slice(),
        Err(_) => false,
    }
}

#[test]
fn needed_names(rt: HostRuntime) {
    let alloc = rt.alloc();
    for (calls, are_keys, removals, wanted, list) in ROWS {
        let made = lists::calling_by(&rt, alloc, ".rules 3;", calls, 0);
        let mut fetched = Fetched {
            are_keys: *are_keys,
            known: [false; PIECES],
        };
        assert!(rt; needs(&rt, alloc, &made, &mut fetched, wanted), "{calls}");
        assert!(rt; leaves(&rt, alloc, &made, &fetched, list), "{calls}");
        assert!(rt;
            wanted.len() <= calls.split(';').count() + *removals,
            "{calls}"
        );
    }
}

/// The laws are proved when their crates are checked: a call does nothing.
#[test]
fn laws(_rt: HostRuntime) {
    rounds_are_few();
    part_rounds_are_few();
    more_is_enough();
    parts_have_one_answer();
    more_of_a_part_is_enough();
    lists_stand_over_others();
}
