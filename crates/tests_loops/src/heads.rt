//! What is declared of loops: what is refused, at the limits, and what is found at a slot.

use crate::made::{Heads, Places, loops};
use loop_heads::{
    BUDGET_LIMIT, HEAD_LIMIT, Head, HeadPlace, Loops, LoopsError, PLACE_LIMIT, PlaceKind,
};
use std::alloc::Global;

/// Places of a head at slot 2, and whether there is such a head.
#[rattlefmt::skip]
const PLACES: [(Places, bool); 22] = [
    (&[], true),
    (&[(0, PlaceKind::Any)], true),
    (&[(9, PlaceKind::Unset)], true),
    (&[(10, PlaceKind::Any)], false),
    (&[(11, PlaceKind::Any)], true),
    (&[(74, PlaceKind::Any)], true),
    (&[(75, PlaceKind::Any)], false),
    (&[(255, PlaceKind::Any)], false),
    (&[(0, PlaceKind::Any), (1, PlaceKind::Any)], true),
    (&[(1, PlaceKind::Any), (1, PlaceKind::Any)], false),
    (&[(1, PlaceKind::Any), (0, PlaceKind::Any)], false),
    (&[(0, PlaceKind::Unsigned(5, 5))], true),
    (&[(0, PlaceKind::Unsigned(5, 4))], false),
    (&[(0, PlaceKind::Unsigned(0, u64::MAX))], true),
    (&[(0, PlaceKind::Signed(-1, 0))], true),
    (&[(0, PlaceKind::Signed(0, -1))], false),
    (&[(0, PlaceKind::Input(5, 5))], true),
    (&[(0, PlaceKind::Input(5, 4))], false),
    (&[(0, PlaceKind::Output(0, 1))], true),
    (&[(0, PlaceKind::Output(1, 0))], false),
    (&[(74, PlaceKind::Stack(0, 512))], true),
    (&[(74, PlaceKind::Stack(512, 0))], false),
];

/// A budget, heads, and the refusal.
#[rattlefmt::skip]
const LOOPS: [(u32, Heads, Option<LoopsError>); 11] = [
    (1, &[(0, &[])], None),
    (0, &[(0, &[])], Some(LoopsError::Limit)),
    (1_048_576, &[(65_535, &[])], None),
    (1_048_577, &[(0, &[])], Some(LoopsError::Limit)),
    (1, &[], Some(LoopsError::Limit)),
    (1, &[(2, &[]), (3, &[])], None),
    (1, &[(2, &[]), (2, &[])], Some(LoopsError::Head(2))),
    (1, &[(2, &[]), (1, &[])], Some(LoopsError::Head(1))),
    // the first that is none or doesn't rise; the limits come before
    (1, &[(2, &[]), (7, &[(10, PlaceKind::Any)]), (5, &[])], Some(LoopsError::Head(7))),
    (1, &[(2, &[]), (1, &[]), (7, &[(10, PlaceKind::Any)])], Some(LoopsError::Head(1))),
    (0, &[(2, &[(10, PlaceKind::Any)])], Some(LoopsError::Limit)),
];

fn is_head(alloc: Global, places: Places) -> Option<bool> {
    let mut head = Vec::new(alloc);
    for (number, kind) in places {
        head.push(HeadPlace {
            number: *number,
            kind: *kind,
        })
        .ok()?;
    }
    Some(Head::new(2, head).is_head())
}

/// True if that is the refusal of a budget and heads.
fn refuses(alloc: Global, budget: u32, heads: &[(u16, Places)], told: Option<LoopsError>) -> bool {
    match (loops(alloc, budget, heads), told) {
        (Some(Ok(loops)), None) => loops.budget() == budget && loops.heads().len() == heads.len(),
        (Some(Err(error)), Some(told)) => error == told,
        (Some(Ok(_)), Some(_)) | (Some(Err(_)), None) | (None, _) => false,
    }
}

#[test]
fn places(rt: HostRuntime) {
    for (number, (places, is)) in PLACES.iter().enumerate() {
        assert!(rt; is_head(rt.alloc(), *places) == Some(*is), "{number}");
        let told = if *is { None } else { Some(LoopsError::Head(2)) };
        assert!(rt; refuses(rt.alloc(), 1, &[(2, *places)], told), "{number}");
    }
    assert!(rt; PLACE_LIMIT == 74);
}

#[test]
fn budgets_and_slots(rt: HostRuntime) {
    for (number, (budget, heads, told)) in LOOPS.iter().enumerate() {
        assert!(rt; refuses(rt.alloc(), *budget, *heads, *told), "{number}");
    }
    assert!(rt; BUDGET_LIMIT == 1_048_576);
}

/// Loops of that many heads, at slots 0, 2, 4 and so on.
fn many(alloc: Global, count: u16) -> Option<Result<Loops, LoopsError>> {
    let mut heads = Vec::new(alloc);
    for n in 0..count {
        let mut places = Vec::new(alloc);
        let kind = PlaceKind::Unsigned(0, u64::from(n));
        places.push(HeadPlace { number: 3, kind }).ok()?;
        heads.push(Head::new(n.saturating_mul(2), places)).ok()?;
    }
    Some(Loops::new(9, heads))
}

/// True if the one place that is declared at a slot is register 3 as 0 to `high`; of no `high`, if
/// nothing is.
fn has(loops: &Loops, slot: usize, high: Option<u64>) -> bool {
    match (loops.at(slot), high) {
        (None, None) => true,
        (Some([place]), Some(high)) => place.number == 3
            && place.kind == PlaceKind::Unsigned(0, high),
        (None, Some(_)) | (Some(_), None) | (Some(_), Some(_)) => false,
    }
}

#[test]
fn many_heads(rt: HostRuntime) {
    let most = many(rt.alloc(), 64).expect(&rt, "memory");
    let loops = most.ok().expect(&rt, "64 heads");
    let rows = [
        (0, Some(0)),
        (1, None),
        (126, Some(63)),
        (128, None),
        (65_536, None),
    ];
    for (slot, high) in &rows {
        assert!(rt; has(&loops, *slot, *high), "{slot}");
    }
    let more = many(rt.alloc(), 65).expect(&rt, "memory");
    assert!(rt; matches!(more, Err(LoopsError::Limit)));
    assert!(rt; HEAD_LIMIT == 64);
}
