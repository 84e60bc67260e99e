//! The one spelling of loops.

ghost use Rattle.std.specs.Prelude.{◌≡◌, ◌≤◌, ◌++◌, true, OnOk};
ghost use Rattle.std.specs.List.{flat_map, AllByRecursion};
ghost use Rattle.std.specs.Option.{option_copied};
ghost use Rattle.byteorder.specs.Endian.{little_bytes};
ghost use Rattle.loop_bytes.specs.HeadBytes.{kind_number, pair_bytes, bounds_bytes, place_bytes, head_bytes};
ghost use Rattle.loop_bytes.specs.HeadBytes.{loops_bytes, KindFits, HeadFits, LoopsFit};

use byteorder::{ByteOrder, LittleEndian};
use loop_heads::{Head, HeadPlace, Loops, PlaceKind};
use std::alloc::AllocError;

/// The lowest bytes of a number, that many: 0 to 8.
#[tactic(auto, using(crate::proofs::Written::lowest_bytes))]
fn push_number(bytes: &mut Vec<u8>, size: usize, number: u64) -> Result<(), AllocError>
    requires { size ≤ 8 }
    ensures { OnOk result (bytes.new.items ≡ bytes.old.items ++ little_bytes size number) }
{
    let mut cells = [0; 8];
    LittleEndian::write_u64(&mut cells, number);
    bytes.extend_from_slice(&cells[..size])
}

/// Two numbers of eight bytes each.
fn push_pair(bytes: &mut Vec<u8>, a: u64, b: u64) -> Result<(), AllocError>
    ensures { OnOk result (bytes.new.items ≡ bytes.old.items ++ pair_bytes a b) }
{
    push_number(bytes, 8, a)?;
    push_number(bytes, 8, b)
}

/// A kind's number.
fn kind_number(kind: PlaceKind) -> u8
    ensures { result ≡ kind_number kind }
{
    match kind {
        PlaceKind::Unset => 0,
        PlaceKind::Any => 1,
        PlaceKind::Unsigned(_, _) => 2,
        PlaceKind::Signed(_, _) => 3,
        PlaceKind::Input(_, _) => 4,
        PlaceKind::Output(_, _) => 5,
        PlaceKind::Stack(_, _) => 6,
    }
}

/// A kind's bounds, if it has some.
#[rattlefmt::skip]
fn push_bounds(bytes: &mut Vec<u8>, kind: PlaceKind) -> Result<(), AllocError>
    ensures bytes { OnOk result (bytes.new.items ≡ bytes.old.items ++ bounds_bytes kind) }
    ensures fits { KindFits kind }
{
    match kind {
        PlaceKind::Unset | PlaceKind::Any => Ok(()),
        PlaceKind::Signed(a, b) => push_pair(bytes, a.cast_unsigned(), b.cast_unsigned()),
        PlaceKind::Unsigned(a, b) | PlaceKind::Input(a, b) | PlaceKind::Output(a, b)
        | PlaceKind::Stack(a, b) => push_pair(bytes, a, b),
    }
}

fn push_place(bytes: &mut Vec<u8>, place: &HeadPlace) -> Result<(), AllocError>
    ensures bytes { OnOk result (bytes.new.items ≡ bytes.old.items ++ place_bytes place.now) }
    ensures fits { OnOk result (KindFits place.now.kind) }
{
    push_number(bytes, 1, place.number as u64)?;
    push_number(bytes, 1, kind_number(place.kind) as u64)?;
    push_bounds(bytes, place.kind)
}

fn push_places(bytes: &mut Vec<u8>, places: &[HeadPlace]) -> Result<(), AllocError>
    ensures bytes { OnOk result (bytes.new.items ≡ bytes.old.items ++ flat_map place_bytes places.now) }
    ensures fits { OnOk result (AllByRecursion (λ p. KindFits p.kind) places.now) }
{
    for place in places {
        push_place(bytes, place)?;
    }
    Ok(())
}

fn push_head(bytes: &mut Vec<u8>, head: &Head) -> Result<(), AllocError>
    ensures bytes { OnOk result (bytes.new.items ≡ bytes.old.items ++ head_bytes head.now) }
    ensures fits { OnOk result (HeadFits head.now) }
{
    let places = head.places();
    push_number(bytes, 2, head.slot() as u64)?;
    push_number(bytes, 1, places.len() as u64)?;
    push_places(bytes, places)
}

fn push_heads(bytes: &mut Vec<u8>, heads: &[Head]) -> Result<(), AllocError>
    ensures bytes { OnOk result (bytes.new.items ≡ bytes.old.items ++ flat_map head_bytes heads.now) }
    ensures fits { OnOk result (AllByRecursion HeadFits heads.now) }
{
    for head in heads {
        push_head(bytes, head)?;
    }
    Ok(())
}

/// For the prover alone: bounds that are made fit eight bytes. Nothing of it runs.
fn kind_fits(kind: PlaceKind) -> bool
    ensures always { result ≡ true }
    ensures fits { KindFits kind }
{
    match kind {
        PlaceKind::Unset | PlaceKind::Any => true,
        PlaceKind::Signed(a, b) => a <= b || b < a,
        PlaceKind::Unsigned(a, b)
        | PlaceKind::Input(a, b)
        | PlaceKind::Output(a, b)
        | PlaceKind::Stack(a, b) => a <= b || b < a,
    }
}

fn head_fits(head: &Head) -> bool
    ensures always { result ≡ true }
    ensures fits { HeadFits head.now }
{
    for place in head.places() {
        prove!(kind_fits(place.kind));
    }
    (head.slot() as u32) < 65_536
}

/// For the prover alone: the numbers of heads that are made fit the fields of their bytes. Nothing of
/// it runs.
pub fn fits(heads: &[Head]) -> bool
    ensures always { result ≡ true }
    ensures fits { AllByRecursion HeadFits heads.now }
{
    for head in heads {
        prove!(head_fits(head));
    }
    true
}

/// Writes loops at the end, or that a method has none. It fails for want of memory alone, and a part of
/// them may then be written.
pub fn push_loops(bytes: &mut Vec<u8>, loops: Option<&Loops>) -> Result<(), AllocError>
    ensures bytes { OnOk result (bytes.new.items ≡ bytes.old.items ++ loops_bytes (option_copied loops.entry)) }
    // Their bytes hold all of their numbers.
    ensures fits { OnOk result (LoopsFit (option_copied loops.entry)) }
{
    match loops {
        None => push_number(bytes, 2, 0),
        Some(loops) => {
            let heads = loops.heads();
            push_number(bytes, 2, heads.len() as u64)?;
            push_number(bytes, 4, loops.budget() as u64)?;
            push_heads(bytes, heads)
        }
    }
}
