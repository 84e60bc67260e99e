//! Memory by plain addresses: each access looks for the region that has it.

ghost use Rattle.std.specs.Prelude.{◌≡◌, ◌<◌, ◌≤◌, ◌+◌, ◌^◌, ◌-◌, ℕ, Some, None, if◌then◌else◌, length, IfSome};
ghost use Rattle.bpf_machine.specs.State.{le_value, le_bytes, cells, written, put, size};
ghost use Rattle.bpf_machine.specs.Helper.{write_room};
ghost use Rattle.flat_machine.specs.View.{layout_of};
ghost use Rattle.flat_machine.specs.StateView.{memory_of, caps_in, layout_in, flat_state};
ghost use Rattle.bpf_machine.specs.Flat.{base, holds, find, range, load, load_signed, store, flat_after};
ghost use Rattle.flat_machine.specs.inner.FlatState.{sets, GivesState};

use crate::machine::Machine;
use crate::regions::Regions;
use crate::state::FlatState;
use bpf_decode::arithmetic::sign_extended_load;
use bpf_decode::{Region, SignedWidth};

/// The place in a region of the bytes at an address, if the region has all of them.
fn place_in(machine: &Machine, region: Region, at: u64, w: u64) -> Option<usize>
    ensures held { result ≡ (if holds machine.now.caps (layout_of machine.now.layout) region at w
        then Some (at - base (layout_of machine.now.layout) region) else None) }
    ensures inside { IfSome result (λ place. place + w ≤ size machine.now.caps region) }
{
    let base = machine.layout.base(region);
    let length = machine.caps.size(region) as u64;
    // Compared by differences, which stay in 64 bits, as the sum of an address and a length may
    // not.
    if at >= base && at - base <= length && w <= length - (at - base) {
        Some((at - base) as usize)
    } else {
        None
    }
}

/// The one region that has all of the bytes at an address, and their place in it.
pub fn find(machine: &Machine, at: u64, w: u64) -> Option<(Region, usize)>
    ensures found { result ≡ find machine.now.caps (layout_of machine.now.layout) at w }
    ensures inside { IfSome result (λ p. p.1 + w ≤ size machine.now.caps p.0) }
{
    if let Some(place) = place_in(machine, Region::Input, at, w) {
        return Some((Region::Input, place));
    }
    if let Some(place) = place_in(machine, Region::Output, at, w) {
        return Some((Region::Output, place));
    }
    match place_in(machine, Region::Stack, at, w) {
        Some(place) => Some((Region::Stack, place)),
        None => None,
    }
}

/// The number that bytes spell, the lowest first.
fn read_number(bytes: &[u8]) -> u64
    requires { length bytes.now ≤ 8 }
    ensures value { result ≡ le_value bytes.now }
    ensures small { result < 256 ^ length bytes.now }
{
    match bytes {
        [] => 0,
        [first, ..] => u64::from(*first) + 256 * read_number(&bytes[1..]),
    }
}

/// The eight bytes of a number, the lowest first.
fn number_bytes(n: u64) -> [u8; 8]
    ensures { result ≡ le_bytes 8 n }
{
    let a = n / 256;
    let b = a / 256;
    let c = b / 256;
    let d = c / 256;
    let e = d / 256;
    let f = e / 256;
    let g = f / 256;
    [
        (n % 256) as u8,
        (a % 256) as u8,
        (b % 256) as u8,
        (c % 256) as u8,
        (d % 256) as u8,
        (e % 256) as u8,
        (f % 256) as u8,
        (g % 256) as u8,
    ]
}

/// Bytes written over those at a place.
fn overwrite(xs: &mut Vec<u8>, at: usize, bytes: &[u8])
    requires { at + length bytes.now ≤ length xs.old.items }
    ensures bytes { xs.new.items ≡ written xs.old.items at bytes.now }
    ensures length { length xs.new.items ≡ length xs.old.items }
{
    xs[at..at + bytes.len()].copy_from_slice(bytes);
}

/// A region's bytes.
pub fn region_bytes(memory: &Regions, region: Region) -> &[u8]
    ensures bytes { result.now ≡ cells (memory_of memory.now) region }
    ensures length { length result.now ≡ size memory.now.machine.caps region }
{
    match region {
        Region::Input => &memory.input,
        Region::Output => &memory.output,
        Region::Stack => &memory.stack,
    }
}

/// Bytes written into a region at a place.
fn put_bytes(memory: &mut Regions, region: Region, at: usize, bytes: &[u8])
    requires inside { at + length bytes.now ≤ size memory.old.machine.caps region }
    ensures put { memory_of memory.new ≡ put (memory_of memory.old) region at bytes.now }
    ensures machine { memory.new.machine ≡ memory.old.machine }
{
    match region {
        Region::Input => overwrite(&mut memory.input, at, bytes),
        Region::Output => overwrite(&mut memory.output, at, bytes),
        Region::Stack => overwrite(&mut memory.stack, at, bytes),
    }
}

/// Bytes written into a helper's range; one of length 0 has no place.
pub fn put_room(memory: &mut Regions, room: Option<(Region, usize)>, bytes: &[u8])
    requires inside { IfSome room (λ p. p.1 + length bytes.now ≤ size memory.old.machine.caps p.0) }
    ensures put { memory_of memory.new ≡ write_room (memory_of memory.old) room bytes.now }
    ensures machine { memory.new.machine ≡ memory.old.machine }
{
    if let Some((region, at)) = room {
        put_bytes(memory, region, at, bytes);
    }
}

/// A load of w bytes, zero-extended (RFC 9669 section 5.1): the number for its register.
pub fn load(w: usize, at: u64, s: &FlatState) -> Option<u64>
    requires short { w ≤ 8 }
    ensures { (dst : ℕ) → sets dst (flat_state s.now) result ≡ flat_after (caps_in s.now) (layout_in s.now)
        (flat_state s.now) (load (caps_in s.now) (layout_in s.now) w dst at (flat_state s.now)) }
{
    let (region, place) = find(&s.memory.machine, at, w as u64)?;
    let bytes = region_bytes(&s.memory, region);
    Some(read_number(&bytes[place..place + w]))
}

/// A load with sign extension (section 5.2).
pub fn load_signed(width: SignedWidth, at: u64, s: &FlatState) -> Option<u64>
    ensures { (dst : ℕ) → sets dst (flat_state s.now) result ≡ flat_after (caps_in s.now) (layout_in s.now)
        (flat_state s.now) (load_signed (caps_in s.now) (layout_in s.now) width dst at (flat_state s.now)) }
{
    let w = width.bytes();
    let (region, place) = find(&s.memory.machine, at, w as u64)?;
    let bytes = region_bytes(&s.memory, region);
    Some(sign_extended_load(width, read_number(&bytes[place..place + w])))
}

/// A store of the low w bytes of a number (section 5.1).
pub fn store(w: usize, at: u64, value: u64, s: &mut FlatState) -> Option<()>
    requires short { w ≤ 8 }
    ensures store { GivesState result (flat_state s.new)
        (store (caps_in s.old) (layout_in s.old) w at value (flat_state s.old)) }
    ensures slot { s.new.slot ≡ s.old.slot }
    ensures machine { s.new.memory.machine ≡ s.old.memory.machine }
{
    let (region, place) = find(&s.memory.machine, at, w as u64)?;
    if region.is_writable() {
        let bytes = number_bytes(value);
        put_bytes(&mut s.memory, region, place, &bytes[..w]);
        Some(())
    } else {
        None
    }
}

/// The place of a helper's range; a range of length 0 has none, and may have any address.
pub fn range(machine: &Machine, writes: bool, at: u64, n: u64) -> Option<Option<(Region, usize)>>
    ensures range { result ≡ range machine.now.caps (layout_of machine.now.layout) writes at n }
    ensures inside { IfSome result (λ t. IfSome t (λ p. p.1 + n ≤ size machine.now.caps p.0)) }
{
    if n == 0 {
        return Some(None);
    }
    let place = find(machine, at, n)?;
    if writes && !place.0.is_writable() {
        None
    } else {
        Some(Some(place))
    }
}
