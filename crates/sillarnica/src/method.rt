//! The declaration of a method, and the parts of an object that it needs.

ghost use Rattle.std.specs.Prelude.{◌≡◌, ◌⊎◌, negsuc, None};
ghost use Rattle.bpf_decode.specs.Class.{ClassMethod};
ghost use Rattle.verifier.specs.Verified.{method_named};
ghost use Rattle.class_calls.specs.Handle.{declared_of};
ghost use Rattle.class_loops.specs.Held.{methods_of};
ghost use Rattle.sillarnica.specs.Told.{TellsMethod, TellsMethodAt, TellsNeeds, TellsOf, given, HeldNeeds};

use crate::told::{IMAGE, NO_MEMORY, NO_METHOD, ToldMethod};
use crate::verify::write_front;
use bpf_decode::{ClassImage, DecodeError, Method, read_image};
use class_calls::{Declared, parts_may_be_left_out};
use class_loops::HeldClass;
use footprint::needed;
use std::alloc::Global;

/// The method of a name, if the class has one.
fn find<'a>(class: &'a ClassImage, name: &[u8]) -> Option<&'a Method>
    ensures { given result ≡ method_named class.now.methods name.now }
{
    for method in class.methods() {
        if method.name().as_bytes() == name {
            return Some(method);
        }
    }
    None
}

/// Tells the declaration of a method: its flags (1 reads, 2 writes, 3 both) and the most bytes of
/// its input and output. Returns 0; 1 if the bytes are no image; -95 if it has no method of that
/// name; or -12. No rule is asked.
#[unsafe(no_mangle)]
pub extern "C" fn sillarnica_method(
    alloc: Global,
    image: &[u8],
    method: &[u8],
    flags: &mut u32,
    in_cap: &mut u32,
    out_cap: &mut u32,
) -> i32
    ensures { TellsMethod image.now method.now
        (record { flags = flags.old; in_cap = in_cap.old; out_cap = out_cap.old })
        (record { flags = flags.new; in_cap = in_cap.new; out_cap = out_cap.new }) result }
{
    let class = match read_image(alloc, image) {
        Ok(class) => class,
        Err(error) => {
            return match error.error {
                DecodeError::NoMemory => NO_MEMORY,
                _ => IMAGE,
            };
        }
    };
    let Some(method) = find(&class, method) else {
        return NO_METHOD;
    };
    *flags = u32::from(method.flags());
    *in_cap = u32::from(method.in_cap());
    *out_cap = u32::from(method.out_cap());
    0
}

/// Returns the parts of an object that a method can see or change: 1 data, 2 xattrs, 4 keys, added.
/// A call on any object that has these parts of another answers what one on the other does. -95:
/// there is no such method; -12.
#[unsafe(no_mangle)]
pub extern "C" fn sillarnica_needs(alloc: Global, image: &[u8], method: &[u8]) -> i32
    ensures { TellsNeeds image.now method.now result }
{
    // For the proof: without the other parts a call answers the same.
    parts_may_be_left_out();
    let class = match read_image(alloc, image) {
        Ok(class) => class,
        Err(error) => {
            return match error.error {
                DecodeError::NoMemory => NO_MEMORY,
                _ => NO_METHOD,
            };
        }
    };
    match find(&class, method) {
        Some(method) => i32::from(needed(method.instructions()).number()),
        None => NO_METHOD,
    }
}

/// Says what a method declares and needs, and as many bytes of its name as fit.
pub(crate) fn tell_method(found: &[u8], declared: Declared, told: &mut ToldMethod, name: &mut [u8])
    ensures { (m : ClassMethod) → found.now ≡ m.name → declared ≡ declared_of m →
        TellsOf m (record { method = told.old; name = name.old }) (record { method = told.new; name = name.new }) }
{
    told.flags = u32::from(declared.flags);
    told.in_cap = u32::from(declared.in_cap);
    told.out_cap = u32::from(declared.out_cap);
    told.needs = u32::from(declared.parts.number());
    told.name_len = found.len() as u64;
    write_front(found, name);
}

/// Tells the method of a number, from 0 on: what it declares, the parts of an object that it needs,
/// the length of its name, and as many bytes of the name as fit. Returns 0; 1 if the bytes are no
/// image; -95 past the last; or -12. No rule is asked.
#[unsafe(no_mangle)]
pub extern "C" fn sillarnica_method_at(
    alloc: Global,
    image: &[u8],
    n: usize,
    told: &mut ToldMethod,
    name: &mut [u8],
) -> i32
    ensures { TellsMethodAt image.now n (record { method = told.old; name = name.old })
        (record { method = told.new; name = name.new }) result }
{
    let class = match read_image(alloc, image) {
        Ok(class) => class,
        Err(error) => {
            return match error.error {
                DecodeError::NoMemory => NO_MEMORY,
                _ => IMAGE,
            };
        }
    };
    let Some(method) = class.methods().get(n) else {
        return NO_METHOD;
    };
    let declared = Declared {
        flags: method.flags(),
        in_cap: method.in_cap(),
        out_cap: method.out_cap(),
        parts: needed(method.instructions()),
    };
    tell_method(method.name().as_bytes(), declared, told, name);
    0
}

/// The parts of an object that a method of a class needs: 1 data, 2 xattrs, 4 keys, added. Refused:
/// no such method, -95.
pub(crate) fn needs_of(class: &HeldClass, name: &[u8]) -> i32
    ensures { HeldNeeds (methods_of class.now) name.now result ⊎
        ((result ≡ negsuc 94) × (method_named (methods_of class.now) name.now ≡ None)) }
{
    // For the proof: without the other parts a call answers the same.
    parts_may_be_left_out();
    let Some(n) = class.place_of(name) else {
        return NO_METHOD;
    };
    match class.method_at(n) {
        Some((_, declared)) => i32::from(declared.parts.number()),
        None => NO_METHOD,
    }
}
