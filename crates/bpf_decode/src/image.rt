//! Class images as bytes: reading, and the one spelling.

ghost use Rattle.std.specs.Prelude.{◌≡◌, ◌++◌, [], length, string_bytes, IsTrue, IfOk, IfErr, OnOk};
ghost use Rattle.std.specs.List.{flat_map};
ghost use Rattle.bpf_decode.specs.Class.{Class, IsMethod, IsClass, AreWithinSet, IsImage, heads_bytes, method_bytes};
ghost use Rattle.bpf_decode.specs.Class.{magic, image_bytes, starts};
ghost use Rattle.std.specs.Option.{option_copied};
ghost use Rattle.loop_bytes.specs.Reading.{loops_from};
ghost use Rattle.byteorder.specs.Endian.{little_bytes};
ghost use Rattle.bpf_decode.specs.Reading.{Reads, Gives};
ghost use Rattle.bpf_decode.specs.Limits.{are_name_bytes};
ghost use Rattle.bpf_decode.specs.ImageReading.{GivesImage, RefusesMethods, RefusesImage, byte_at, number_at, bytes_at};
ghost use Rattle.bpf_decode.specs.ImageReading.{name_at, flags_at, capacity_at, code_at, heads_at, method_at};
ghost use Rattle.bpf_decode.specs.ImageReading.{refusal_of, loops_read, methods_at, rules_of, rules_at, header_at};
ghost use Rattle.bpf_decode.specs.ImageReading.{image_of};
ghost use Rattle.bpf_decode.specs.declared.decode_error.DecodeError.TheVariants.{NoMemory};

use crate::class_image::ClassImage;
use crate::code::{decode, put_code, slots, starts};
use crate::decode_error::DecodeError;
use crate::image_error::ImageError;
use crate::insn::{Insn, Operand};
use crate::limits;
use crate::method::Method;
use crate::rule_set::RuleSet;
use byteorder::{ByteOrder, LittleEndian};
use loop_bytes::{HeadsError, push_loops, read_loops};
use loop_heads::Loops;
use std::alloc::{AllocError, Global};

fn byte_at(bytes: &[u8]) -> Result<(u8, &[u8]), DecodeError>
    ensures { Reads (λ x. (x.0, x.1.now)) result (byte_at bytes.now) }
{
    match bytes {
        [] => Err(DecodeError::Truncated),
        [byte, rest @ ..] => Ok((*byte, rest)),
    }
}

fn number_at(bytes: &[u8]) -> Result<(u16, &[u8]), DecodeError>
    ensures { Reads (λ x. (x.0, x.1.now)) result (number_at bytes.now) }
{
    if bytes.len() < 2 {
        return Err(DecodeError::Truncated);
    }
    Ok((LittleEndian::read_u16(bytes), &bytes[2..]))
}

fn bytes_at(count: usize, bytes: &[u8]) -> Result<(&[u8], &[u8]), DecodeError>
    ensures { Reads (λ x. (x.0.now, x.1.now)) result (bytes_at count bytes.now) }
{
    if bytes.len() < count {
        return Err(DecodeError::Truncated);
    }
    Ok(bytes.split_at(count))
}

#[tactic(auto, unfolding(crate::specs::ImageReading::name_at))]
fn name_at<'a>(before: &[u8], bytes: &'a [u8]) -> Result<(&'a [u8], &'a [u8]), DecodeError>
    ensures read { Reads (λ x. (x.0.now, x.1.now)) result (name_at before.now bytes.now) }
    ensures letters { IfOk result (λ x. IsTrue (are_name_bytes x.0.now)) }
{
    let (length, rest) = byte_at(bytes)?;
    if !limits::is_name_length(length as usize) {
        return Err(DecodeError::Name);
    }
    let (name, rest) = bytes_at(length as usize, rest)?;
    if !limits::are_name_bytes(name) {
        return Err(DecodeError::Name);
    }
    if !limits::is_above(before, name) {
        return Err(DecodeError::Order);
    }
    Ok((name, rest))
}

#[tactic(auto, unfolding(crate::specs::ImageReading::flags_at))]
fn flags_at(bytes: &[u8]) -> Result<(u8, &[u8]), DecodeError>
    ensures { Reads (λ x. (x.0, x.1.now)) result (flags_at bytes.now) }
{
    let (flags, rest) = byte_at(bytes)?;
    if !limits::are_flags(flags) {
        return Err(DecodeError::Flags);
    }
    Ok((flags, rest))
}

#[tactic(auto, unfolding(crate::specs::ImageReading::capacity_at))]
fn capacity_at(rules: RuleSet, bytes: &[u8]) -> Result<(u16, &[u8]), DecodeError>
    ensures { Reads (λ x. (x.0, x.1.now)) result (capacity_at rules bytes.now) }
{
    let (capacity, rest) = number_at(bytes)?;
    if !limits::is_capacity(rules, capacity) {
        return Err(DecodeError::Limit);
    }
    Ok((capacity, rest))
}

#[tactic(auto, unfolding(crate::specs::ImageReading::code_at))]
fn code_at(alloc: Global, bytes: &[u8]) -> Result<(Vec<Insn>, &[u8]), DecodeError>
    ensures { Gives (λ x. (x.0.items, x.1.now)) result (code_at bytes.now) }
{
    // The check looks for the types inside an instruction among those that a function names.
    let _unused: Option<Operand> = None;
    let (slots, rest) = number_at(bytes)?;
    let slots = slots as usize;
    if !limits::is_slot_count(slots) {
        return Err(DecodeError::Limit);
    }
    let (code, rest) = bytes_at(8 * slots, rest)?;
    Ok((decode(alloc, code)?, rest))
}

/// A refusal of loops, as one of an image.
fn refusal_of(error: HeadsError) -> DecodeError
    ensures { result ≡ refusal_of error }
{
    match error {
        HeadsError::NoMemory => DecodeError::NoMemory,
        HeadsError::Truncated => DecodeError::Truncated,
        HeadsError::Limit => DecodeError::Limit,
        HeadsError::Head(slot) => DecodeError::Head(slot as usize),
    }
}

/// The loops of a method with that code.
fn loops_at<'a>(
    alloc: Global,
    instructions: &[Insn],
    bytes: &'a [u8],
) -> Result<(Option<Loops>, &'a [u8]), DecodeError>
    ensures { Gives (λ x. (x.0, x.1.now)) result (loops_read (loops_from (starts instructions.now) bytes.now)) }
{
    let starts = starts(alloc, instructions)?;
    match read_loops(alloc, bytes, &starts) {
        Ok(read) => {
            let rest = &bytes[read.length..];
            Ok((read.into_loops(), rest))
        }
        Err(error) => Err(refusal_of(error)),
    }
}

/// The loops after a method's code, which rule set 3 alone has.
#[tactic(auto, unfolding(crate::specs::ImageReading::heads_at))]
fn heads_at<'a>(
    alloc: Global,
    rules: RuleSet,
    instructions: &[Insn],
    bytes: &'a [u8],
) -> Result<(Option<Loops>, &'a [u8]), DecodeError>
    ensures { Gives (λ x. (x.0, x.1.now)) result (heads_at rules instructions.now bytes.now) }
{
    match rules {
        RuleSet::One | RuleSet::Two => Ok((None, bytes)),
        RuleSet::Three => loops_at(alloc, instructions, bytes),
    }
}

#[tactic(auto, unfolding(crate::specs::ImageReading::method_at))]
fn method_at<'a>(
    alloc: Global,
    rules: RuleSet,
    before: &[u8],
    bytes: &'a [u8],
) -> Result<(Method, &'a [u8], &'a [u8]), DecodeError>
    ensures read { Gives (λ x. (x.0, x.2.now)) result (method_at rules before.now bytes.now) }
    ensures name { IfOk result (λ x. x.1.now ≡ x.0.name) }
{
    let (name, rest) = name_at(before, bytes)?;
    let (flags, rest) = flags_at(rest)?;
    let (in_cap, rest) = capacity_at(rules, rest)?;
    let (out_cap, rest) = capacity_at(rules, rest)?;
    let (instructions, rest) = code_at(alloc, rest)?;
    let (loops, rest) = heads_at(alloc, rules, &instructions, rest)?;
    let text = name_text(alloc, name)?;
    let method = Method::new(text, flags, in_cap, out_cap, instructions);
    Ok((method.with_loops(loops), name, rest))
}

/// The bytes of a legal name as text: each is one of a-z, 0-9 and `_`. It fails for want of memory
/// alone.
pub fn name_text(alloc: Global, name: &[u8]) -> Result<String, AllocError>
    requires { IsTrue (are_name_bytes name.now) }
    ensures { IfOk result (λ t. string_bytes t ≡ name.now) }
{
    String::from_utf8_lossy(alloc, name)
}

/// The header of an image: the rule set and the number of methods.
#[derive(Clone, Copy)]
struct Header {
    rules: RuleSet,
    count: u16,
}

/// The rule set that four bytes name.
fn rules_of(magic: &[u8]) -> Result<RuleSet, DecodeError>
    ensures { result ≡ rules_of magic.now }
{
    if magic == b"RCL1".as_slice() {
        Ok(RuleSet::One)
    } else if magic == b"RCL2".as_slice() {
        Ok(RuleSet::Two)
    } else if magic == b"RCL3".as_slice() {
        Ok(RuleSet::Three)
    } else {
        Err(DecodeError::Magic)
    }
}

#[tactic(auto, unfolding(crate::specs::ImageReading::rules_at))]
fn rules_at(bytes: &[u8]) -> Result<(RuleSet, &[u8]), DecodeError>
    ensures { Reads (λ x. (x.0, x.1.now)) result (rules_at bytes.now) }
{
    let (magic, rest) = bytes_at(4, bytes)?;
    Ok((rules_of(magic)?, rest))
}

#[tactic(auto, unfolding(crate::specs::ImageReading::header_at))]
fn header_at(bytes: &[u8]) -> Result<(Header, &[u8]), DecodeError>
    ensures { Reads (λ x. (x.0, x.1.now)) result (header_at bytes.now) }
{
    let (rules, rest) = rules_at(bytes)?;
    let (count, rest) = number_at(rest)?;
    if !limits::is_method_count(count as usize) {
        return Err(DecodeError::Limit);
    }
    // The number after the count must be 0, so that a class has one image.
    let (zero, rest) = number_at(rest)?;
    if zero != 0 {
        return Err(DecodeError::Magic);
    }
    Ok((Header { rules, count }, rest))
}

fn methods_at(
    alloc: Global,
    rules: RuleSet,
    count: u16,
    bytes: &[u8],
) -> Result<(Vec<Method>, &[u8]), ImageError>
    ensures read { GivesImage (λ x. (x.0.items, x.1.now)) result (methods_at rules count 0 [] bytes.now) }
    ensures refused { IfErr result (RefusesMethods rules count bytes.now) }
{
    let mut methods = Vec::new(alloc);
    // The empty name is below every other, so the first method passes the test of order.
    let mut before: &[u8] = &[];
    let mut rest = bytes;
    for done in 0..count {
        match method_at(alloc, rules, before, rest) {
            Ok((method, name, behind)) => {
                if methods.push(method).is_err() {
                    return Err(ImageError::after(done as usize, DecodeError::NoMemory));
                }
                before = name;
                rest = behind;
            }
            Err(error) => return Err(ImageError::after(done as usize, error)),
        }
    }
    Ok((methods, rest))
}

fn read(alloc: Global, bytes: &[u8]) -> Result<(RuleSet, Vec<Method>), ImageError>
    ensures read { GivesImage (λ x. record { rules = x.0; methods = x.1.items }) result (image_of bytes.now) }
    ensures refused { IfErr result (RefusesImage bytes.now) }
{
    match header_at(bytes) {
        Ok((header, rest)) => {
            let (methods, rest) = methods_at(alloc, header.rules, header.count, rest)?;
            if !rest.is_empty() {
                return Err(ImageError::after(header.count as usize, DecodeError::Trailing));
            }
            Ok((header.rules, methods))
        }
        Err(error) => Err(ImageError::after(0, error)),
    }
}

fn class(alloc: Global, bytes: &[u8]) -> Result<ClassImage, ImageError>
    ensures read { GivesImage (λ c. c) result (image_of bytes.now) }
    ensures refused { IfErr result (RefusesImage bytes.now) }
{
    match read(alloc, bytes) {
        Ok((rules, methods)) => Ok(ClassImage::of(rules, methods)),
        Err(error) => Err(error),
    }
}

/// The class that the bytes are. Each field is read whole and tested before the next.
///
/// Refusals, the first in reading order, with the number of methods that were read whole before:
/// see `DecodeError`. `NoMemory` may come in place of any answer, with the number of methods that
/// were read whole before it, too.
pub fn read_image(alloc: Global, bytes: &[u8]) -> Result<ClassImage, ImageError>
    ensures exact { GivesImage (λ c. c) result (image_of bytes.now) }
    // If memory runs out, that many methods were read whole.
    ensures refused { IfErr result (RefusesImage bytes.now) }
    // Bytes that are read are the spelling of the class.
    ensures found { IfOk result (λ c. IsImage bytes.now c) }
    // A class's spelling is read, unless memory runs out.
    ensures only { (c : Class) → IsImage bytes.now c → GivesImage (λ c. c) result (Ok c) }
{
    class(alloc, bytes)
}

fn put_number(out: &mut Vec<u8>, number: u16) -> Result<(), AllocError>
    ensures { OnOk result (out.new.items ≡ out.old.items ++ little_bytes 2 number) }
{
    let mut bytes = [0; 2];
    LittleEndian::write_u16(&mut bytes, number);
    out.extend_from_slice(&bytes)
}

/// Writes what follows a method's code: in rule set 3 its loops.
fn put_heads(out: &mut Vec<u8>, rules: RuleSet, loops: Option<&Loops>) -> Result<(), AllocError>
    ensures { OnOk result (out.new.items ≡ out.old.items ++ heads_bytes rules (option_copied loops.entry)) }
{
    match rules {
        RuleSet::One | RuleSet::Two => Ok(()),
        RuleSet::Three => push_loops(out, loops),
    }
}

fn put_method(out: &mut Vec<u8>, rules: RuleSet, method: &Method) -> Result<(), AllocError>
    requires { IsMethod method.now }
    ensures { OnOk result (out.new.items ≡ out.old.items ++ method_bytes rules method.now) }
{
    let name = method.name().as_bytes();
    let instructions = method.instructions();
    out.push(name.len() as u8)?;
    out.extend_from_slice(name)?;
    out.push(method.flags())?;
    put_number(out, method.in_cap())?;
    put_number(out, method.out_cap())?;
    put_number(out, slots(instructions) as u16)?;
    put_code(out, instructions)?;
    put_heads(out, rules, method.loops())
}

/// Writes methods at the end.
fn put_methods(out: &mut Vec<u8>, rules: RuleSet, methods: &[Method]) -> Result<(), AllocError>
    requires { IsClass methods.now }
    ensures { OnOk result (out.new.items ≡ out.old.items ++ flat_map (method_bytes rules) methods.now) }
{
    for method in methods {
        put_method(out, rules, method)?;
    }
    Ok(())
}

/// The four bytes that name a rule set.
fn magic(rules: RuleSet) -> &'static [u8]
    ensures { result.now ≡ magic rules }
{
    match rules {
        RuleSet::One => b"RCL1",
        RuleSet::Two => b"RCL2",
        RuleSet::Three => b"RCL3",
    }
}

/// Writes the class's image at the end.
fn put_image(out: &mut Vec<u8>, image: &ClassImage) -> Result<(), AllocError>
    ensures class { IsClass image.now.methods }
    ensures within { AreWithinSet image.now.rules image.now.methods }
    ensures bytes { OnOk result (out.new.items ≡ out.old.items ++ image_bytes image.now) }
{
    let methods = image.methods();
    out.extend_from_slice(magic(image.rules()))?;
    put_number(out, methods.len() as u16)?;
    put_number(out, 0)?;
    put_methods(out, image.rules(), methods)
}

/// The one spelling of the class. Only memory may run out.
pub fn write_image(alloc: Global, image: &ClassImage) -> Result<Vec<u8>, DecodeError>
    ensures image { IfOk result (λ v. IsImage v.items image.now) }
    ensures refused { IfErr result (λ e. e ≡ NoMemory) }
{
    let mut out = Vec::new(alloc);
    put_image(&mut out, image)?;
    Ok(out)
}
