//! The limits of a class's numbers and names.

ghost use Rattle.std.specs.Prelude.{◌≡◌};
ghost use Rattle.bpf_decode.specs.Limits.{is_method_count, is_name_length, is_name_byte, are_name_bytes};
ghost use Rattle.bpf_decode.specs.Limits.{is_method_name, are_flags, capacity_limit, is_capacity, is_slot_count};
ghost use Rattle.bpf_decode.specs.ImageReading.{is_above};

use crate::rule_set::RuleSet;
use loop_bytes::LOOPS_LIMIT;

/// A class has 1 to 32 methods.
pub const METHOD_LIMIT: usize = 32;

/// A method's name has 1 to 64 bytes.
pub const NAME_LIMIT: usize = 64;

/// The greatest capacity of rule sets 1 and 2: a method's input and output have at most 4,096 bytes
/// each.
pub const NARROW_CAPACITY_LIMIT: u16 = 4096;

/// The greatest capacity of any rule set, that of rule set 3: a method's input and output have at
/// most 65,535 bytes each.
pub const CAPACITY_LIMIT: u16 = 65_535;

/// A method has 1 to 4,096 slots.
pub const SLOT_LIMIT: usize = 4096;

/// No image has more bytes: the header's 8, and for each method 8, its name, its slots and in rule set
/// 3 its loops.
pub const IMAGE_LIMIT: usize = 8 + METHOD_LIMIT * (8 + NAME_LIMIT + 8 * SLOT_LIMIT + LOOPS_LIMIT);

/// True if a class may have `count` methods: 1 to `METHOD_LIMIT`.
pub(crate) fn is_method_count(count: usize) -> bool
    ensures { result ≡ is_method_count count }
{
    1 <= count && count <= METHOD_LIMIT
}

/// True if a name may have `length` bytes: 1 to `NAME_LIMIT`.
pub(crate) fn is_name_length(length: usize) -> bool
    ensures { result ≡ is_name_length length }
{
    1 <= length && length <= NAME_LIMIT
}

fn is_name_byte(byte: u8) -> bool
    ensures { result ≡ is_name_byte byte }
{
    matches!(byte, b'a'..=b'z' | b'0'..=b'9' | b'_')
}

/// True if each byte is one of a-z, 0-9 and `_`.
pub fn are_name_bytes(name: &[u8]) -> bool
    ensures { result ≡ are_name_bytes name.now }
{
    for byte in name {
        if !is_name_byte(*byte) {
            return false;
        }
    }
    true
}

/// True if it may name a method: 1 to `NAME_LIMIT` bytes, each one of a-z, 0-9 and `_`.
pub fn is_method_name(name: &[u8]) -> bool
    ensures { result ≡ is_method_name name.now }
{
    is_name_length(name.len()) && are_name_bytes(name)
}

/// True if the name is above the one before it, compared byte by byte.
pub(crate) fn is_above(before: &[u8], name: &[u8]) -> bool
    ensures { result ≡ is_above before.now name.now }
{
    before.cmp(&name).is_lt()
}

/// True if they are a method's flags: 1 reads, 2 writes, 3 both.
pub(crate) fn are_flags(flags: u8) -> bool
    ensures { result ≡ are_flags flags }
{
    1 <= flags && flags <= 3
}

/// The most bytes that a method's input, and its output, may have by that rule set.
pub fn capacity_limit(rules: RuleSet) -> u16
    ensures { result ≡ capacity_limit rules }
{
    match rules {
        RuleSet::One | RuleSet::Two => NARROW_CAPACITY_LIMIT,
        RuleSet::Three => CAPACITY_LIMIT,
    }
}

/// True if input and output may have up to `capacity` bytes by that rule set: 0 to its
/// `capacity_limit`.
pub(crate) fn is_capacity(rules: RuleSet, capacity: u16) -> bool
    ensures { result ≡ is_capacity rules capacity }
{
    capacity <= capacity_limit(rules)
}

/// True if a method may have `slots` slots: 1 to `SLOT_LIMIT`.
pub(crate) fn is_slot_count(slots: usize) -> bool
    ensures { result ≡ is_slot_count slots }
{
    1 <= slots && slots <= SLOT_LIMIT
}
