//! What arithmetic, comparisons and sign extension of RFC 9669 give for plain numbers: for each
//! crate that runs code, or judges what a run of it computes.

ghost use Rattle.std.specs.Prelude.{◌≡◌, ◌<◌, ◌%◌, ◌^◌};
ghost use Rattle.bpf_decode.specs.Instruction.{signed_byte_count};
ghost use Rattle.std.specs.Int.{w32, w64};
ghost use Rattle.bpf_decode.specs.Arithmetic.{signed_load_value, computed, alu_value, neg_value, mov_value};
ghost use Rattle.bpf_decode.specs.Arithmetic.{signed_move_value, end_value, compared, is_taken};

use crate::access::SignedWidth;
use crate::operation::{Arithmetic, ByteOrder, Comparison, EndWidth, OpWidth, SignedMove};

/// The operation on 64 bits (RFC 9669 section 4.1).
// By the RFC a division by zero gives 0, a remainder by zero leaves the destination, a shift count
// is masked to the width, and the least number divided by -1 wraps.
#[inline]
#[rattlefmt::skip]
pub fn compute64(operation: Arithmetic, m: u64, n: u64) -> u64
    ensures { result ≡ computed operation w64 m n }
{
    match operation {
        Arithmetic::Add => m.wrapping_add(n),
        Arithmetic::Sub => m.wrapping_sub(n),
        Arithmetic::Mul => m.wrapping_mul(n),
        Arithmetic::Div => { if n == 0 { 0 } else { m / n } }
        Arithmetic::SignedDiv => {
            if n == 0 { 0 } else { m.cast_signed().wrapping_div(n.cast_signed()).cast_unsigned() }
        }
        Arithmetic::Or => m | n,
        Arithmetic::And => m & n,
        Arithmetic::Lsh => m << (n % 64),
        Arithmetic::Rsh => m >> (n % 64),
        Arithmetic::Mod => { if n == 0 { m } else { m % n } }
        Arithmetic::SignedMod => {
            if n == 0 { m } else { m.cast_signed().wrapping_rem(n.cast_signed()).cast_unsigned() }
        }
        Arithmetic::Xor => m ^ n,
        Arithmetic::Arsh => (m.cast_signed() >> (n % 64)).cast_unsigned(),
    }
}

/// The operation on 32 bits (RFC 9669 section 4.1).
#[inline]
#[rattlefmt::skip]
pub fn compute32(operation: Arithmetic, m: u32, n: u32) -> u32
    ensures { result ≡ computed operation w32 m n }
{
    match operation {
        Arithmetic::Add => m.wrapping_add(n),
        Arithmetic::Sub => m.wrapping_sub(n),
        Arithmetic::Mul => m.wrapping_mul(n),
        Arithmetic::Div => { if n == 0 { 0 } else { m / n } }
        Arithmetic::SignedDiv => {
            if n == 0 { 0 } else { m.cast_signed().wrapping_div(n.cast_signed()).cast_unsigned() }
        }
        Arithmetic::Or => m | n,
        Arithmetic::And => m & n,
        Arithmetic::Lsh => m << (n % 32),
        Arithmetic::Rsh => m >> (n % 32),
        Arithmetic::Mod => { if n == 0 { m } else { m % n } }
        Arithmetic::SignedMod => {
            if n == 0 { m } else { m.cast_signed().wrapping_rem(n.cast_signed()).cast_unsigned() }
        }
        Arithmetic::Xor => m ^ n,
        Arithmetic::Arsh => (m.cast_signed() >> (n % 32)).cast_unsigned(),
    }
}

/// The low 32 bits.
#[inline(always)]
pub fn low(m: u64) -> u32
    ensures { result ≡ m % 2 ^ 32 }
{
    (m % 0x1_0000_0000) as u32
}

/// The operation on all 64 bits, or on the low 32 with the rest zero.
#[inline]
pub fn alu(bits: OpWidth, operation: Arithmetic, m: u64, n: u64) -> u64
    ensures { result ≡ alu_value bits operation m n }
{
    match bits {
        OpWidth::Bits64 => compute64(operation, m, n),
        OpWidth::Bits32 => u64::from(compute32(operation, low(m), low(n))),
    }
}

/// The negative (RFC 9669 section 4.1).
#[inline(always)]
pub fn negative(bits: OpWidth, m: u64) -> u64
    ensures { result ≡ neg_value bits m }
{
    match bits {
        OpWidth::Bits64 => m.wrapping_neg(),
        OpWidth::Bits32 => u64::from(low(m).wrapping_neg()),
    }
}

/// The value of a copy: all 64 bits, or the low 32 with the rest zero.
#[inline(always)]
pub fn copied(bits: OpWidth, m: u64) -> u64
    ensures { result ≡ mov_value bits m }
{
    match bits {
        OpWidth::Bits64 => m,
        OpWidth::Bits32 => u64::from(low(m)),
    }
}

/// The value of a copy with sign extension (RFC 9669 section 4.1, MOVSX).
#[inline(always)]
#[rattlefmt::skip]
pub fn sign_extended(extension: SignedMove, m: u64) -> u64
    ensures { result ≡ signed_move_value extension m }
{
    match extension {
        SignedMove::Byte64 => i64::from(((m % 0x100) as u8).cast_signed()).cast_unsigned(),
        SignedMove::Half64 => i64::from(((m % 0x1_0000) as u16).cast_signed()).cast_unsigned(),
        SignedMove::Word64 => i64::from(low(m).cast_signed()).cast_unsigned(),
        SignedMove::Byte32 => u64::from(i32::from(((m % 0x100) as u8).cast_signed()).cast_unsigned()),
        SignedMove::Half32 => u64::from(i32::from(((m % 0x1_0000) as u16).cast_signed()).cast_unsigned()),
    }
}

/// The low bits in an order of bytes (RFC 9669 section 4.2).
#[inline(always)]
pub fn ordered(order: ByteOrder, width: EndWidth, m: u64) -> u64
    ensures { result ≡ end_value order width m }
{
    match order {
        ByteOrder::ToLittle => kept(width, m),
        ByteOrder::ToBig => swapped(width, m),
        ByteOrder::Swap => swapped(width, m),
    }
}

/// The low bits, as they are.
#[inline(always)]
fn kept(width: EndWidth, m: u64) -> u64
    ensures { result ≡ end_value ByteOrder.ToLittle width m }
{
    match width {
        EndWidth::End16 => m % 0x1_0000,
        EndWidth::End32 => m % 0x1_0000_0000,
        EndWidth::End64 => m,
    }
}

/// The low bits, with their bytes in reverse.
#[inline(always)]
fn swapped(width: EndWidth, m: u64) -> u64
    ensures { result ≡ end_value ByteOrder.ToBig width m }
{
    match width {
        EndWidth::End16 => u64::from(((m % 0x1_0000) as u16).swap_bytes()),
        EndWidth::End32 => u64::from(low(m).swap_bytes()),
        EndWidth::End64 => m.swap_bytes(),
    }
}

/// True if a comparison of 64 bits holds (RFC 9669 section 4.3).
#[inline]
pub fn compare64(comparison: Comparison, m: u64, n: u64) -> bool
    ensures { result ≡ compared comparison w64 m n }
{
    match comparison {
        Comparison::Equal => m == n,
        Comparison::Greater => m > n,
        Comparison::GreaterEqual => m >= n,
        Comparison::SharesBits => m & n != 0,
        Comparison::NotEqual => m != n,
        Comparison::SignedGreater => m.cast_signed() > n.cast_signed(),
        Comparison::SignedGreaterEqual => m.cast_signed() >= n.cast_signed(),
        Comparison::Less => m < n,
        Comparison::LessEqual => m <= n,
        Comparison::SignedLess => m.cast_signed() < n.cast_signed(),
        Comparison::SignedLessEqual => m.cast_signed() <= n.cast_signed(),
    }
}

/// True if a comparison of 32 bits holds.
#[inline]
pub fn compare32(comparison: Comparison, m: u32, n: u32) -> bool
    ensures { result ≡ compared comparison w32 m n }
{
    match comparison {
        Comparison::Equal => m == n,
        Comparison::Greater => m > n,
        Comparison::GreaterEqual => m >= n,
        Comparison::SharesBits => m & n != 0,
        Comparison::NotEqual => m != n,
        Comparison::SignedGreater => m.cast_signed() > n.cast_signed(),
        Comparison::SignedGreaterEqual => m.cast_signed() >= n.cast_signed(),
        Comparison::Less => m < n,
        Comparison::LessEqual => m <= n,
        Comparison::SignedLess => m.cast_signed() < n.cast_signed(),
        Comparison::SignedLessEqual => m.cast_signed() <= n.cast_signed(),
    }
}

/// True if a conditional jump is taken: it compares all 64 bits, or the low 32.
#[inline]
pub fn taken(bits: OpWidth, comparison: Comparison, m: u64, n: u64) -> bool
    ensures { result ≡ is_taken bits comparison m n }
{
    match bits {
        OpWidth::Bits64 => compare64(comparison, m, n),
        OpWidth::Bits32 => compare32(comparison, low(m), low(n)),
    }
}

/// The bytes that a load with sign extension read, as a number of 64 bits (RFC 9669 section 5.2).
#[inline(always)]
pub fn sign_extended_load(width: SignedWidth, n: u64) -> u64
    requires { n < 256 ^ signed_byte_count width }
    ensures { result ≡ signed_load_value width n }
{
    match width {
        SignedWidth::Byte => i64::from((n as u8).cast_signed()).cast_unsigned(),
        SignedWidth::Half => i64::from((n as u16).cast_signed()).cast_unsigned(),
        SignedWidth::Word => i64::from((n as u32).cast_signed()).cast_unsigned(),
    }
}
