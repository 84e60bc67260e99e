//! The helpers that touch neither the object nor memory, and the order of bytes.

ghost use Rattle.std.specs.Prelude.{◌≡◌, None, Some};
ghost use Rattle.helpers.specs.Effect.{gives};
ghost use Rattle.helpers.specs.Table.{out_len_effect, compare_answer};

use crate::answer::negative;
use std::cmp::Ordering;

/// Helper 13, `out_len`: the first `n` bytes of the output region are the output; by its signature
/// they are at most out_cap. It answers 0 and touches no object.
pub fn out_len(output_len: &mut usize, n: u64) -> u64
    ensures answer { result ≡ (out_len_effect None n).answer }
    ensures length { Some output_len.new ≡ (out_len_effect None n).out_len }
{
    *output_len = n as usize;
    0
}

/// Helper 15, `caller`: the number of the client for whom the method runs.
pub fn caller(client: u32) -> u64
    ensures { result ≡ (gives client).number }
{
    u64::from(client)
}

/// The answer of `compare`: the first bytes are below the second (-1), equal to them (0) or above
/// them (1). Bytes are taken unsigned, and a proper beginning is below.
pub fn compared(left: &[u8], right: &[u8]) -> u64
    ensures { result ≡ (compare_answer left.now right.now).number }
{
    match left.cmp(&right) {
        Ordering::Less => negative(1),
        Ordering::Equal => 0,
        Ordering::Greater => 1,
    }
}
