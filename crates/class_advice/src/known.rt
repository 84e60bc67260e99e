//! Prints what is known of a register.

use abstract_num::Number;
use abstract_regs::Kind;
use bpf_decode::{Region, RuleSet};
use std::alloc::AllocError;

/// True if a number may be negative, and the signed range excludes some numbers.
fn says_signed(n: &Number) -> bool {
    let signed = n.second.first;
    1 << 63 <= n.first.high && (i64::MIN < signed.low || signed.high < i64::MAX)
}

/// True if the unknown bits aren't simply the lowest ones.
fn says_bits(n: &Number) -> bool {
    let unknown = n.second.second.first.unknown;
    unknown & unknown.wrapping_add(1) != 0
}

/// True if the rule set knows halves, and the half says more than the range.
fn says_half(rules: RuleSet, n: &Number) -> bool {
    let half = n.second.second.second;
    match rules {
        RuleSet::One | RuleSet::Two => false,
        RuleSet::Three => {
            n.first.low != n.first.high
                && 1 << 31 <= n.first.high
                && (i32::MIN < half.low || half.high < i32::MAX)
        }
    }
}

/// Adds a number: its range, and what else says more.
fn push_number(out: &mut String, rules: RuleSet, n: &Number) -> Result<(), AllocError> {
    match (n.first.low, n.first.high) {
        (0, u64::MAX) => out.push_str("any number")?,
        (low, high) if low == high => write!(out, "{low}")?,
        (low, high) => write!(out, "{low}..{high}")?,
    }
    if says_signed(n) {
        let signed = n.second.first;
        write!(out, ", signed {}..{}", signed.low, signed.high)?;
    }
    if says_bits(n) {
        let bits = n.second.second.first;
        write!(out, ", bits {} and any of {}", bits.value, bits.unknown)?;
    }
    if says_half(rules, n) {
        let half = n.second.second.second;
        write!(out, ", low half {}..{}", half.low, half.high)?;
    }
    Ok(())
}

pub(crate) fn region_text(region: Region) -> &'static str {
    match region {
        Region::Input => "input",
        Region::Output => "output",
        Region::Stack => "stack",
    }
}

/// Adds what is known of a register; of a pointer its region, and its distance from the region's
/// first byte.
pub(crate) fn push_kind(out: &mut String, rules: RuleSet, kind: Kind) -> Result<(), AllocError> {
    match kind {
        Kind::Unset => out.push_str("unset"),
        Kind::Num(n) => push_number(out, rules, &n),
        // One place below the region.
        Kind::Ptr(region, at) if 1 << 63 <= at.first.low && at.first.low == at.first.high => {
            write!(
                out,
                "{} - {}",
                region_text(region),
                at.first.low.wrapping_neg()
            )
        }
        Kind::Ptr(region, at) => {
            write!(out, "{} + ", region_text(region))?;
            push_number(out, rules, &at)
        }
    }
}
