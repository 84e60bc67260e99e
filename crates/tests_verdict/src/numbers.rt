mod edges;
mod parts;
mod rows;

use abstract_num::{Bits, Half, Number, Product, SRange, URange};

/// Unsigned ends, signed ends, value and unknown bits.
type Six = (u64, u64, i64, i64, u64, u64);

/// All bits; all of the low half.
const ALL: u64 = u64::MAX;

const LOW: u64 = 0xffff_ffff;

const TOP: u64 = 0x8000_0000_0000_0000;

const MIN: i64 = i64::MIN;

const MAX: i64 = i64::MAX;

const ANY: Six = (0, ALL, MIN, MAX, 0, ALL);

/// Every half.
const ANY_HALF: Half = Half {
    low: i32::MIN,
    high: i32::MAX,
};

/// The number of these six parts and any half, if each part is a valid one.
fn number(six: Six) -> Option<Number> {
    let (low, high, least, greatest, value, unknown) = six;
    if low <= high && least <= greatest && value & unknown == 0 {
        Some(Product {
            first: URange { low, high },
            second: Product {
                first: SRange {
                    low: least,
                    high: greatest,
                },
                second: Product {
                    first: Bits { value, unknown },
                    second: ANY_HALF,
                },
            },
        })
    } else {
        None
    }
}

/// True if a number has these six parts, whatever its half.
fn is(x: Number, six: Six) -> bool {
    match number(six) {
        Some(y) => x.unsigned() == y.unsigned() && x.signed() == y.signed() && x.bits() == y.bits(),
        None => false,
    }
}

/// True if an answer is the number of these six parts, or none if none is wanted.
fn gives(x: Option<Number>, want: Option<Six>) -> bool {
    match x {
        Some(x) => match want {
            Some(six) => is(x, six),
            None => false,
        },
        None => want.is_none(),
    }
}
