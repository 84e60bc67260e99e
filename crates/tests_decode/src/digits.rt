use text_digits::{are_digits, is_decimal, value_within};

/// Texts, the base, and whether they are digits to it.
const DIGITS: [(&[u8], u8, bool); 7] = [
    (b"09", 10, true),
    (b"", 10, false),
    (b"1 ", 10, false),
    (b"12", 2, false),
    (b"0fF", 16, true),
    (b"g", 16, false),
    (b"/", 16, false),
];

/// Texts, and whether they are decimal numbers.
const DECIMALS: [(&[u8], bool); 6] = [
    (b"0", true),
    (b"10", true),
    (b"", false),
    (b"01", false),
    (b"-1", false),
    (b"1f", false),
];

/// Texts, the base, a bound, and the number that they write, none if it is above the bound.
#[rattlefmt::skip]
const VALUES: [(&[u8], u8, u64, Option<u64>); 8] = [
    (b"1", 10, 0, None),
    (b"007", 10, 7, Some(7)),
    (b"256", 10, 255, None),
    (b"18446744073709551615", 10, u64::MAX, Some(u64::MAX)),
    (b"18446744073709551616", 10, u64::MAX, None),
    (b"Ff", 16, 255, Some(255)),
    (b"10000000000000000", 16, u64::MAX, None),
    (b"101", 2, 5, Some(5)),
];

#[test]
fn digits(rt: HostRuntime) {
    for (text, radix, expected) in &DIGITS {
        assert!(rt; are_digits(*text, *radix) == *expected);
    }
    for (text, expected) in &DECIMALS {
        assert!(rt; is_decimal(*text) == *expected);
    }
    for (text, radix, most, expected) in &VALUES {
        assert!(rt; value_within(*text, *radix, *most) == *expected);
    }
}
