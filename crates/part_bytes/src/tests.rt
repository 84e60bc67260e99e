//! Spellings written by hand: of a part, of what is no part, and of needs.

use crate::{NEED_LIMIT, Need, PLACE_LIMIT, PartError, need_form, needed_name, read_part};

/// An object `abc`: nothing is known of its xattrs, and of its keys all, which are `k` = `v`.
const ABC: &[u8] =
    b"\x01\x03\0\0\0\0\0\0\0\x01\0\0\0\0\0\0\0\0\0\0\0abc\0\0\0\0\x01\0\0\0\0\0\x01\0\x01\0k\x01\0v";

#[test]
fn part_of_abc(rt: HostRuntime) {
    let part = read_part(rt.alloc(), ABC)
        .expect(&rt, "a part")
        .expect(&rt, "an object");
    assert!(rt; part.size == 3 && part.blocks.len() == 1 && part.blocks[0].number == 0);
    assert!(rt; part.blocks[0].bytes == b"abc".as_slice());
    assert!(rt; part.xattrs.intervals.is_empty() && part.xattrs.entries.is_empty());
    assert!(rt; part.keys.are_all_known() && !part.xattrs.are_all_known());
    assert!(rt; part.keys.entries.len() == 1);
    assert!(rt;
        part.keys.entries[0].name == b"k".as_slice()
            && part.keys.entries[0].value == b"v".as_slice()
    );
    assert!(rt; read_part(rt.alloc(), b"\0").expect(&rt, "absent").is_none());
}

/// What is no part, and why.
#[rattlefmt::skip]
const REFUSED: [(&str, &[u8]); 16] = [
    ("no byte", b""),
    ("a first byte above 1", b"\x02"),
    ("a byte follows", b"\0\0"),
    ("a byte follows", b"\x01\0\0\0\0\0\0\0\0\0\0\0\0\0\0\0\0\0\0\0\0\0"),
    ("a field passes the end", b"\x01\0\0\0\0\0\0\0\0\0\0\0\0\0\0\0\0\0\0\0"),
    ("size 2^63", b"\x01\0\0\0\0\0\0\0\x80\0\0\0\0\0\0\0\0\0\0\0\0"),
    ("size 4,096 with block 1", b"\x01\0\x10\0\0\0\0\0\0\x01\0\0\0\x01\0\0\0\0\0\0\0\0\0\0\0\0\0\0\0"),
    ("block 0 twice", b"\x01\x01\0\0\0\0\0\0\0\x02\0\0\0\0\0\0\0\0\0\0\0a\0\0\0\0\0\0\0\0a\0\0\0\0\0\0\0\0"),
    ("1,025 blocks", b"\x01\0\0\0\0\0\0\0\0\x01\x04\0\0\0\0\0\0\0\0\0\0"),
    ("1,026 intervals", b"\x01\0\0\0\0\0\0\0\0\0\0\0\0\x02\x04\0\0\0\0\0\0"),
    ("33 xattrs", b"\x01\0\0\0\0\0\0\0\0\0\0\0\0\0\0\x21\0\0\0\0\0"),
    ("[a, b) [b, c)", b"\x01\0\0\0\0\0\0\0\0\0\0\0\0\0\0\0\0\x02\0\x01\0a\x01\0b\x01\0b\x01\0c\0\0"),
    ("[b, b)", b"\x01\0\0\0\0\0\0\0\0\0\0\0\0\0\0\0\0\x01\0\x01\0b\x01\0b\0\0"),
    ("[a, end) [b, c)", b"\x01\0\0\0\0\0\0\0\0\0\0\0\0\0\0\0\0\x02\0\x01\0a\0\0\x01\0b\x01\0c\0\0"),
    ("[a, b) and b", b"\x01\0\0\0\0\0\0\0\0\0\0\0\0\0\0\0\0\x01\0\x01\0a\x01\0b\x01\0\x01\0b\0\0"),
    ("all, and an empty name", b"\x01\0\0\0\0\0\0\0\0\0\0\0\0\0\0\0\0\x01\0\0\0\0\0\x01\0\0\0\0\0"),
];

#[test]
fn refused(rt: HostRuntime) {
    for (why, bytes) in &REFUSED {
        assert!(rt;
            read_part(rt.alloc(), *bytes).err() == Some(PartError::NoPart),
            "{why}"
        );
    }
}

#[test]
fn needs(rt: HostRuntime) {
    let rows: [(Need, &[u8]); 5] = [
        (
            Need::Blocks { first: 0, count: 2 },
            b"\x01\0\0\0\0\0\0\0\0\x02",
        ),
        (Need::Xattr(needed_name(b"b")), b"\x02\x01\0b"),
        (Need::Key(needed_name(b"k")), b"\x03\x01\0k"),
        (Need::KeyFrom(needed_name(b"b\0")), b"\x04\x02\0b\0"),
        (Need::KeyFrom(needed_name(b"a\0")), b"\x04\x02\0a\0"),
    ];
    for (need, bytes) in &rows {
        assert!(rt; need_form(rt.alloc(), need).expect(&rt, "memory").as_slice() == *bytes);
    }
    let longest = Need::XattrFrom(needed_name(&[97; PLACE_LIMIT]));
    assert!(rt; need_form(rt.alloc(), &longest).expect(&rt, "memory").len() == NEED_LIMIT);
}
