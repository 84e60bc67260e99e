//! Lines of a file of events, as they are read.
use pg_log::Request;
use placement::NodeId;
use sim_world::{Line, lines, numbered, read_line};
use std::process::Abort;

/// Lines, with a letter for what each says and its last number: of a list of nodes how many there
/// are, of a request its class's id.
static LINES: [(&str, u8, u64); 18] = [
    ("", b'-', 0),
    (" \t ", b'-', 0),
    ("# show 1", b'-', 0),
    ("map", b'm', 0),
    ("map 0", b'm', 1),
    ("map 2\t1  0", b'm', 3),
    ("see 2 7", b'v', 7),
    ("deliver 12", b'd', 12),
    ("show 15", b's', 15),
    ("stop 0", b'x', 0),
    ("go 10", b'g', 10),
    ("resend 3", b'r', 3),
    ("show 18446744073709551615", b's', 18446744073709551615),
    // a number above 2^64 - 1 counts as that
    ("show 18446744073709551616", b's', 18446744073709551615),
    ("req 1 2 3 a lock get -", b'a', 0),
    ("req 1 2 3 a obj get 0aFf", b'a', 1),
    // no class of that name
    ("req 1 2 3 a Obj get -", b'a', 64),
    ("req 1 2 3 a obj get 0", b'!', 0),
];

fn is_node(letter: u8, node: NodeId, line: (u8, u64)) -> bool {
    line.0 == letter && line.1 == node.get()
}

fn is_class(request: &Request, line: (u8, u64)) -> bool {
    line.0 == b'a' && line.1 == request.class() as u64
}

/// True if a line says what that letter and number tell.
fn is_said(said: &Line, line: (u8, u64)) -> bool {
    match said {
        Line::Empty => line.0 == b'-',
        Line::Bad => line.0 == b'!',
        Line::Map(nodes) => line.0 == b'm' && line.1 == nodes.items().len() as u64,
        Line::See(_, epoch) => line.0 == b'v' && line.1 == *epoch,
        Line::Deliver(number) => line.0 == b'd' && line.1 == *number,
        Line::Show(node) => is_node(b's', *node, line),
        Line::Stop(node) => is_node(b'x', *node, line),
        Line::Go(node) => is_node(b'g', *node, line),
        Line::Resend(node) => is_node(b'r', *node, line),
        Line::Ask(_, request) => is_class(request, line),
    }
}

#[test]
fn lines_say(rt: HostRuntime) {
    for (text, letter, number) in &LINES {
        let said = read_line(rt.alloc(), &["lock", "obj"], text).expect(&rt, "memory");
        assert!(rt; is_said(&said, (*letter, *number)), "{text}");
    }
}

#[test]
fn lines_stand_between_line_feeds(rt: HostRuntime) {
    let text = lines(rt.alloc(), "show 1\n\n").expect(&rt, "memory");
    assert!(rt; text.len() == 3 && text[0] == "show 1" && text[2] == "");
}

/// Numbers, and which of 7 and 8 has each: 0 for none.
static NUMBERED: [(u64, u8); 5] = [(0, 0), (3, 0), (1, 7), (2, 8), (u64::MAX, 0)];

/// True if of 7 and 8 that one has the number, or none if it is 0.
fn has(number: u64, want: u8) -> bool {
    match numbered(&[7u8, 8], number) {
        None => want == 0,
        Some(found) => *found == want,
    }
}

#[test]
fn numbers_begin_with_1(rt: HostRuntime) {
    for (number, want) in &NUMBERED {
        assert!(rt; has(*number, *want));
    }
}
