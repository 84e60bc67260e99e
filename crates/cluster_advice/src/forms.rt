//! The forms of lines.

/// The numbers that a word may spell.
#[derive(Clone, Copy)]
pub(crate) enum Range {
    /// From one to the other.
    Between(u64, u64),
    /// The powers of two from 1 to that one.
    Powers(u64),
    /// The clients that are named above a line, and the next one, from 1 to that one.
    Clients(u64),
}

/// What a word of a line stands for.
#[derive(Clone, Copy)]
pub(crate) enum Part {
    /// That word itself.
    Key(&'static str),
    /// A number of that name. Outside of the range it is refused, and the line isn't bad.
    Number(&'static str, Range),
    /// A client.
    Client,
    /// A node that is up. A number that isn't a node's is refused, and the line isn't bad.
    Node,
    /// An object's name.
    Object,
    /// A word that may be any, as a class's or a method's.
    Any,
    /// Bytes in hexadecimal.
    Bytes,
}

/// The form of the lines that begin with a word.
#[derive(Clone, Copy)]
pub(crate) struct LineForm {
    /// The first word.
    pub(crate) word: &'static str,
    /// The whole form, as the page spells it.
    pub(crate) form: &'static str,
    /// What the words after the first stand for.
    pub(crate) parts: &'static [Part],
    /// The last of them may be left out, or stand more than once.
    pub(crate) repeats: bool,
}

/// The form of the first line.
#[rattlefmt::skip]
pub(crate) const FIRST: [LineForm; 1] = [
    LineForm { word: "cluster", form: "cluster nodes N replicas N groups N shards N workers N tries N",
        parts: &[
            Part::Key("nodes"), Part::Number("nodes", Range::Between(1, 16)),
            Part::Key("replicas"), Part::Number("replicas", Range::Between(1, 3)),
            Part::Key("groups"), Part::Number("groups", Range::Powers(64)),
            Part::Key("shards"), Part::Number("shards", Range::Between(1, 64)),
            Part::Key("workers"), Part::Number("workers", Range::Between(1, 16)),
            Part::Key("tries"), Part::Number("tries", Range::Between(1, 4_294_967_295)),
        ], repeats: false },
];

/// The forms of the further lines, of which each begins with a word of its own.
#[rattlefmt::skip]
pub(crate) const FURTHER: [LineForm; 2] = [
    LineForm { word: "client", form: "client C OBJECT CLASS METHOD HEX",
        parts: &[Part::Client, Part::Object, Part::Any, Part::Any, Part::Bytes], repeats: false },
    LineForm { word: "map", form: "map N ..", parts: &[Part::Node], repeats: true },
];

/// The forms that the first line may have, or a further one.
pub(crate) fn forms_of(is_first: bool) -> &'static [LineForm] {
    if is_first { &FIRST } else { &FURTHER }
}

/// The form of the lines that begin with that word, if there is one.
pub(crate) fn form_of(is_first: bool, word: &str) -> Option<LineForm> {
    for form in forms_of(is_first) {
        if form.word == word {
            return Some(*form);
        }
    }
    None
}
