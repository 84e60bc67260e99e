//! The forms of lines.

/// What a word of a line stands for.
#[derive(Clone, Copy)]
pub(crate) enum Part {
    /// A node that is there.
    Node,
    /// The number of a node, which the monitor may refuse.
    AnyNode,
    /// A map that was made.
    Map,
    /// A message that was sent.
    Message,
    /// A client, or a request's number.
    Id,
    /// An object's name.
    Object,
    /// A word that may be any, as a class's or a method's.
    Any,
    /// Bytes in hexadecimal.
    Bytes,
}

/// The form of the lines that begin with a word.
#[derive(Clone, Copy)]
pub(crate) struct LineForm {
    /// The first word.
    pub(crate) word: &'static str,
    /// The whole form, as the page spells it.
    pub(crate) form: &'static str,
    /// What the words after the first stand for.
    pub(crate) parts: &'static [Part],
    /// The last of them may be left out, or stand more than once.
    pub(crate) repeats: bool,
}

/// The forms of lines, of which each begins with a word of its own.
#[rattlefmt::skip]
pub(crate) const FORMS: [LineForm; 8] = [
    LineForm { word: "map", form: "map N ..", parts: &[Part::AnyNode], repeats: true },
    LineForm { word: "see", form: "see N E", parts: &[Part::Node, Part::Map], repeats: false },
    LineForm { word: "req", form: "req N CLIENT NUMBER OBJECT CLASS METHOD HEX",
        parts: &[Part::Node, Part::Id, Part::Id, Part::Object, Part::Any, Part::Any, Part::Bytes], repeats: false },
    LineForm { word: "deliver", form: "deliver M", parts: &[Part::Message], repeats: false },
    LineForm { word: "stop", form: "stop N", parts: &[Part::Node], repeats: false },
    LineForm { word: "go", form: "go N", parts: &[Part::Node], repeats: false },
    LineForm { word: "resend", form: "resend N", parts: &[Part::Node], repeats: false },
    LineForm { word: "show", form: "show N", parts: &[Part::Node], repeats: false },
];

/// The form of the lines that begin with that word, if there is one.
pub(crate) fn form_of(word: &str) -> Option<LineForm> {
    for form in &FORMS {
        if form.word == word {
            return Some(*form);
        }
    }
    None
}
