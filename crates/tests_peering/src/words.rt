//! The words of a line, nodes of a text, and checks that a line names.
use placement::NodeId;
use std::alloc::Global;
use std::process::Abort;

/// Asserts that a line of a text is right, and names the line or the word if it is not.
pub(crate) fn see<R: Abort>(rt: &R, is_right: bool, line: &str) {
    assert!(rt; is_right, "{line}");
}

/// The number that a word says.
pub(crate) fn number_of<R: Abort>(rt: &R, word: &str) -> u64 {
    word.parse::<u64>().expect(rt, "a number")
}

/// The nodes of the numbers of a text.
pub(crate) fn nodes<R: Abort>(rt: &R, alloc: Global, text: &str) -> Vec<NodeId> {
    let mut nodes = Vec::new(alloc);
    for word in text.split_whitespace() {
        nodes
            .push(NodeId::new(number_of(rt, word)))
            .expect(rt, "memory");
    }
    nodes
}

/// The two parts of a text, before and after the first mark, trimmed. Without a mark, the second is
/// empty.
pub(crate) fn halves(text: &str, mark: char) -> (&str, &str) {
    let (before, behind) = text.split_once(mark).unwrap_or((text, ""));
    (before.trim(), behind.trim())
}
