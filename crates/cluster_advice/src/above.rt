//! What the lines above a line say, as far as it matters there.

use file_words::{id_in, number_in, words};
use std::alloc::{AllocError, Global};

/// What is known above a line.
#[derive(Clone, Copy)]
pub(crate) struct Above {
    /// True if the line is the first.
    pub(crate) is_first: bool,
    /// The number of nodes that the first line names; 0 if it names none.
    pub(crate) nodes: u64,
    /// The number of clients that the lines above it name.
    pub(crate) clients: u64,
}

/// The number of nodes that the words of the first line name.
fn nodes_of(words: &[&str]) -> u64 {
    match words.get(2) {
        Some(word) => number_in(word).unwrap_or(0),
        None => 0,
    }
}

/// The client of a line with these words; 0 if it is none's.
fn client_of(words: &[&str]) -> u64 {
    match words {
        [word, client, ..] if *word == "client" => u64::from(id_in(client).unwrap_or(0)),
        _ => 0,
    }
}

/// What these lines say of the one below them.
pub(crate) fn above_of(alloc: Global, lines: &[&str]) -> Result<Above, AllocError> {
    let (mut nodes, mut clients) = (0, 0);
    for (at, line) in lines.iter().enumerate() {
        let words = words(alloc, line)?;
        if at == 0 {
            nodes = nodes_of(&words);
        } else {
            clients = client_of(&words).max(clients);
        }
    }
    Ok(Above {
        is_first: lines.is_empty(),
        nodes,
        clients,
    })
}
