ghost use Rattle.std.specs.Prelude.{◌≡◌, ◌==◌, ◌∷◌, IfOk, map, slice_index};
ghost use Rattle.std.specs.Option.{option_map};
ghost use Rattle.file_words.specs.Words.{numbers_in};
ghost use Rattle.sim_world.specs.Lines.{line_of, says, or_bad, of_one, one_in, two_in};

use crate::request::asks;
use file_words::{Nodes, nodes_in, number_in, words};
use pg_log::Request;
use placement::NodeId;
use std::alloc::{AllocError, Global};

/// A line's event or question. Maps and messages go by their numbers from 1.
#[derive(Drop)]
pub enum Line {
    /// Nothing, or a comment.
    Empty,
    /// The monitor makes a map of that acting list.
    Map(Nodes),
    /// A node learns the map of that epoch.
    See(NodeId, u64),
    /// A client's request comes to a node.
    Ask(NodeId, Request),
    /// A message is delivered.
    Deliver(u64),
    /// Show the node's state.
    Show(NodeId),
    /// The node stops.
    Stop(NodeId),
    /// It goes on.
    Go(NodeId),
    /// It sends again what is unanswered.
    Resend(NodeId),
    /// None of these.
    Bad,
}

/// One number.
fn one_in(args: &[&str]) -> Option<u64>
    ensures { result ≡ one_in (map (λ w. w.now) args.now) }
{
    match args {
        [a] => number_in(a),
        _ => None,
    }
}

/// Two numbers.
fn two_in(args: &[&str]) -> Option<(u64, u64)>
    ensures { result ≡ two_in (map (λ w. w.now) args.now) }
{
    match args {
        [a, b] => {
            let first = number_in(a)?;
            let second = number_in(b)?;
            Some((first, second))
        }
        _ => None,
    }
}

/// A word with one number.
fn of_one(word: &str, number: u64) -> Line
    ensures { result ≡ of_one word.now number }
{
    let node = NodeId::new(number);
    if word == "deliver" {
        Line::Deliver(number)
    } else if word == "show" {
        Line::Show(node)
    } else if word == "stop" {
        Line::Stop(node)
    } else if word == "go" {
        Line::Go(node)
    } else if word == "resend" {
        Line::Resend(node)
    } else {
        Line::Bad
    }
}

/// The line of `map` with these words.
fn map_of(alloc: Global, args: &[&str]) -> Result<Line, AllocError>
    ensures { IfOk result (λ l. l ≡ or_bad (option_map Line.Map (numbers_in (map (λ w. w.now) args.now)))) }
{
    match nodes_in(alloc, args)? {
        Some(nodes) => Ok(Line::Map(nodes)),
        None => Ok(Line::Bad),
    }
}

/// The line of `see` with these words.
fn see_of(args: &[&str]) -> Line
    ensures { result ≡ or_bad (option_map (λ p. Line.See p.0 p.1) (two_in (map (λ w. w.now) args.now))) }
{
    match two_in(args) {
        Some((node, epoch)) => Line::See(NodeId::new(node), epoch),
        None => Line::Bad,
    }
}

/// The line of another word with these words.
fn other_of(word: &str, args: &[&str]) -> Line
    ensures { result ≡ or_bad (option_map (of_one word.now) (one_in (map (λ w. w.now) args.now))) }
{
    match one_in(args) {
        Some(number) => of_one(word, number),
        None => Line::Bad,
    }
}

/// The line of a first word with those after it.
fn with_args(alloc: Global, names: &[&str], word: &str, args: &[&str]) -> Result<Line, AllocError>
    ensures { IfOk result (λ l. l ≡ says (map (λ n. n.now) names.now) (word.now ∷ map (λ w. w.now) args.now)) }
{
    if word == "map" {
        map_of(alloc, args)
    } else if word == "see" {
        Ok(see_of(args))
    } else if word == "req" {
        asks(alloc, names, args)
    } else {
        Ok(other_of(word, args))
    }
}

/// The line that words spell.
fn says(alloc: Global, names: &[&str], words: &[&str]) -> Result<Line, AllocError>
    ensures { IfOk result (λ l. l ≡ says (map (λ n. n.now) names.now) (map (λ w. w.now) words.now)) }
{
    match words {
        [] => Ok(Line::Empty),
        [word, args @ ..] => with_args(alloc, names, word, args),
    }
}

/// Reads a line. The classes go by these names, the one of id 0 first. A malformed line is `Bad`,
/// no error: it fails for want of memory alone.
pub fn read_line(alloc: Global, names: &[&str], line: &str) -> Result<Line, AllocError>
    ensures { IfOk result (λ l. l ≡ line_of (map (λ n. n.now) names.now) line.now) }
{
    if is_comment(line.as_bytes()) {
        return Ok(Line::Empty);
    }
    let words = words(alloc, line)?;
    says(alloc, names, &words)
}

/// True if it begins with `#`.
fn is_comment(line: &[u8]) -> bool
    ensures { result ≡ (slice_index line.now 0 == 35) }
{
    match line {
        [first, ..] => *first == b'#',
        [] => false,
    }
}
