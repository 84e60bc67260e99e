//! Lines and words of a text.
ghost use Rattle.std.specs.Prelude.{◌≡◌, ◌++◌, ◌==◌, not, length, map, IfOk, OnOk};
ghost use Rattle.std.specs.List.{slice_split, filter};
ghost use Rattle.file_words.specs.Words.{words, words_in, lines_of, ended_lines_of, without_empty_end, ends_empty};

use std::alloc::{AllocError, Global};

/// The lines of a text, separated by line feeds, so that the last one may be empty. It fails only
/// if memory is refused.
pub fn lines(alloc: Global, text: &str) -> Result<Vec<&str>, AllocError>
    ensures { IfOk result (λ v. map (λ l. l.now) v.items ≡ lines_of text.now) }
{
    text.split('\n').collect(alloc)
}

/// True if there are two lines or more, and the last is empty.
fn ends_empty(lines: &[&str]) -> bool
    ensures { result ≡ ends_empty (map (λ l. l.now) lines.now) }
{
    match lines.last() {
        Some(last) => lines.len() > 1 && last.is_empty(),
        None => false,
    }
}

/// Leaves out an empty last line after others.
fn drop_empty_end(lines: &mut Vec<&str>)
    ensures { map (λ l. l.now) lines.new.items ≡ without_empty_end (map (λ l. l.now) lines.old.items) }
{
    if ends_empty(lines) {
        lines.pop();
    }
}

/// The lines of a text, each ended by a line feed except that the last may go without: a line feed
/// at the end of the text begins no further line. It fails only if memory is refused.
pub fn ended_lines(alloc: Global, text: &str) -> Result<Vec<&str>, AllocError>
    ensures { IfOk result (λ v. map (λ l. l.now) v.items ≡ ended_lines_of text.now) }
{
    let mut lines = lines(alloc, text)?;
    drop_empty_end(&mut lines);
    Ok(lines)
}

/// The parts of a text between tabs.
fn at_tabs(alloc: Global, text: &str) -> Result<Vec<&str>, AllocError>
    ensures { IfOk result (λ v. map (λ l. l.now) v.items ≡ slice_split (λ b. b == 9) text.now) }
{
    text.split('\t').collect(alloc)
}

/// The parts of a text between spaces.
fn at_spaces(alloc: Global, text: &str) -> Result<Vec<&str>, AllocError>
    ensures { IfOk result (λ v. map (λ l. l.now) v.items ≡ slice_split (λ b. b == 32) text.now) }
{
    text.split(' ').collect(alloc)
}

/// Adds the pieces that aren't empty.
fn push_words<'a>(words: &mut Vec<&'a str>, pieces: &[&'a str]) -> Result<(), AllocError>
    ensures { OnOk result (map (λ w. w.now) words.new.items ≡ map (λ w. w.now) words.old.items ++
        filter (λ w. not (length w == 0)) (map (λ w. w.now) pieces.now)) }
{
    for piece in pieces {
        if !piece.is_empty() {
            words.push(*piece)?;
        }
    }
    Ok(())
}

/// Adds the words between tabs.
fn push_words_in<'a>(
    alloc: Global,
    words: &mut Vec<&'a str>,
    piece: &'a str,
) -> Result<(), AllocError>
    ensures { OnOk result (map (λ w. w.now) words.new.items ≡ map (λ w. w.now) words.old.items ++ words_in piece.now) }
{
    let parts = at_tabs(alloc, piece)?;
    push_words(words, &parts)
}

/// The words of a line, separated by spaces and tabs. It fails only if memory is refused.
pub fn words(alloc: Global, line: &str) -> Result<Vec<&str>, AllocError>
    ensures { IfOk result (λ v. map (λ w. w.now) v.items ≡ words line.now) }
{
    let pieces = at_spaces(alloc, line)?;
    let mut words = Vec::new(alloc);
    for piece in &pieces {
        push_words_in(alloc, &mut words, *piece)?;
    }
    Ok(words)
}
