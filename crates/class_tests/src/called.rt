//! The call that a line of tests makes.
ghost use Rattle.std.specs.Prelude.{◌≡◌, IfNone, IfOk, IfSome, None, Some, map, option_map};
ghost use Rattle.class_tests.specs.Tests.{call_at, call_in, line_at};

use crate::spelled::value_in;
use crate::test_bytes::TestBytes;
use file_words::{ended_lines, words};
use std::alloc::{AllocError, Global};

/// The line of a number from 1, if there is one.
fn line_at<'a>(lines: &[&'a str], number: usize) -> Option<&'a str>
    ensures { option_map (λ l. l.now) result ≡ line_at (map (λ l. l.now) lines.now) number }
{
    if number == 0 {
        return None;
    }
    match lines.get(number - 1) {
        Some(line) => Some(*line),
        None => None,
    }
}

/// The method and the input that a call's words name.
fn call_in<'a>(alloc: Global, words: &[&'a str]) -> Result<Option<(&'a str, TestBytes)>, AllocError>
    ensures some { IfOk result (λ found. IfSome found (λ c.
        call_in (map (λ w. w.now) words.now) ≡ Some (c.0.now, c.1))) }
    ensures none { IfOk result (λ found. IfNone found (call_in (map (λ w. w.now) words.now) ≡ None)) }
{
    match words {
        [word, method, input, ..] => {
            if *word != "call" {
                return Ok(None);
            }
            match value_in(alloc, *input)? {
                Some(input) => Ok(Some((*method, input))),
                None => Ok(None),
            }
        }
        _ => Ok(None),
    }
}

/// The method's name and the input of the call in a line of tests, by the line's number from 1;
/// `None` if there is no such line, or if it makes no call or spells no input. It fails for want of
/// memory alone.
pub fn call_at<'a>(
    alloc: Global,
    text: &'a str,
    number: usize,
) -> Result<Option<(&'a str, TestBytes)>, AllocError>
    ensures some { IfOk result (λ found. IfSome found (λ c. call_at text.now number ≡ Some (c.0.now, c.1))) }
    ensures none { IfOk result (λ found. IfNone found (call_at text.now number ≡ None)) }
{
    let lines = ended_lines(alloc, text)?;
    match line_at(&lines, number) {
        Some(line) => call_in(alloc, &words(alloc, line)?),
        None => Ok(None),
    }
}
