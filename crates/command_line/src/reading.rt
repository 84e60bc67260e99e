//! From words to what they say, by `clap`; or to usage or help.

ghost use Rattle.std.specs.Prelude.{◌≡◌, Some, None, IfErr, IfNone, IfOk, IfSome, map};
ghost use Rattle.clap.specs.Words.{app_of, subcommand_rows_of};
ghost use Rattle.command_line.specs.CommandLine.{command_line};
ghost use Rattle.command_line.specs.Parsed.{IsMemory, IsNoParse, IsParse, parsed_of};

use crate::commands::{command_named, root_command};
use crate::parsed::ParsedWords;
use crate::unparsed::Unparsed;
use clap::error::ErrorKind;
use clap::{ArgMatches, Command};
use std::alloc::{AllocError, Global};
use std::convert::AsStr;

/// The subcommand that was entered, and its arguments' texts.
fn entered<'a>(matches: ArgMatches<'a>) -> Option<ParsedWords<'a>>
    ensures some { IfSome result (λ p. subcommand_rows_of matches.entry ≡ Some (
      (parsed_of p).name,
      (parsed_of p).rows,
    )) }
    ensures none { IfNone result (subcommand_rows_of matches.entry ≡ None) }
{
    let mut matches = matches;
    let (name, values) = matches.remove_subcommand()?;
    Some(ParsedWords { name, values })
}

/// An error in the form of those of `clap`, with a command's usage.
fn told(command: &mut Command<'_>, message: &str) -> Unparsed {
    match command.error(ErrorKind::ValueValidation, message) {
        Ok(error) => Unparsed::new(error),
        Err(error) => Unparsed::from(error),
    }
}

/// Parses words by this command.
fn parse_by<'a, S: AsStr>(
    command: &mut Command<'a>,
    words: &'a [S],
) -> Result<ParsedWords<'a>, Unparsed>
    requires { app_of command.now ≡ command_line }
    ensures parsed { IfOk result (λ p. IsParse (map S.text words.entry.now) (parsed_of p)) }
    ensures unparsed { IfErr result (λ e. (IsMemory e → ⊥) → IsNoParse (map S.text words.entry.now)) }
{
    match command.try_get_matches_from_mut(words) {
        Ok(matches) => match entered(matches) {
            Some(parsed) => Ok(parsed),
            // `plain_command` requires a subcommand, so `clap` itself refuses words without one.
            None => Err(told(command, "a subcommand is wanted")),
        },
        Err(error) => Err(Unparsed::new(error)),
    }
}

/// Parses the words of `radoscls`. The first is the program's own name.
pub fn parse<'a, S: AsStr>(alloc: Global, words: &'a [S]) -> Result<ParsedWords<'a>, Unparsed>
    ensures parsed { IfOk result (λ p. IsParse (map S.text words.entry.now) (parsed_of p)) }
    ensures unparsed { IfErr result (λ e. (IsMemory e → ⊥) → IsNoParse (map S.text words.entry.now)) }
{
    let mut command = root_command(alloc)?;
    let parsed = parse_by(&mut command, words);
    drop(command);
    parsed
}

/// The refusal, by the program's own rules, of words that have a parse: this message, and the usage
/// of the subcommand of this name.
pub fn misused(alloc: Global, name: &str, message: &str) -> Unparsed {
    match command_with_usage(alloc, name) {
        Ok(mut command) => {
            let unparsed = told(&mut command, message);
            drop(command);
            unparsed
        }
        Err(error) => Unparsed::from(error),
    }
}

/// The subcommand of this name, with a usage that begins with both words.
fn command_with_usage<'a>(alloc: Global, name: &str) -> Result<Command<'a>, AllocError> {
    let words = format!(in alloc; "radoscls {name}")?;
    // Built alone, the subcommand doesn't know the name of the program.
    command_named(alloc, name)?.bin_name(&words)
}
