//! The forms of arguments, and commands of several.
ghost use Rattle.std.specs.Prelude.{◌≡◌, IfOk, Ok, false};
ghost use Rattle.clap.specs.declared.builder.command.Command.{Command as ACommand};
ghost use Rattle.clap.specs.declared.builder.command.Command.TheViews.{out-Command};
ghost use Rattle.clap.specs.Words.{AddsArg, AddsSubcommand, app_of, new_app, rule_of, with_rule};
ghost use Rattle.command_line.specs.CommandLine.{each_rule, flag_rule, many_rule, option_rule};
ghost use Rattle.command_line.specs.CommandLine.{required_rule, value_rule};

use clap::{Arg, ArgAction, Command};
use std::alloc::{AllocError, Global};

/// An argument that has to be there, by its place.
pub(crate) fn required<'a>(alloc: Global, id: &'a str, help: &'a str) -> Arg<'a>
    ensures rule { rule_of result ≡ required_rule id.entry.now }
    ensures local { result.global ≡ false }
{
    Arg::new(alloc, id).required(true).help(help)
}

/// An argument that has to be there, by its place, once or more often.
pub(crate) fn many<'a>(alloc: Global, id: &'a str, help: &'a str) -> Arg<'a>
    ensures rule { rule_of result ≡ many_rule id.entry.now }
    ensures local { result.global ≡ false }
{
    required(alloc, id, help).num_args(1..)
}

/// An option with one value.
pub(crate) fn option<'a>(
    alloc: Global,
    id: &'a str,
    value: &'a str,
    default: &'a str,
    help: &'a str,
) -> Arg<'a>
    ensures rule { rule_of result ≡ option_rule id.entry.now default.entry.now }
    ensures local { result.global ≡ false }
{
    Arg::new(alloc, id)
        .long(id)
        .value_name(value)
        .default_value(default)
        .help(help)
}

/// An option with one value, and no default.
pub(crate) fn value<'a>(alloc: Global, id: &'a str, value: &'a str, help: &'a str) -> Arg<'a>
    ensures rule { rule_of result ≡ value_rule id.entry.now }
    ensures local { result.global ≡ false }
{
    Arg::new(alloc, id).long(id).value_name(value).help(help)
}

/// An option that may be given more than once, each time with one value.
pub(crate) fn each<'a>(alloc: Global, id: &'a str, value: &'a str, help: &'a str) -> Arg<'a>
    ensures rule { rule_of result ≡ each_rule id.entry.now }
    ensures local { result.global ≡ false }
{
    Arg::new(alloc, id)
        .long(id)
        .value_name(value)
        .action(ArgAction::Append)
        .help(help)
}

/// A flag.
pub(crate) fn flag<'a>(alloc: Global, id: &'a str, help: &'a str) -> Arg<'a>
    ensures rule { rule_of result ≡ flag_rule id.entry.now }
    ensures local { result.global ≡ false }
{
    Arg::new(alloc, id)
        .long(id)
        .action(ArgAction::SetTrue)
        .help(help)
}

/// A subcommand's name, and the first and the last part of its help.
#[derive(Clone, Copy)]
pub(crate) struct Heading<'a> {
    pub(crate) name: &'a str,
    pub(crate) about: &'a str,
    pub(crate) examples: &'a str,
}

/// A subcommand that takes a file, by its place.
pub(crate) fn file_command<'a>(
    alloc: Global,
    heading: Heading<'a>,
    id: &'a str,
    help: &'a str,
) -> Result<Command<'a>, AllocError>
    ensures line { IfOk result (λ c. app_of c ≡
        with_rule (new_app heading.entry.name.now) (required_rule id.entry.now)) }
    ensures local { IfOk result (λ c. (out-Command c).has_globals ≡ false) }
{
    Command::new(alloc, heading.name)
        .about(heading.about)
        .after_help(heading.examples)
        .arg(required(alloc, id, help))
}

/// A subcommand that takes files, one or more, by their place.
pub(crate) fn files_command<'a>(
    alloc: Global,
    heading: Heading<'a>,
    id: &'a str,
    help: &'a str,
) -> Result<Command<'a>, AllocError>
    ensures line { IfOk result (λ c. app_of c ≡ with_rule (new_app heading.entry.name.now) (many_rule id.entry.now)) }
    ensures local { IfOk result (λ c. (out-Command c).has_globals ≡ false) }
{
    Command::new(alloc, heading.name)
        .about(heading.about)
        .after_help(heading.examples)
        .arg(many(alloc, id, help))
}

/// A command with one more argument, if there is the command.
pub(crate) fn with_arg<'a>(
    command: Result<Command<'a>, AllocError>,
    arg: Arg<'a>,
) -> Result<Command<'a>, AllocError>
    ensures { IfOk result (λ new. (old : ACommand) × (command.entry ≡ Ok old) × AddsArg old arg.entry new) }
{
    match command {
        Ok(command) => command.arg(arg),
        Err(error) => {
            drop(arg);
            Err(error)
        }
    }
}

/// A command with one more subcommand, if there are both.
pub(crate) fn with_subcommand<'a>(
    command: Result<Command<'a>, AllocError>,
    subcommand: Result<Command<'a>, AllocError>,
) -> Result<Command<'a>, AllocError>
    ensures { IfOk result (λ new. (old : ACommand) × (sub : ACommand) × (command.entry ≡ Ok old) ×
        (subcommand.entry ≡ Ok sub) × AddsSubcommand old sub new) }
{
    match subcommand {
        Ok(subcommand) => match command {
            Ok(command) => command.subcommand(subcommand),
            Err(error) => {
                drop(subcommand);
                Err(error)
            }
        },
        Err(error) => {
            drop(command);
            Err(error)
        }
    }
}
