//! The subcommands.
ghost use Rattle.std.specs.Prelude.{◌≡◌, IfOk, false};
ghost use Rattle.clap.specs.declared.builder.command.Command.TheViews.{out-Command};
ghost use Rattle.clap.specs.Words.{app_of, rule_of};
ghost use Rattle.command_line.specs.CommandLine.{asm_line, call_line, class_rule, cluster_line, command_line, dis_line};
ghost use Rattle.command_line.specs.CommandLine.{explain_rule, given_budget_rule, heads_line, heads_rule, image_line};
ghost use Rattle.command_line.specs.CommandLine.{json_rule, limits_line};
ghost use Rattle.command_line.specs.CommandLine.{methods_rule, object_line, pack_line};
ghost use Rattle.command_line.specs.CommandLine.{plain_call_line, plain_line, run_line, sim_line, test_line};
ghost use Rattle.command_line.specs.CommandLine.{verify_line};

use crate::forms::{
    Heading, each, file_command, files_command, flag, many, option, required, value, with_arg,
    with_subcommand,
};
use crate::help;
use clap::{Arg, Command};
use std::alloc::{AllocError, Global};

/// The flag that has a failure explained.
fn explain_flag<'a>(alloc: Global) -> Arg<'a>
    ensures rule { rule_of result ≡ explain_rule }
    ensures local { result.global ≡ false }
{
    let help = "Says more of a failure, in lines below its own";
    flag(alloc, "explain", help)
}

/// The flag that has what is printed in JSON.
fn json_flag<'a>(alloc: Global) -> Arg<'a>
    ensures rule { rule_of result ≡ json_rule }
    ensures local { result.global ≡ false }
{
    flag(alloc, "json", "Prints JSON, an object a line")
}

fn verify_command<'a>(alloc: Global) -> Result<Command<'a>, AllocError>
    ensures line { IfOk result (λ c. app_of c ≡ verify_line) }
    ensures local { IfOk result (λ c. (out-Command c).has_globals ≡ false) }
{
    let heading = Heading {
        name: "verify",
        about: "Tells whether the methods of a class are safe",
        examples: help::VERIFY,
    };
    let help = "The files of classes, images or texts, or folders of them, each judged";
    let of_images = files_command(alloc, heading, "IN", help);
    let all = flag(alloc, "all", help::ALL);
    let loops = flag(alloc, "loops", help::LOOPS);
    let of_verdicts = with_arg(with_arg(of_images, all), loops);
    with_arg(with_arg(of_verdicts, json_flag(alloc)), explain_flag(alloc))
}

/// The subcommand of a call, without its input and the object.
fn plain_call_command<'a>(alloc: Global) -> Result<Command<'a>, AllocError>
    ensures line { IfOk result (λ c. app_of c ≡ plain_call_line) }
    ensures local { IfOk result (λ c. (out-Command c).has_globals ≡ false) }
{
    let heading = Heading {
        name: "run",
        about: "Runs a method of a class beside an object",
        examples: help::RUN,
    };
    let of_image = file_command(
        alloc,
        heading,
        "IN",
        "The file of the class: its image or text",
    );
    let method = required(alloc, "METHOD", "The name of the method");
    let help = "The number of the client that calls, 1 to 4294967295";
    let caller = option(alloc, "caller", "N", "1", help);
    with_arg(with_arg(of_image, method), caller)
}

/// The subcommand of a call, without the object.
fn call_command<'a>(alloc: Global) -> Result<Command<'a>, AllocError>
    ensures line { IfOk result (λ c. app_of c ≡ call_line) }
    ensures local { IfOk result (λ c. (out-Command c).has_globals ≡ false) }
{
    let of_call = plain_call_command(alloc);
    let help = "The input: hexadecimal, - for none, or @FILE for the bytes of a file";
    let input = value(alloc, "input", "HEX", help);
    let text = value(alloc, "input-text", "TEXT", help::INPUT_TEXT);
    let numbers = value(alloc, "input-u64", "N,..", help::INPUT_U64);
    with_arg(with_arg(with_arg(of_call, input), text), numbers)
}

/// The subcommand of a call on an object that words spell.
fn object_command<'a>(alloc: Global) -> Result<Command<'a>, AllocError>
    ensures line { IfOk result (λ c. app_of c ≡ object_line) }
    ensures local { IfOk result (λ c. (out-Command c).has_globals ≡ false) }
{
    let of_call = call_command(alloc);
    let help = "The object's data, as the input; without it, xattrs and keys there is none";
    let object = value(alloc, "object", "HEX", help);
    let help = "An xattr of the object; NAME may be 0x.., and the value as the input";
    let xattr = each(alloc, "xattr", "NAME=HEX", help);
    let help = "A key of the object's omap; KEY may be 0x.., and the value as the input";
    let key = each(alloc, "key", "KEY=HEX", help);
    with_arg(with_arg(with_arg(of_call, object), xattr), key)
}

/// The subcommand of a call, by limits or by loops.
fn limits_command<'a>(alloc: Global) -> Result<Command<'a>, AllocError>
    ensures line { IfOk result (λ c. app_of c ≡ limits_line) }
    ensures local { IfOk result (λ c. (out-Command c).has_globals ≡ false) }
{
    let of_object = object_command(alloc);
    let limits = option(alloc, "limits", "LIMITS", "profile", help::LIMITS);
    let loops = flag(alloc, "loops", help::RUN_LOOPS);
    with_arg(with_arg(of_object, limits), loops)
}

fn run_command<'a>(alloc: Global) -> Result<Command<'a>, AllocError>
    ensures line { IfOk result (λ c. app_of c ≡ run_line) }
    ensures local { IfOk result (λ c. (out-Command c).has_globals ≡ false) }
{
    let of_object = limits_command(alloc);
    let load = value(alloc, "load", "FILE", help::LOAD);
    let save = value(alloc, "save", "FILE", help::SAVE);
    let show = flag(alloc, "show", "Prints all that the object holds afterwards");
    let trace = flag(
        alloc,
        "trace",
        "Prints first each executed instruction, and what it changed",
    );
    let of_files = with_arg(with_arg(of_object, load), save);
    let of_lines = with_arg(with_arg(of_files, show), trace);
    with_arg(with_arg(of_lines, json_flag(alloc)), explain_flag(alloc))
}

fn test_command<'a>(alloc: Global) -> Result<Command<'a>, AllocError>
    ensures line { IfOk result (λ c. app_of c ≡ test_line) }
    ensures local { IfOk result (λ c. (out-Command c).has_globals ≡ false) }
{
    let heading = Heading {
        name: "test",
        about: "Runs the tests of a class",
        examples: help::TEST,
    };
    let of_image = file_command(
        alloc,
        heading,
        "IN",
        "The file of the class: its image or text",
    );
    let of_tests = with_arg(of_image, required(alloc, "FILE", help::TEST_FILE));
    let trace = flag(alloc, "trace", help::TEST_TRACE);
    let loops = flag(alloc, "loops", help::RUN_LOOPS);
    let of_calls = with_arg(with_arg(of_tests, trace), loops);
    with_arg(of_calls, explain_flag(alloc))
}

/// The flag that has heads of loops found.
fn heads_flag<'a>(alloc: Global) -> Arg<'a>
    ensures rule { rule_of result ≡ heads_rule }
    ensures local { result.global ≡ false }
{
    flag(alloc, "heads", help::FIND_HEADS)
}

/// What a call of a method that gets heads by that flag may take.
fn budget_value<'a>(alloc: Global) -> Arg<'a>
    ensures rule { rule_of result ≡ given_budget_rule }
    ensures local { result.global ≡ false }
{
    value(alloc, "budget", "N", help::GIVEN_BUDGET)
}

fn asm_command<'a>(alloc: Global) -> Result<Command<'a>, AllocError>
    ensures line { IfOk result (λ c. app_of c ≡ asm_line) }
    ensures local { IfOk result (λ c. (out-Command c).has_globals ≡ false) }
{
    let heading = Heading {
        name: "asm",
        about: "Writes the image of a class from its text",
        examples: help::ASM,
    };
    let of_text = file_command(alloc, heading, "IN", "The file of the text");
    let image = required(alloc, "OUT", "The file of the image");
    let all = flag(alloc, "all", help::ALL_LINES);
    let of_image = with_arg(with_arg(of_text, image), all);
    let of_heads = with_arg(with_arg(of_image, heads_flag(alloc)), budget_value(alloc));
    with_arg(of_heads, explain_flag(alloc))
}

/// The methods that are packed, one or more.
fn methods_argument<'a>(alloc: Global) -> Arg<'a>
    ensures rule { rule_of result ≡ methods_rule }
    ensures local { result.global ≡ false }
{
    let help = "A method: NAME:FLAGS:IN:OUT:FILE, with FLAGS r, w or rw, and its raw code in FILE";
    many(alloc, "METHOD", help)
}

fn pack_command<'a>(alloc: Global) -> Result<Command<'a>, AllocError>
    ensures line { IfOk result (λ c. app_of c ≡ pack_line) }
    ensures local { IfOk result (λ c. (out-Command c).has_globals ≡ false) }
{
    let heading = Heading {
        name: "pack",
        about: "Writes the image of a class from raw code",
        examples: help::PACK,
    };
    let of_image = file_command(alloc, heading, "OUT", "The file of the image");
    let of_code = with_arg(of_image, methods_argument(alloc));
    let help = "The rules by which the class is verified, 1, 2 or 3";
    let rules = option(alloc, "rules", "N", "1", help);
    let of_rules = with_arg(of_code, rules);
    let of_heads = with_arg(with_arg(of_rules, heads_flag(alloc)), budget_value(alloc));
    with_arg(of_heads, explain_flag(alloc))
}

fn dis_command<'a>(alloc: Global) -> Result<Command<'a>, AllocError>
    ensures line { IfOk result (λ c. app_of c ≡ dis_line) }
    ensures local { IfOk result (λ c. (out-Command c).has_globals ≡ false) }
{
    let heading = Heading {
        name: "dis",
        about: "Prints the text of a class",
        examples: help::DIS,
    };
    let of_image = file_command(
        alloc,
        heading,
        "IN",
        "The file of the class: its image or text",
    );
    let slots = flag(alloc, "slots", "Ends each instruction's line with its slot");
    with_arg(with_arg(of_image, slots), explain_flag(alloc))
}

fn heads_command<'a>(alloc: Global) -> Result<Command<'a>, AllocError>
    ensures line { IfOk result (λ c. app_of c ≡ heads_line) }
    ensures local { IfOk result (λ c. (out-Command c).has_globals ≡ false) }
{
    let heading = Heading {
        name: "heads",
        about: "Writes the image of a class with the heads of its loops",
        examples: help::HEADS,
    };
    let of_image = file_command(
        alloc,
        heading,
        "IN",
        "The file of the class: its image or text",
    );
    let image = required(alloc, "OUT", "The file of the image");
    let budget = option(alloc, "budget", "N", "131072", help::BUDGET);
    with_arg(with_arg(of_image, image), budget)
}

/// The option of a tenant's class, which may be given more than once.
fn class_option<'a>(alloc: Global) -> Arg<'a>
    ensures rule { rule_of result ≡ class_rule }
    ensures local { result.global ≡ false }
{
    let help = "A class beside lock and obj: the word that asks it, and its image or text";
    each(alloc, "class", "NAME=IMAGE", help)
}

fn sim_command<'a>(alloc: Global) -> Result<Command<'a>, AllocError>
    ensures line { IfOk result (λ c. app_of c ≡ sim_line) }
    ensures local { IfOk result (λ c. (out-Command c).has_globals ≡ false) }
{
    let heading = Heading {
        name: "sim",
        about: "Plays a group of nodes from a file of events",
        examples: help::SIM,
    };
    let of_events = file_command(alloc, heading, "FILE", "The file of events");
    let trace = flag(alloc, "trace", "Draws the run as a message sequence");
    let objects = flag(alloc, "objects", help::OBJECTS);
    let of_classes = with_arg(of_events, class_option(alloc));
    let of_forms = with_arg(with_arg(of_classes, trace), objects);
    with_arg(of_forms, explain_flag(alloc))
}

fn cluster_command<'a>(alloc: Global) -> Result<Command<'a>, AllocError>
    ensures line { IfOk result (λ c. app_of c ≡ cluster_line) }
    ensures local { IfOk result (λ c. (out-Command c).has_globals ≡ false) }
{
    let heading = Heading {
        name: "cluster",
        about: "Plays clients' calls on a cluster in threads",
        examples: help::CLUSTER,
    };
    let of_calls = file_command(alloc, heading, "FILE", help::CLUSTER_FILE);
    let help = "Shows in each line what the call asked: its object's group, and the request";
    let show = flag(alloc, "show", help);
    let stats = flag(alloc, "stats", "Writes what the run took to standard error");
    let strict = flag(alloc, "strict", "Ends with 1 if a call is refused");
    let of_classes = with_arg(with_arg(of_calls, class_option(alloc)), show);
    let of_figures = with_arg(with_arg(of_classes, stats), strict);
    let follow = flag(alloc, "follow", help::FOLLOW);
    with_arg(with_arg(of_figures, explain_flag(alloc)), follow)
}

/// The command without its subcommands. Words have to name one of them.
fn plain_command<'a>(alloc: Global) -> Command<'a>
    ensures { app_of result ≡ plain_line }
{
    Command::new(alloc, "radoscls")
        .about("RADOS object classes in verified BPF")
        .version("0.5.0\nlogic dac8208d650f15bf")
        .subcommand_required(true)
        .arg_required_else_help(true)
}

/// The command with the subcommands that judge a class, call it and test it.
fn image_command<'a>(alloc: Global) -> Result<Command<'a>, AllocError>
    ensures { IfOk result (λ c. app_of c ≡ image_line) }
{
    let plain = Ok(plain_command(alloc));
    let of_calls = with_subcommand(
        with_subcommand(plain, verify_command(alloc)),
        run_command(alloc),
    );
    with_subcommand(of_calls, test_command(alloc))
}

/// The whole command.
pub(crate) fn root_command<'a>(alloc: Global) -> Result<Command<'a>, AllocError>
    ensures { IfOk result (λ c. app_of c ≡ command_line) }
{
    let of_images = image_command(alloc);
    let of_code = with_subcommand(
        with_subcommand(of_images, asm_command(alloc)),
        pack_command(alloc),
    );
    let of_texts = with_subcommand(of_code, dis_command(alloc));
    let of_loops = with_subcommand(of_texts, heads_command(alloc));
    let of_groups = with_subcommand(of_loops, sim_command(alloc));
    with_subcommand(of_groups, cluster_command(alloc))
}

/// The subcommand of that name; the whole command if there is none.
#[rattlefmt::skip]
pub(crate) fn command_named<'a>(alloc: Global, name: &str) -> Result<Command<'a>, AllocError> {
    match name {
        "verify"  => verify_command(alloc),
        "run"     => run_command(alloc),
        "test"    => test_command(alloc),
        "asm"     => asm_command(alloc),
        "pack"    => pack_command(alloc),
        "dis"     => dis_command(alloc),
        "heads"   => heads_command(alloc),
        "sim"     => sim_command(alloc),
        "cluster" => cluster_command(alloc),
        _         => root_command(alloc),
    }
}
