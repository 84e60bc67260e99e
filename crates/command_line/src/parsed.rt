//! What the words of a command line say.

ghost use Rattle.std.specs.Prelude.{◌≡◌, IfOk, map, option_map};
ghost use Rattle.command_line.specs.Parsed.{all_in, is_set_in, one_in, parsed_of};

use clap::ArgMatches;
use std::alloc::{AllocError, Global};

/// The subcommand that words name, and the texts of its arguments, by their ids. An argument that
/// isn't there has its default, or no text; a flag that is there has the text `true`.
#[derive(Drop)]
pub struct ParsedWords<'a> {
    pub(crate) name: &'a str,
    pub(crate) values: ArgMatches<'a>,
}

impl<'a> ParsedWords<'a> {
    /// The subcommand's name.
    pub fn name(&self) -> &'a str
        ensures { result.now ≡ (parsed_of self.now).name }
    {
        self.name
    }

    /// The first text of an argument, if it has one.
    pub fn one(&self, id: &str) -> Option<&'a str>
        ensures { option_map (λ t. t.now) result ≡ one_in (parsed_of self.now) id.now }
    {
        self.values.get_str(id)
    }

    /// All texts of an argument, in their order.
    pub fn all(&self, alloc: Global, id: &str) -> Result<Vec<&'a str>, AllocError>
        ensures { IfOk result (λ texts. map (λ t. t.now) texts.items ≡ all_in (parsed_of self.now) id.now) }
    {
        match self.values.get_strs(id) {
            Some(texts) => Ok(Vec::from_slice(alloc, texts)?),
            None => Ok(Vec::new(alloc)),
        }
    }

    /// True if a flag is set.
    pub fn is_set(&self, id: &str) -> bool
        ensures { result ≡ is_set_in (parsed_of self.now) id.now }
    {
        match self.one(id) {
            // A flag that is given has the text `true`, as `clap` parses `SetTrue`.
            Some(text) => text == "true",
            None => false,
        }
    }
}
