//! Standard input, which `-` names: one argument alone may read it, and none may write it.
ghost use Rattle.std.specs.Prelude.{◌≡◌, ◌≢◌, ◌++◌, IfErr, IfOk, OnOk, codes, count_by, map, option_map};
ghost use Rattle.command_line.specs.Parsed.{one_in, parsed_of};
ghost use Rattle.std.specs.List.{flat_map, list_any};
ghost use Rattle.radoscls_program.specs.Inputs.{UsesInputWell, call_values, code_files, files_read, is_input, named};
ghost use Rattle.radoscls_program.specs.Inputs.{value_file};
ghost use Rattle.radoscls_program.specs.Raw.{after_field, code_in};
ghost use Rattle.radoscls_program.specs.Tenants.{image_in};

use crate::mistake::{Mistake, Wanted};
use crate::values::file_of;
use command_line::ParsedWords;
use std::alloc::{AllocError, Global};

/// True if that names standard input.
fn is_input(name: &str) -> bool
    ensures { result ≡ is_input name.now }
{
    name == "-"
}

/// The text after the first `=`.
fn after_equals<'a>(text: &'a str) -> &'a str
    ensures { result.now ≡ image_in text.now }
{
    match text.split_once('=') {
        Some((_, rest)) => rest,
        None => "",
    }
}

/// The text after the first `:`.
fn after_colon<'a>(text: &'a str) -> &'a str
    ensures { result.now ≡ after_field text.now }
{
    match text.split_once(':') {
        Some((_, rest)) => rest,
        None => "",
    }
}

/// Adds a text that is there.
fn push_named<'a>(names: &mut Vec<&'a str>, name: Option<&'a str>) -> Result<(), AllocError>
    ensures { OnOk result (map (λ n. n.now) names.new.items ≡ map (λ n. n.now) names.old.items ++
        named (option_map (λ n. n.now) name.entry)) }
{
    if let Some(name) = name {
        names.push(name)?;
    }
    Ok(())
}

/// Adds the files of tenants' classes that texts name.
fn push_images<'a>(names: &mut Vec<&'a str>, texts: &[&'a str]) -> Result<(), AllocError>
    ensures { OnOk result (map (λ n. n.now) names.new.items ≡ map (λ n. n.now) names.old.items ++
        map image_in (map (λ t. t.now) texts.now)) }
{
    for text in texts {
        names.push(after_equals(text))?;
    }
    Ok(())
}

/// Adds the files of raw code that texts name.
fn push_codes<'a>(names: &mut Vec<&'a str>, texts: &[&'a str]) -> Result<(), AllocError>
    ensures { OnOk result (map (λ n. n.now) names.new.items ≡ map (λ n. n.now) names.old.items ++
        map code_in (map (λ t. t.now) texts.now)) }
{
    for text in texts {
        let rest = after_colon(after_colon(text));
        names.push(after_colon(after_colon(rest)))?;
    }
    Ok(())
}

/// The files of raw code that a command line has read.
fn code_files<'a>(alloc: Global, words: &ParsedWords<'a>) -> Result<Vec<&'a str>, AllocError>
    ensures { IfOk result (λ texts. map (λ t. t.now) texts.items ≡ code_files (parsed_of words.now)) }
{
    let mut files = Vec::new(alloc);
    if words.name() == "pack" {
        let texts = words.all(alloc, "METHOD")?;
        push_codes(&mut files, &texts)?;
    }
    Ok(files)
}

/// The files that a command line has read.
fn files_read<'a>(alloc: Global, words: &ParsedWords<'a>) -> Result<Vec<&'a str>, AllocError>
    ensures { IfOk result (λ names. map (λ n. n.now) names.items ≡ files_read (parsed_of words.now)) }
{
    let classes_read = words.all(alloc, "IN")?;
    let codes = code_files(alloc, words)?;
    let values = call_values(alloc, words)?;
    let classes = words.all(alloc, "class")?;
    let mut names = Vec::new(alloc);
    names.extend_from_slice(&classes_read)?;
    push_named(&mut names, words.one("FILE"))?;
    push_images(&mut names, &classes)?;
    names.extend_from_slice(&codes)?;
    push_value_files(&mut names, &values)?;
    push_named(&mut names, words.one("load"))?;
    Ok(names)
}

/// The values of a call.
fn call_values<'a>(alloc: Global, words: &ParsedWords<'a>) -> Result<Vec<&'a str>, AllocError>
    ensures { IfOk result (λ values. map (λ v. v.now) values.items ≡ call_values (parsed_of words.now)) }
{
    let xattrs = words.all(alloc, "xattr")?;
    let keys = words.all(alloc, "key")?;
    let mut values = Vec::new(alloc);
    push_named(&mut values, words.one("input"))?;
    push_named(&mut values, words.one("object"))?;
    push_images(&mut values, &xattrs)?;
    push_images(&mut values, &keys)?;
    Ok(values)
}

/// Adds the files that values name.
fn push_value_files<'a>(names: &mut Vec<&'a str>, values: &[&'a str]) -> Result<(), AllocError>
    ensures { OnOk result (map (λ n. n.now) names.new.items ≡ map (λ n. n.now) names.old.items ++
        flat_map value_file (map (λ v. v.now) values.now)) }
{
    for value in values {
        push_named(names, file_of(value))?;
    }
    Ok(())
}

/// The number of them that name standard input.
fn inputs_among(names: &[&str]) -> usize
    ensures { result ≡ count_by is_input (map (λ n. n.now) names.now) }
{
    let mut count = 0;
    for name in names {
        if is_input(name) {
            count += 1;
        }
    }
    count
}

/// True if an argument is standard input.
fn names_input(words: &ParsedWords<'_>, id: &str) -> bool
    ensures { result ≡ list_any is_input (named (one_in (parsed_of words.now) id.now)) }
{
    match words.one(id) {
        Some(name) => is_input(name),
        None => false,
    }
}

/// Refuses words of which two have standard input read, or OUT or --save names it.
pub(crate) fn check_inputs<'a>(alloc: Global, words: &ParsedWords<'a>) -> Result<(), Mistake<'a>>
    ensures ok { IfOk result (λ _. UsesInputWell (parsed_of words.now)) }
    ensures err { IfErr result (λ m. m ≢ Mistake.NoMemory → UsesInputWell (parsed_of words.now) → ⊥) }
{
    if names_input(words, "OUT") {
        return Err(Mistake::Value(Wanted::Output, "-"));
    }
    if names_input(words, "save") {
        return Err(Mistake::Value(Wanted::Saved, "-"));
    }
    let names = files_read(alloc, words)?;
    if inputs_among(&names) > 1 {
        return Err(Mistake::InputTwice);
    }
    Ok(())
}
