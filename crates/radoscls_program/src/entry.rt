//! The xattrs and the keys that `run` is given, each spelled `NAME=HEX`.
ghost use Rattle.std.specs.Prelude.{◌≡◌, ◌≢◌, List, false, true, map, IfErr, IfNone, IfOk, IfSome};
ghost use Rattle.std.specs.List.{list_any};
ghost use Rattle.object_texts.specs.declared.method_call.SpelledEntry.{SpelledEntry as ASpelledEntry};
ghost use Rattle.radoscls_program.specs.Entries.{AreEntries, IsEntry};
ghost use Rattle.radoscls_program.specs.Tenants.{is_equals};

use crate::mistake::{Mistake, Wanted};
use object_texts::SpelledEntry;
use std::alloc::Global;

/// The entry that a text spells: its name stands before the first `=`, its value after it.
fn entry_of<'a>(text: &'a str) -> Option<SpelledEntry<'a>>
    ensures none { IfNone result (list_any is_equals text.now ≡ false) }
    ensures some { IfSome result (IsEntry text.now) }
{
    match text.split_once('=') {
        Some((name, value)) => Some(SpelledEntry { name, value }),
        None => None,
    }
}

/// The entries that texts spell, in their order; refused if a text has no `=`.
pub(crate) fn entries<'a>(
    alloc: Global,
    wanted: Wanted,
    texts: &[&'a str],
) -> Result<Vec<SpelledEntry<'a>>, Mistake<'a>>
    ensures some { IfOk result (λ es. AreEntries (map (λ t. t.now) texts.now) es.items) }
    ensures none { IfErr result (λ m. m ≢ Mistake.NoMemory → (es : List ASpelledEntry) →
        AreEntries (map (λ t. t.now) texts.now) es → ⊥) }
{
    let mut entries = Vec::new(alloc);
    for text in texts {
        match entry_of(text) {
            Some(entry) => entries.push(entry)?,
            None => return Err(Mistake::Value(wanted, text)),
        }
    }
    Ok(entries)
}
