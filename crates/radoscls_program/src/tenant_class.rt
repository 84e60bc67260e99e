//! The classes of tenants that `sim` is given, each spelled `NAME=IMAGE`.
ghost use Rattle.std.specs.Prelude.{◌≡◌, ◌≢◌, ◌≤◌, false, true, length, map, IfErr, IfOk, IfNone, IfSome};
ghost use Rattle.std.specs.List.{list_any};
ghost use Rattle.std.specs.Str.{bytes_eq};
ghost use Rattle.tenant_classes.specs.Classes.{names_of};
ghost use Rattle.tenant_classes.specs.declared.tenant_class.TheConstants.{TENANT_LIMIT};
ghost use Rattle.radoscls_program.specs.Tenants.{SpellsTenants, are_tenants, image_in, is_equals, is_tenant, is_word};
ghost use Rattle.radoscls_program.specs.Tenants.{name_in};

use crate::mistake::{Mistake, Wanted};
use std::alloc::Global;
use tenant_classes::{TENANT_LIMIT, TenantClass};

/// True if a word of a file of events may be that: it isn't empty, and has no blank.
fn is_word(name: &str) -> bool
    ensures { result ≡ is_word name.now }
{
    let bytes = name.as_bytes();
    !bytes.is_empty() && !bytes.contains(&b' ') && !bytes.contains(&b'\t')
}

/// True if a class of those has that name.
fn is_used(name: &str, tenants: &[TenantClass<'_>]) -> bool
    ensures { result ≡ list_any (λ u. bytes_eq name.now u) (map (λ o. o.name.now) tenants.now) }
{
    for class in tenants {
        if name == class.name {
            return true;
        }
    }
    false
}

/// True if a built-in class or one of those has that name.
fn is_taken(name: &str, tenants: &[TenantClass<'_>]) -> bool
    ensures { result ≡ list_any (λ u. bytes_eq name.now u) (names_of tenants.now) }
{
    name == "lock" || name == "obj" || is_used(name, tenants)
}

/// The class that a text spells: its name stands before the first `=`, the file of its image or
/// text after it.
fn tenant_class<'a>(text: &'a str) -> Option<TenantClass<'a>>
    ensures none { IfNone result (list_any is_equals text.now ≡ false) }
    ensures some { IfSome result (λ o. (list_any is_equals text.now ≡ true) × (o.name.now ≡ name_in text.now) ×
        (o.image.now ≡ image_in text.now)) }
{
    match text.split_once('=') {
        Some((name, image)) => Some(TenantClass { name, image }),
        None => None,
    }
}

/// The class that a text spells, if it may follow those.
fn next_class<'a>(
    text: &'a str,
    tenants: &[TenantClass<'_>],
) -> Result<TenantClass<'a>, Mistake<'a>>
    ensures none { IfErr result (λ _. is_tenant (names_of tenants.now) text.now ≡ false) }
    ensures some { IfOk result (λ o. (is_tenant (names_of tenants.now) text.now ≡ true) ×
        (o.name.now ≡ name_in text.now) × (o.image.now ≡ image_in text.now)) }
{
    let Some(class) = tenant_class(text) else {
        return Err(Mistake::Value(Wanted::Class, text));
    };
    if !is_word(class.name) {
        return Err(Mistake::Value(Wanted::ClassName, text));
    }
    if is_taken(class.name, tenants) {
        return Err(Mistake::Value(Wanted::FreeName, text));
    }
    Ok(class)
}

/// The classes that texts spell, in their order, after the built-in ones. Refused is the first text
/// that has no `=`, or whose name is no word or is used before it; of more classes than there may
/// be the last.
pub(crate) fn tenants_in<'a>(
    alloc: Global,
    texts: &[&'a str],
) -> Result<Vec<TenantClass<'a>>, Mistake<'a>>
    ensures none { IfErr result (λ m. m ≢ Mistake.NoMemory → are_tenants (map (λ t. t.now) texts.now) ≡ false) }
    ensures some { IfOk result (λ tenants. SpellsTenants (map (λ t. t.now) texts.now) tenants.items) }
    ensures room { IfOk result (λ tenants. length tenants.items ≤ TENANT_LIMIT) }
{
    if texts.len() > TENANT_LIMIT {
        let last = texts[texts.len() - 1];
        return Err(Mistake::Value(Wanted::FewerClasses, last));
    }
    let mut tenants = Vec::new(alloc);
    for text in texts {
        match next_class(text, &tenants) {
            Ok(class) => tenants.push(class)?,
            Err(mistake) => return Err(mistake),
        }
    }
    Ok(tenants)
}
