//! The methods that `pack` is given, each spelled `NAME:FLAGS:IN:OUT:FILE`.
ghost use Rattle.std.specs.Prelude.{◌≡◌, ◌≢◌, ℕ, List, false, true, map, IfErr, IfNone, IfOk, IfSome, IsNone};
ghost use Rattle.class_tool.specs.declared.action.RawMethod.{RawMethod as ARawMethod};
ghost use Rattle.radoscls_program.specs.Raw.{AreRaw, IsCapacity, IsRaw, after_field, field_in, flags_in, has_field};

use crate::mistake::{Mistake, Wanted};
use crate::number::short_in;
use asm_lines::flags;
use class_tool::RawMethod;
use std::alloc::Global;

/// A text's first field, which ends with a `:`, and what stands after it.
fn split<'a>(text: &'a str) -> Option<(&'a str, &'a str)>
    ensures none { IfNone result (has_field text.now ≡ false) }
    ensures some { IfSome result (λ p. (has_field text.now ≡ true) × (p.0.now ≡ field_in text.now) ×
        (p.1.now ≡ after_field text.now)) }
{
    text.split_once(':')
}

/// The flags that a text names.
fn flags_of(text: &str) -> Option<u8>
    ensures { result ≡ flags_in text.now }
{
    flags(text.as_bytes())
}

/// The capacity that a text begins with, and what stands after it.
fn capacity_of<'a>(text: &'a str) -> Option<(u16, &'a str)>
    ensures some { IfSome result (λ p. IsCapacity text.now p.0 × (p.1.now ≡ after_field text.now)) }
    ensures none { IsNone result → (n : ℕ) → IsCapacity text.now n → ⊥ }
{
    let (digits, rest) = split(text)?;
    let number = short_in(digits)?;
    Some((number, rest))
}

/// The method that a text spells.
fn raw_method<'a>(text: &'a str) -> Option<RawMethod<'a>>
    ensures some { IfSome result (IsRaw text.now) }
    ensures none { IsNone result → (m : ARawMethod) → IsRaw text.now m → ⊥ }
{
    let (name, rest) = split(text)?;
    let (flags, rest) = split(rest)?;
    let flags = flags_of(flags)?;
    let (in_cap, rest) = capacity_of(rest)?;
    let (out_cap, code) = capacity_of(rest)?;
    Some(RawMethod {
        name,
        flags,
        in_cap,
        out_cap,
        code,
    })
}

/// The methods that texts spell, in their order; refused if one of them spells none.
pub(crate) fn raw_methods<'a>(
    alloc: Global,
    texts: &[&'a str],
) -> Result<Vec<RawMethod<'a>>, Mistake<'a>>
    ensures some { IfOk result (λ ms. AreRaw (map (λ t. t.now) texts.now) ms.items) }
    ensures none { IfErr result (λ m. m ≢ Mistake.NoMemory → (ms : List ARawMethod) →
        AreRaw (map (λ t. t.now) texts.now) ms → ⊥) }
{
    let mut methods = Vec::new(alloc);
    for text in texts {
        match raw_method(text) {
            Some(method) => methods.push(method)?,
            None => return Err(Mistake::Value(Wanted::Method, text)),
        }
    }
    Ok(methods)
}
