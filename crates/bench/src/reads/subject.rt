ghost use Rattle.std.specs.Prelude.{◌≡◌, IfOk};
ghost use Rattle.std.specs.Option.{option_copied};
ghost use Rattle.object_store.specs.Limits.{profile};
ghost use Rattle.helpers.specs.Table.{stat_answer, map_get_answer};
ghost use Rattle.bench.specs.Subject.{key_512};

use anyhow::{Context, Result};
use helpers::{map_set, map_value, setxattr, stat, write};
use object_store::{DATA_LIMIT, KEY_LIMIT, Object, XATTR_LIMIT};
use std::alloc::Global;
use txn::{NoMemory, Staged};

/// A call that only reads.
#[derive(Clone, Copy)]
pub enum Reading {
    Stat,
    MapGet,
}

impl Reading {
    pub fn name(self) -> &'static str {
        match self {
            Reading::Stat => "stat",
            Reading::MapGet => "map_get",
        }
    }

    /// Stages the object, calls the helper and finishes. It gives the helper's answer.
    pub fn call(self, object: Option<&Object>) -> Result<u64> {
        match self {
            Reading::Stat => stat_of(object),
            Reading::MapGet => value_of(object),
        }
    }
}

/// The length of the data.
fn stat_of(object: Option<&Object>) -> Result<u64>
    ensures { IfOk result (λ n. n ≡ (stat_answer (option_copied object.entry)).number) }
{
    let staged = Staged::over(object);
    let answer = stat(&staged);
    let _change = staged.finish()?;
    Ok(answer)
}

/// The length of the value of the key in the middle.
fn value_of(object: Option<&Object>) -> Result<u64>
    ensures { IfOk result (λ n. n ≡ (map_get_answer profile (option_copied object.entry) key_512 4096).number) }
{
    let staged = Staged::over(object);
    let answer = map_value(&staged, &[2, 0], 4096).number;
    let _change = staged.finish()?;
    Ok(answer)
}

/// The longest value.
const VALUE: [u8; 4096] = [0x5a; 4096];

/// An object with all data, xattrs and keys that one may have, and values of the most bytes. Its
/// keys are the numbers from 0 on, two bytes each, the high one first.
pub fn full_object(alloc: Global) -> Result<Object> {
    let mut staged = Staged::over(None);
    fill(alloc, &mut staged)?;
    staged.finish()?.into_after().context("an object")
}

/// Gives a staged object all of that.
fn fill(alloc: Global, staged: &mut Staged<'_>) -> Result<(), NoMemory> {
    write(alloc, staged, DATA_LIMIT as u64 - 1, &[0x5a])?;
    for n in 0..KEY_LIMIT as u16 {
        let key = n.to_be_bytes();
        map_set(alloc, staged, &key, &VALUE)?;
        if usize::from(n) < XATTR_LIMIT {
            setxattr(alloc, staged, &key, &VALUE)?;
        }
    }
    Ok(())
}
