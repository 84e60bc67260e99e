//! The classes that requests go to, and their names.
ghost use Rattle.std.specs.Prelude.{◌≡◌, ◌+◌, ◌<◌, ◌≤◌, ◌++◌, ◌∷◌, [], length, map, IfOk, IfErr, OnOk};
ghost use Rattle.builtin_classes.specs.BuiltIn.{AreLoaded};
ghost use Rattle.builtin_classes.specs.declared.lock.TheConstants.{LOCK};
ghost use Rattle.builtin_classes.specs.declared.obj.TheConstants.{OBJ};
ghost use Rattle.interp.specs.declared.limits.TheConstants.{CLASS_LIMIT};
ghost use Rattle.tenant_classes.specs.Classes.{AreClasses, BuiltInFails, ClassesFail, TenantsFail, GrewByTenants};
ghost use Rattle.tenant_classes.specs.Classes.{failure_of, names_of};

use crate::tenant_class::{TENANT_LIMIT, TenantClass};
use builtin_classes::{BuiltInFailure, load_lock, load_obj};
use interp::ClassTable;
use program_files::{Failure, ReadableFiles, load};
use std::alloc::{AllocError, Global};
use verifier::VerifiedClass;

/// Why a built-in class can't be had, as a failure of the program.
fn failure_of(failure: BuiltInFailure) -> Failure
    ensures { result ≡ failure_of failure }
{
    match failure {
        BuiltInFailure::NoMemory => Failure::NoMemory,
        BuiltInFailure::Text(error) => Failure::Text(error),
        BuiltInFailure::Verdict(refusal) => Failure::Verdict(refusal),
    }
}

/// Adds a class to a table that has room for it. It fails for want of memory alone.
fn add(table: &mut ClassTable, class: VerifiedClass) -> Result<(), AllocError>
    requires { length table.old < CLASS_LIMIT }
    ensures { OnOk result (table.new ≡ table.old ++ class ∷ []) }
{
    match table.add(class) {
        Ok(_) => Ok(()),
        Err(_) => Err(AllocError),
    }
}

/// The built-in classes: `lock` is 0, `obj` is 1.
fn built_in(alloc: Global) -> Result<ClassTable, Failure>
    ensures loaded { IfOk result (AreLoaded LOCK.now OBJ.now) }
    ensures fails { IfErr result BuiltInFails }
{
    let lock = match load_lock(alloc) {
        Ok(class) => class,
        Err(failure) => return Err(failure_of(failure)),
    };
    let obj = match load_obj(alloc) {
        Ok(class) => class,
        Err(failure) => return Err(failure_of(failure)),
    };
    let mut table = ClassTable::new(alloc);
    add(&mut table, lock)?;
    add(&mut table, obj)?;
    Ok(table)
}

/// Adds the tenants' classes, in their order. The first that can't be loaded says why.
fn add_tenants<F: ReadableFiles>(
    alloc: Global,
    files: &F,
    tenants: &[TenantClass<'_>],
    table: &mut ClassTable,
) -> Result<(), Failure>
    requires { length table.old + length tenants.now ≤ CLASS_LIMIT }
    ensures added { OnOk result (GrewByTenants (F.disk files.now) tenants.now table.old table.new) }
    ensures fails { IfErr result (TenantsFail (F.disk files.now) tenants.now) }
{
    for class in tenants {
        let loaded = load(alloc, files, class.image)?;
        add(table, loaded)?;
    }
    Ok(())
}

/// The built-in classes, `lock` 0 and `obj` 1, and the tenants' after them in their order. A
/// failure is the first in this order: a built-in class can't be had, which memory alone is known
/// to cause; a tenant's class can't be loaded, the first one in their order.
pub fn classes<F: ReadableFiles>(
    alloc: Global,
    files: &F,
    tenants: &[TenantClass<'_>],
) -> Result<ClassTable, Failure>
    requires { length tenants.now ≤ TENANT_LIMIT }
    ensures loaded { IfOk result (AreClasses (F.disk files.now) tenants.now) }
    ensures fails { IfErr result (ClassesFail (F.disk files.now) tenants.now) }
{
    let mut table = built_in(alloc)?;
    add_tenants(alloc, files, tenants, &mut table)?;
    Ok(table)
}

/// The words that ask those classes, by their ids. It fails for want of memory alone.
pub fn class_names<'a>(
    alloc: Global,
    tenants: &[TenantClass<'a>],
) -> Result<Vec<&'a str>, AllocError>
    ensures { IfOk result (λ v. map (λ n. n.now) v.items ≡ names_of tenants.now) }
{
    let mut names = vec![in alloc; "lock", "obj"]?;
    for class in tenants {
        names.push(class.name)?;
    }
    Ok(names)
}
