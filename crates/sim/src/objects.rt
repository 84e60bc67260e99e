//! The objects of the node that a line shows, as they stand below its text.

ghost use Rattle.std.specs.Prelude.{◌≡◌, IfOk, string_bytes};
ghost use Rattle.std.specs.FinMap as fin;
ghost use Rattle.std.specs.Option.{option_copied};
ghost use Rattle.pg_log.specs.Entries.{AreEntries, requests_of};
ghost use Rattle.pg_log.specs.Log.{fold};
ghost use Rattle.object_texts.specs.Shown.{objects_text};
ghost use Rattle.sim.specs.Run.{IsBelow, node_objects};

use object_store::{Objects, StoreError};
use object_texts::objects_text;
use peering::GroupNode;
use pg_log::{Classes, Entry, Group};
use sim_world::{Taken, World};
use std::alloc::{AllocError, Global};

/// The objects that a log makes: each entry has its object as it is after it.
fn objects_of<C: Classes>(alloc: Global, entries: &[Entry]) -> Result<Objects, StoreError>
    requires { AreEntries C.classes fin.empty entries.now }
    ensures { IfOk result (λ o. o ≡ fold C.classes (requests_of entries.now)) }
{
    let mut made = Objects::new();
    for entry in entries {
        made.store(alloc, entry.request.object(), entry.change.after())?;
    }
    Ok(made)
}

/// The text of the objects that a log makes.
fn group_objects<C: Classes>(alloc: Global, group: &Group<C>) -> Result<String, AllocError>
    ensures { IfOk result (λ t. string_bytes t ≡ objects_text (fold C.classes group.now)) }
{
    match objects_of::<C>(alloc, group.entries()) {
        Ok(objects) => objects_text(alloc, &objects),
        Err(_) => Err(AllocError),
    }
}

/// The text of the objects of a node, if there is one.
fn node_objects<C: Classes>(
    alloc: Global,
    node: Option<&GroupNode<C>>,
) -> Result<String, AllocError>
    ensures { IfOk result (λ t. string_bytes t ≡ node_objects C.classes (option_copied node.entry)) }
{
    match node {
        Some(node) => group_objects(alloc, node.group()),
        None => Ok(String::new(alloc)),
    }
}

/// The text below that of a line, by what came of it: of the node that it shows, each object that
/// the node's log makes; of other lines, none.
#[rattlefmt::skip]
pub(crate) fn objects_below<C: Classes>(alloc: Global, world: &World<C>, taken: &Taken) -> Result<String, AllocError>
    ensures { IfOk result (λ t. IsBelow C.classes world.now taken.now (string_bytes t)) }
{
    match taken {
        Taken::Shown(shown)      => node_objects(alloc, world.node(shown.node)),
        Taken::Bad               => Ok(String::new(alloc)),
        Taken::Skipped           => Ok(String::new(alloc)),
        Taken::Stopped           => Ok(String::new(alloc)),
        Taken::Sent(_)           => Ok(String::new(alloc)),
        Taken::Refused(_)        => Ok(String::new(alloc)),
        Taken::MonitorRefused(_) => Ok(String::new(alloc)),
        Taken::Made(_)           => Ok(String::new(alloc)),
        Taken::Again(_)          => Ok(String::new(alloc)),
    }
}
