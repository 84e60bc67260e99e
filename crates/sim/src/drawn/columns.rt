//! The columns of a drawing: one for each party at which an event happens or that sends or gets a
//! message, by rank.
ghost use Rattle.std.specs.Prelude.{◌≤◌, ◌<◌, length, IfSome};

use crate::drawn::column::Column;
use crate::drawn::drawn_message::DrawnMessage;
use crate::drawn::drawn_step::{DrawnStep, What};
use std::alloc::{AllocError, Global};

/// The place of a column, if it is there.
fn found(columns: &[Column], column: Column) -> Option<usize> {
    let rank = column.rank();
    columns.iter().position(|other| other.rank() == rank)
}

/// The place of a column, or the number of columns if it isn't there.
pub(crate) fn place_of(columns: &[Column], column: Column) -> usize {
    found(columns, column).unwrap_or(columns.len())
}

/// True if it has a column.
fn is_there(columns: &[Column], column: Column) -> bool {
    found(columns, column).is_some()
}

/// The place of the first column that isn't before a new one, if there is one.
fn found_behind(columns: &[Column], column: Column) -> Option<usize>
    ensures { IfSome result (λ place. place < length columns.now) }
{
    let rank = column.rank();
    columns.iter().position(|other| rank <= other.rank())
}

/// The place at which a new column is inserted.
fn place_for(columns: &[Column], column: Column) -> usize
    ensures { result ≤ length columns.now }
{
    match found_behind(columns, column) {
        Some(place) => place,
        None => columns.len(),
    }
}

/// Adds a column if it isn't there.
fn put_in(columns: &mut Vec<Column>, column: Column) -> Result<(), AllocError> {
    if is_there(columns, column) {
        return Ok(());
    }
    let place = place_for(columns, column);
    columns.insert(place, column)?;
    Ok(())
}

/// Adds two columns.
fn put_both(columns: &mut Vec<Column>, one: Column, other: Column) -> Result<(), AllocError> {
    put_in(columns, one)?;
    put_in(columns, other)
}

/// Adds the columns of an event.
fn with_what(columns: &mut Vec<Column>, what: What) -> Result<(), AllocError> {
    match what {
        What::At(column) => put_in(columns, column),
        What::Asked(client, node) => put_both(columns, client, node),
        What::Arrived(_) => Ok(()),
        What::Bounced(_) => Ok(()),
        What::Stopped(column) => put_in(columns, column),
        What::Resumed(column) => put_in(columns, column),
    }
}

/// Adds the columns of all that send or get a message.
fn with_messages(columns: &mut Vec<Column>, messages: &[DrawnMessage]) -> Result<(), AllocError> {
    for message in messages {
        put_both(columns, message.from, message.to)?;
    }
    Ok(())
}

/// Adds the columns of all at which something happens.
fn with_steps(columns: &mut Vec<Column>, steps: &[DrawnStep]) -> Result<(), AllocError> {
    for step in steps {
        with_what(columns, step.what)?;
    }
    Ok(())
}

/// All columns of a drawing.
pub(crate) fn columns_of(
    alloc: Global,
    messages: &[DrawnMessage],
    steps: &[DrawnStep],
) -> Result<Vec<Column>, AllocError> {
    let mut columns = Vec::new(alloc);
    with_messages(&mut columns, messages)?;
    with_steps(&mut columns, steps)?;
    Ok(columns)
}
