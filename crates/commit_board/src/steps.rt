//! The steps at a board: the change that each one makes, and how tokens hand on their knowledge.

ghost use Rattle.commit_board.specs.Rows.{Adds, Looks, Merges, Compares, other_rows, one_row, shared, received_of};
ghost use Rattle.commit_board.specs.Rows.{new_reader, informed, sees};

use crate::view::View;
use atomic_table::{Join, Play, Split};
use std::marker::{Brand, PhantomData};

/// The request that a step adds. Each call picks it.
pub(crate) trait Said {
    ghost use Rattle.pg_log.specs.Requests.{ClientRequest};

    ghost request: { ClientRequest };
}

impl Said for Brand {
    ghost use Rattle.std.specs.Prelude.{[]};

    ghost request = { record { client = 0; number = 0; object = []; class = 0; method = []; input = [] } };
}

/// The writer adds a request.
pub(crate) struct Add<J> {
    of: PhantomData<J>,
}

impl<J: Said> Play<u8, View> for Add<J> {
    ghost then = { Adds J.request };
}

/// A look at a row.
pub(crate) struct Look;

impl Play<u8, View> for Look {
    ghost then = { Looks };
}

/// The received lists become known.
pub(crate) struct Merge;

impl Play<u8, View> for Merge {
    ghost then = { Merges };
}

/// A received list is compared with the writer's own.
pub(crate) struct Compare;

impl Play<u8, View> for Compare {
    ghost then = { Compares };
}

/// A writer of the first row is made, apart from those of the other rows.
pub(crate) struct OneRow;

impl Split<View> for OneRow {
    ghost left = { other_rows };

    ghost right = { one_row };
}

/// A note that knows a writer's list.
pub(crate) struct Share;

impl Split<View> for Share {
    ghost left = { λ v. v };

    ghost right = { shared };
}

/// A note that knows what another token knows.
pub(crate) struct Tell;

impl Split<View> for Tell {
    ghost left = { λ v. v };

    ghost right = { received_of };
}

/// A token that knows nothing.
pub(crate) struct Fresh;

impl Split<View> for Fresh {
    ghost left = { λ v. v };

    ghost right = { new_reader };
}

/// A token takes in a note. The spent note knows nothing.
pub(crate) struct Inform;

impl Join<View> for Inform {
    ghost use Rattle.std.specs.Prelude.{[]};

    ghost both = { informed };

    ghost spent = { sees [] [] };
}
