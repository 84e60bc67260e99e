//! Laws of legal lists, of their objects and of their replies, for the proofs of the crates above.
//! Each function does nothing.
ghost use Rattle.std.specs.Prelude.{◌≡◌};
ghost use Rattle.pg_log.specs.declared.group.TheConstants.{LOG_LIMIT};
ghost use Rattle.pg_log.specs.Laws.{BeginningsAreLegal, EmptyIsLegal, AppendIsAStep, FoldIsAStep, FoldGoesOn};
ghost use Rattle.pg_log.specs.Laws.{FoldsStay, UndoingGoesBack, RepliesStay, LastReply, RepliesAreThere};
ghost use Rattle.pg_log.specs.Laws.{EntriesHaveReplies, PairsStandOnce, PlaceIsThePairs, PlaceHasThePair, ClassesAdded};
ghost use Rattle.pg_log.specs.Laws.{RefusalsAreExact, ListsAreExact, AdoptingIsReplaying};

/// Every beginning of a legal list is legal, the empty list too; a list with one request more is
/// legal exactly if the list is and the request may follow it.
pub fn legal_lists()
    ensures beginnings { BeginningsAreLegal }
    ensures empty { EmptyIsLegal }
    ensures append { AppendIsAStep }
{}

/// The objects of a list: with one request more those after that request, of a longer list those of
/// the rest from those of the beginning, and of a beginning the same whatever follows.
pub fn folds()
    ensures step { FoldIsAStep }
    ensures on { FoldGoesOn }
    ensures stay { FoldsStay }
{}

/// Undoing the last entry's change gives the objects of the list before it.
pub fn undoing()
    ensures { UndoingGoesBack }
{}

/// The replies of a list: one at each place, that of the last request on the objects before it, and
/// the same whatever follows. Code and output of a log's entry are the reply of its place.
pub fn replies()
    ensures there { RepliesAreThere }
    ensures last { LastReply }
    ensures stay { RepliesStay }
    ensures entries { EntriesHaveReplies }
{}

/// A pair of client and number is at most once in a legal list, and `place_of` gives its place,
/// which is in range.
pub fn pairs()
    ensures once { PairsStandOnce }
    ensures place { PlaceIsThePairs }
    ensures there { PlaceHasThePair }
{}

/// A table with classes added makes the same of a legal list.
pub fn classes_added()
    ensures { ClassesAdded }
{}

/// A request may follow a list exactly if nothing refuses it, and a list is legal exactly if none
/// of its requests is refused.
pub fn refusals()
    ensures requests { RefusalsAreExact }
    ensures lists { ListsAreExact }
{}

/// A log that is legal by the table becomes a list exactly as the list would be replayed, though
/// only its rest is run.
pub fn adopting()
    ensures { AdoptingIsReplaying }
{}

/// The most entries of a log, by number.
pub fn log_limit_by_number()
    ensures { LOG_LIMIT ≡ 65536 }
{}
