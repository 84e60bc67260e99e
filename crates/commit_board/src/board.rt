// The board of committed requests.
ghost use Rattle.std.specs.Prelude.{◌≡◌, ◌≢◌, ◌⊎◌, ℕ, ◌<◌, [], ◌∷◌, ◌++◌, length, map, IfOk};
ghost use Rattle.std.specs.List.{range_with_len};
ghost use mathlib.Core.List.{IsPrefix};
ghost use Rattle.commit_board.specs.Lists.{list_at};
ghost use Rattle.commit_board.specs.Tokens.{writer_of, new_writer, knows};
ghost use Rattle.pg_log.specs.declared.group.TheConstants.{LOG_LIMIT};

use crate::steps::{Add, Compare, Fresh, Inform, Look, Merge, OneRow, Said, Share, Tell};
use crate::tokens::{Note, Seen, Writer};
use crate::view::{Rows, View};
use atomic_table::{Seat, Table};
use pg_log::{NoMemory, Request};
use std::alloc::Global;
use std::marker::{Brand, Model};

/// A word for each row: the length of the row's list. To a contract it is its name, with the number
/// of rows.
pub struct Board {
    table: Table<u8, View, usize, Rows, Global>,
}

// Written out, here and at the tokens, so that a crate that drops one calls this and needn't prove
// again how a table and its seats are dropped.
impl Drop for Board {
    fn drop(self) {
        let Board { table } = self;
        drop(table);
    }
}

impl Model for Board {
    ghost use Rattle.std.specs.Prelude.{◌≡◌, ◌<◌};
    ghost use Rattle.atomic_table.specs.Seated.{TableId};

    ghost Value = { TableId };

    ghost view = { λ b. b.table.shared.table_id };

    ghost invariant = { λ b. (b.table.shared.key ≡ b.table.shared.table_id.words) ×
        (0 < b.table.shared.table_id.words) };
}

impl Board {
    /// A board of `rows` empty rows, the writer of each in order, and a token that knows nothing.
    pub fn new(alloc: Global, rows: usize) -> Result<(Board, Vec<Writer>, Seen), NoMemory>
        requires { 0 < rows }
        ensures rows { IfOk result (λ b. b.0.words ≡ rows) }
        ensures writers { IfOk result (λ b. b.1.items ≡ map (new_writer b.0) (range_with_len 0 rows)) }
        ensures seen { IfOk result (λ b. b.2 ≡ knows b.0 []) }
    {
        let mut writers = Vec::new(alloc);
        writers.reserve(rows)?;
        let words = Vec::from_elem(alloc, 0u64, rows)?;
        let (table, mut seat) = Table::of_words(alloc, words.as_slice(), &rows)?;
        for row in 0..rows {
            writers.push_reserved(Writer {
                row,
                seat: table.shared.split_seat::<OneRow>(&mut seat),
            });
        }
        let seen = Seen {
            seat: table.shared.split_seat::<Fresh>(&mut seat),
        };
        Ok((Board { table }, writers, seen))
    }

    /// Adds the request to the writer's list, by one atomic addition to its row's word.
    pub fn commit(&self, writer: &mut Writer, request: &Request)
        requires board { writer.old.board ≡ self.now }
        requires room { length writer.old.list < LOG_LIMIT }
        ensures { writer.new ≡ writer_of writer.old.board writer.old.row (writer.old.list ++ request.now ∷ []) }
    {
        self.commit_said::<Brand>(writer, request);
    }

    fn commit_said<J: Said>(&self, writer: &mut Writer, request: &Request)
        requires said { J.request ≡ request.now }
        requires board { writer.old.board ≡ self.now }
        requires room { length writer.old.list < LOG_LIMIT }
        ensures { writer.new ≡ writer_of writer.old.board writer.old.row (writer.old.list ++ request.now ∷ []) }
    {
        self.table
            .shared
            .fetch_add::<Add<J>>(&mut writer.seat, writer.row, 1);
    }

    /// Loads the row's word: the length of the beginning of the row's list that the token then
    /// knows, which begins with what it knew.
    pub fn look(&self, seen: &mut Seen, row: usize) -> u64
        requires board { seen.old.board ≡ self.now }
        requires row { row < self.now.words }
        ensures board { seen.new.board ≡ seen.old.board }
        ensures length { result ≡ length (list_at seen.new.lists row) }
        ensures row { IsPrefix (list_at seen.old.lists row) (list_at seen.new.lists row) }
        ensures others { (i : ℕ) → i ≢ row → list_at seen.new.lists i ≡ list_at seen.old.lists i }
    {
        self.table.shared.load::<Look>(&mut seen.seat, row)
    }

    /// A token that knows nothing.
    pub fn fresh(&self, seen: &mut Seen) -> Seen
        requires { seen.old.board ≡ self.now }
        ensures new { result ≡ knows self.now [] }
        ensures same { seen.new ≡ seen.old }
    {
        Seen {
            seat: self.table.shared.split_seat::<Fresh>(&mut seen.seat),
        }
    }

    /// A note that knows the writer's list, and nothing of the other rows.
    pub fn share(&self, writer: &mut Writer) -> Note
        requires { writer.old.board ≡ self.now }
        ensures board { result.board ≡ self.now }
        ensures row { list_at result.lists writer.old.row ≡ writer.old.list }
        ensures others { (i : ℕ) → i ≢ writer.old.row → list_at result.lists i ≡ [] }
        ensures same { writer.new ≡ writer.old }
    {
        Note {
            seat: self.table.shared.split_seat::<Share>(&mut writer.seat),
        }
    }

    /// A note that knows what the token knows.
    pub fn tell(&self, seen: &mut Seen) -> Note
        requires { seen.old.board ≡ self.now }
        ensures new { result ≡ seen.old }
        ensures same { seen.new ≡ seen.old }
    {
        Note {
            seat: self.table.shared.split_seat::<Tell>(&mut seen.seat),
        }
    }

    /// The token knows of each row the longer of what it knew and what the note knew, which begins
    /// with both. The note is spent.
    pub fn meet(&self, seen: &mut Seen, note: Note)
        requires seen { seen.old.board ≡ self.now }
        requires note { note.board ≡ self.now }
        ensures board { seen.new.board ≡ seen.old.board }
        ensures known { (i : ℕ) → IsPrefix (list_at seen.old.lists i) (list_at seen.new.lists i) }
        ensures received { (i : ℕ) → IsPrefix (list_at note.lists i) (list_at seen.new.lists i) }
        ensures either { (i : ℕ) → (list_at seen.new.lists i ≡ list_at seen.old.lists i) ⊎
            (list_at seen.new.lists i ≡ list_at note.lists i) }
    {
        self.take_in(seen, note);
    }

    fn take_in(&self, seen: &mut Seen, note: Note)
        requires seen { seen.old.board ≡ self.now }
        requires note { note.board ≡ self.now }
        ensures board { seen.new.board ≡ seen.old.board }
        ensures known { (i : ℕ) → IsPrefix (list_at seen.old.lists i) (list_at seen.new.lists i) }
        ensures received { (i : ℕ) → IsPrefix (list_at note.lists i) (list_at seen.new.lists i) }
        ensures either { (i : ℕ) → (list_at seen.new.lists i ≡ list_at seen.old.lists i) ⊎
            (list_at seen.new.lists i ≡ list_at note.lists i) }
    {
        let Note { seat } = note;
        self.table.shared.join_seat::<Inform>(&mut seen.seat, seat);
        self.table.shared.load::<Merge>(&mut seen.seat, 0);
    }

    /// The list that the token knows of the writer's row is a beginning of the writer's list.
    /// Nothing changes.
    pub fn compare(&self, writer: &mut Writer, seen: &mut Seen)
        requires writer { writer.old.board ≡ self.now }
        requires seen { seen.old.board ≡ self.now }
        ensures begins { IsPrefix (list_at seen.old.lists writer.old.row) writer.old.list }
        ensures same { (writer.new ≡ writer.old) × (seen.new ≡ seen.old) }
    {
        let seat = self.table.shared.split_seat::<Tell>(&mut seen.seat);
        self.table
            .shared
            .join_seat::<Inform>(&mut writer.seat, seat);
        self.table
            .shared
            .load::<Compare>(&mut writer.seat, writer.row);
    }
}
