// The calls.
ghost use Rattle.std.specs.Prelude.{◌≡◌, ◌≢◌, ℕ, ◌+◌, ◌*◌, ◌≤◌, ◌<◌, ◌∷◌, [], false, length, slice_index, Contains, IfOk, MatchBool, Some, None};
ghost use Rattle.seat_laws.specs.declared.TheConstants.{WHOLE_SHARE};
ghost use Rattle.nogood_pool.specs.Pool.{IsPoolRow, AreShort, content, content_of_row, held_row, first_view, pool_word_at};
ghost use Rattle.nogood_pool.specs.declared.view.Content.{Content};
ghost use Rattle.nogood_pool.specs.PoolSteps.{ReadsTag, after_count, after_draw, after_miss, after_publish, writing_at, after_read};
ghost use Rattle.nogood_pool.specs.Seats.{view_of, instance_seen, IsSeatOf, IsSameSeat, Loads, SeatPublishes, SeatReads, Gets};

use crate::plays::{Count, Draw, ReadLiteral, ReadTag, StoreLiteral, StoreTag};
use crate::seat::{Pool, PoolSeat};
use crate::view::{Key, PoolView};
use crate::words::{row_from, row_of, word_of};
use atomic_table::{Seat, Table};
use fapp_model::{Instance, Literal, NoMemory, Tag};
use nogood::{Published, Row};
use std::alloc::Global;
use std::snapshot::Snapshot;

impl PoolSeat {
    /// Its part of the whole share, 2^32.
    pub fn share(&self) -> u64
        ensures { result ≡ (view_of self.now).share }
    {
        self.share
    }
}

impl Pool {
    /// How many rows the pool has. No step is made.
    pub fn rows(&self) -> u32
        ensures { result ≡ self.now.rows }
    {
        self.rows
    }

    /// How many rows were drawn, at most the number of rows, by one load of the counter.
    pub fn count(&self, seat: &mut PoolSeat) -> u64
        requires { IsSeatOf self.now seat.old }
        ensures same { IsSameSeat seat.old seat.new }
        ensures view { view_of seat.new ≡ after_count (view_of seat.old) result }
        ensures found { Loads (view_of seat.old) result }
        ensures few { result ≤ self.now.rows }
    {
        self.load_counter(seat)
    }

    /// One load of the counter.
    fn load_counter(&self, seat: &mut PoolSeat) -> u64
        requires { IsSeatOf self.now seat.old }
        ensures same { IsSameSeat seat.old seat.new }
        ensures view { view_of seat.new ≡ after_count (view_of seat.old) result }
        ensures found { Loads (view_of seat.old) result }
    {
        let found = self.table.shared.load::<Count>(&mut seat.seat, 0);
        seat.counter = found;
        found
    }

    /// One exchange of the counter. It draws the row, or answers what it found.
    fn draw(&self, seat: &mut Seat<Row, PoolView>, next: u64, said: &Row) -> u64
        requires table { seat.old.table_id ≡ self.now.table.shared.table_id }
        requires idle { (seat.old.me.1 ≡ []) × (seat.old.me.0.spent ≡ false)
            × (seat.old.me.0.writing ≡ None) }
        requires row { (next < self.now.rows)
            × IsPoolRow (instance_seen self.now) (content_of_row said.now)
            × AreShort (content_of_row said.now).lits }
        ensures same { (seat.new.table_id ≡ seat.old.table_id) × (seat.new.id ≡ seat.old.id)
            × (seat.new.me.1 ≡ []) }
        ensures hit { result ≡ next → seat.new.me.0
            ≡ after_draw seat.old.me.0 next (content_of_row said.now) }
        ensures miss { result ≢ next → seat.new.me.0 ≡ after_miss seat.old.me.0 next result }
        ensures most { (seat.old.me.0.counter ≤ result) × (result ≤ seat.old.me.0.rows) }
        ensures alone { seat.old.me.0.share ≡ WHOLE_SHARE → result ≡ seat.old.me.0.counter }
    {
        self.table
            .shared
            .compare_exchange_with::<Draw>(seat, 0, next, next + 1, said)
    }

    /// Stores the literals of the row that was drawn, and then its tag.
    fn write_row(&self, seat: &mut Seat<Row, PoolView>, row: usize, said: &Row)
        requires table { seat.old.table_id ≡ self.now.table.shared.table_id }
        requires idle { (seat.old.me.1 ≡ []) × (seat.old.me.0.spent ≡ false) }
        requires row { (row < self.now.rows)
            × (seat.old.me.0.writing ≡ Some (record {
              row = row;
              content = content_of_row said.now;
              stored = 0;
            })) }
        requires said { AreShort (content_of_row said.now).lits
            × (length (content_of_row said.now).lits ≡ said.now.len) }
        ensures same { (seat.new.table_id ≡ seat.old.table_id) × (seat.new.id ≡ seat.old.id)
            × (seat.new.me.1 ≡ []) }
        ensures view { seat.new.me.0 ≡ after_publish seat.old.me.0 row (content_of_row said.now) }
    {
        for k in 0..usize::from(said.len) {
            let word = word_of(said.lits[k]);
            self.table
                .shared
                .store::<StoreLiteral>(seat, 1 + 9 * row + (1 + k), word);
        }
        self.table
            .shared
            .store::<StoreTag>(seat, 1 + 9 * row, said.tag.code);
    }

    /// Offers literals that are implied at a tag above (0, 0, 0), with one try. `Home` is the
    /// number of the row that holds them from then on; it is above every row that the seat
    /// published, got or was given before. `TooLong` comes exactly where there are more than 8
    /// literals, and then no step was made. `Full(n)` comes exactly where the counter was read as
    /// n, no less than the number of rows. `Busy` comes exactly where the counter was read as
    /// `read` and the one exchange found `seen` in its place; never for a seat with the whole
    /// share.
    pub fn publish(&self, seat: &mut PoolSeat, lits: &[Literal], tag: Tag) -> Published
        requires own { IsSeatOf self.now seat.old }
        requires row { IsPoolRow (instance_seen self.now) (content lits.now tag.code) }
        ensures same { IsSameSeat seat.old seat.new }
        ensures published { SeatPublishes (view_of seat.old) lits.now tag.code result
            (view_of seat.new) }
    {
        let Some(said) = row_of(lits, tag) else {
            return Published::TooLong;
        };
        let next = self.load_counter(seat);
        if next >= u64::from(self.rows) {
            return Published::Full(next);
        }
        let found = self.draw(&mut seat.seat, next, &said);
        if found != next {
            seat.counter = found;
            return Published::Busy {
                read: next,
                seen: found,
            };
        }
        seat.counter = next + 1;
        self.write_row(&mut seat.seat, next as usize, &said);
        Published::Home(next as u32)
    }

    /// One load of a tag word. Where it is not 0 the row is then seen.
    fn load_tag(&self, seat: &mut Seat<Row, PoolView>, row: usize) -> u64
        requires table { seat.old.table_id ≡ self.now.table.shared.table_id }
        requires idle { (seat.old.me.1 ≡ []) × (seat.old.me.0.spent ≡ false) }
        requires row { row < self.now.rows }
        ensures same { (seat.new.table_id ≡ seat.old.table_id) × (seat.new.id ≡ seat.old.id)
            × (seat.new.me.1 ≡ []) }
        ensures read { ReadsTag seat.old.me.0 row result seat.new.me.0 }
    {
        self.table.shared.load::<ReadTag>(seat, 1 + 9 * row)
    }

    /// The literal words of a row that was seen.
    fn load_words(&self, seat: &mut Seat<Row, PoolView>, row: usize) -> [u64; 8]
        requires table { seat.old.table_id ≡ self.now.table.shared.table_id }
        requires idle { (seat.old.me.1 ≡ []) × (seat.old.me.0.spent ≡ false) }
        requires row { row < self.now.rows }
        ensures same { (seat.new.table_id ≡ seat.old.table_id) × (seat.new.id ≡ seat.old.id)
            × (seat.new.me ≡ seat.old.me) }
        ensures words { (c : Content) → Contains seat.old.me.0.seen (held_row row c) → (i : ℕ) →
            i < 8 → slice_index result i ≡ pool_word_at c.lits i }
    {
        let mut words = [0u64; 8];
        for k in 0..8 {
            words[k] = self
                .table
                .shared
                .load::<ReadLiteral>(seat, 1 + 9 * row + (1 + k));
        }
        words
    }

    /// Loads the tag word of a row, and then its literals.
    fn read(&self, seat: &mut PoolSeat, row: u32) -> Option<Row>
        requires own { IsSeatOf self.now seat.old }
        requires row { row < self.now.rows }
        ensures same { IsSameSeat seat.old seat.new }
        ensures read { SeatReads (view_of seat.old) row result (view_of seat.new) }
    {
        let code = self.load_tag(&mut seat.seat, row as usize);
        if code == 0 {
            return None;
        }
        let words = self.load_words(&mut seat.seat, row as usize);
        Some(row_from(&words, Tag { code }))
    }

    /// The content of a row, for good, once it has one: literals of the instance, ascending by
    /// path, that are implied at its tag. None comes exactly where the row's tag word was 0 at this
    /// call's load of it; never for a row that the seat published, got or was given. Where the row
    /// is not below the counter that the seat saw last, the counter is loaded first.
    pub fn get(&self, seat: &mut PoolSeat, row: u32) -> Option<Row>
        requires own { IsSeatOf self.now seat.old }
        requires row { row < self.now.rows }
        ensures same { IsSameSeat seat.old seat.new }
        ensures gets { Gets (view_of seat.old) row result (view_of seat.new) }
    {
        if u64::from(row) >= seat.counter {
            self.load_counter(seat);
        }
        self.read(seat, row)
    }
}
