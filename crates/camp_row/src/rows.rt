//! The shared row of atomic words.
ghost use Rattle.std.specs.Prelude.{◌≡◌, ◌≢◌, ◌+◌, ◌*◌, ◌<◌, ◌≤◌, [], ◌∷◌, ◌++◌, length, map, take, slice_get, Some, IfOk, MatchOption, MatchBool};
ghost use Rattle.std.specs.List.{range_with_len};
ghost use Rattle.camp_row.specs.Inside.Rule.{parent_word, index_word};

use crate::entries::Entry;
use crate::knowledge::{Knowledge, Sizes};
use crate::passes::Pass;
use crate::steps::{
    Advance, DraftIndex, DraftParent, JoinSeats, LoadHead, Publish, RowRule, SplitSeat, Walk,
};
use crate::trails::{Next, Trail};
use atomic_table::{Seat, Table};
use std::alloc::{AllocError, Global};
use std::marker::Model;

/// Atomic words that threads share by reference. Contracts see them as `RowId`.
#[derive(Drop)]
pub struct Row {
    table: Table<(), Knowledge, Sizes, RowRule, Global>,
    seats: u32,
    per_seat: u32,
}

impl Model for Row {
    ghost use Rattle.camp_row.specs.PassState.{RowId};

    ghost Value = { RowId };

    ghost use Rattle.camp_row.specs.Inside.RowFields.{id_of, IsRow};

    ghost view = { id_of };

    ghost invariant = { IsRow };
}

// Returns the index of the word that names the parent of a cell. A row has at most 64 * 65,536 cells.
fn parent_word(cell: usize) -> usize
    requires { cell < 4194304 }
    ensures { result ≡ parent_word cell }
{
    1 + 2 * cell
}

fn index_word(cell: usize) -> usize
    requires { cell < 4194304 }
    ensures { result ≡ index_word cell }
{
    2 + 2 * cell
}

impl Row {
    ghost use Rattle.camp_row.specs.Chains.{entry_count};
    ghost use Rattle.camp_row.specs.Inside.Parts.{all_fresh};
    ghost use Rattle.camp_row.specs.PassState.{most_cells, most_seats, new_pass, FindsChain, IsSound, IsTrail, IsOnChain, IsNextEntry, IsDrafted, with_draft, Won, Lost, OneIsPrefix};

    /// Makes a row without published cells, and a pass for each of its seats, in their order. The row has `1 + 2 *
    /// seats * per_seat` words of eight bytes; twice that is allocated while it is made.
    pub fn new(alloc: Global, seats: u32, per_seat: u32) -> Result<(Row, Vec<Pass>), AllocError>
        requires seats { (0 < seats) × (seats ≤ most_seats) }
        requires per_seat { (0 < per_seat) × (per_seat ≤ most_cells) }
        ensures row { IfOk result (λ made. (made.0.seats ≡ seats) × (made.0.per_seat ≡ per_seat)) }
        ensures passes { IfOk result (λ made. made.1.items ≡ map (new_pass made.0) (range_with_len 0 seats)) }
    {
        let words = vec![in alloc; 0u64; 1 + 2 * (per_seat as usize * seats as usize)]?;
        let (table, all) = Table::of_words(alloc, words.as_slice(), &Sizes { seats, per_seat })?;
        let row = Row {
            table,
            seats,
            per_seat,
        };
        let passes = row.make_passes(alloc, all)?;
        Ok((row, passes))
    }

    // Splits the view of the whole table into one pass for each seat.
    fn make_passes(
        &self,
        alloc: Global,
        mut all: Seat<(), Knowledge>,
    ) -> Result<Vec<Pass>, AllocError>
        requires table { all.table_id ≡ self.now.table }
        requires parts { all.me.0.parts ≡ all_fresh self.now.seats self.now.per_seat }
        ensures { IfOk result (λ passes. passes.items ≡ map (new_pass self.now) (range_with_len 0 self.now.seats)) }
    {
        let mut passes = Vec::with_capacity(alloc, self.seats as usize)?;
        for number in 0..self.seats {
            let seat = self.table.shared.split_seat::<SplitSeat>(&mut all);
            passes.push(Pass {
                seat,
                number,
                published: 0,
                last: 0,
                head: 0,
            })?;
        }
        Ok(passes)
    }

    /// Returns the number of seats, 1 to 64.
    pub fn seats(&self) -> u32
        ensures seats { result ≡ self.now.seats }
        ensures range { (0 < result) × (result ≤ most_seats) }
    {
        self.seats
    }

    /// Returns the number of cells of each seat, 1 to 65,536.
    pub fn per_seat(&self) -> u32
        ensures per_seat { result ≡ self.now.per_seat }
        ensures range { (0 < result) × (result ≤ most_cells) }
    {
        self.per_seat
    }

    /// Loads the head word, by which the pass finds the chain as it is now.
    pub fn find_chain(&self, pass: &mut Pass)
        requires { pass.old.row ≡ self.now }
        ensures finds { FindsChain pass.old pass.new }
    {
        pass.head = self.table.shared.load::<LoadHead>(&mut pass.seat, 0);
    }

    /// Walks back from the end of the chain that the pass found to what it has seen, and returns the cells on the way.
    /// Allocates for each of them.
    pub fn walk(&self, alloc: Global, pass: &mut Pass) -> Result<Trail, AllocError>
        requires { pass.old.row ≡ self.now }
        ensures same { pass.new ≡ pass.old }
        ensures leads { IfOk result (λ trail. IsTrail pass.old pass.old.seen trail) }
    {
        let shared = &self.table.shared;
        let mut cells = Vec::new(alloc);
        let mut word = pass.head;
        while word != pass.last {
            let cell = word as usize - 1;
            cells.push(cell)?;
            word = shared.load::<Walk>(&mut pass.seat, parent_word(cell));
        }
        Ok(Trail { cells })
    }

    /// Removes the next entry from the trail and returns it. The pass has not seen it yet.
    pub fn next(&self, pass: &mut Pass, trail: &mut Trail) -> Option<Next>
        requires row { pass.old.row ≡ self.now }
        requires leads { IsTrail pass.old pass.old.seen trail.old }
        ensures same { pass.new ≡ pass.old }
        ensures next { MatchOption result (pass.old.seen ≡ pass.old.ahead) (λ next. IsNextEntry pass.old next) }
        ensures leads { MatchOption result (trail.new ≡ trail.old) (λ next. IsTrail pass.old (pass.old.seen ++ next.entry ∷ []) trail.new) }
        ensures shorter { MatchOption result (trail.new ≡ trail.old) (λ next. length trail.old ≡ length trail.new + 1) }
    {
        let cell = trail.cells.pop()?;
        let entry = self.entry_of(pass, cell);
        Some(Next { entry, cell })
    }

    /// Returns the entry at an index of the trail, counted from the next one, without marking it as seen.
    pub fn entry_at(&self, pass: &mut Pass, trail: &Trail, index: usize) -> Entry
        requires row { pass.old.row ≡ self.now }
        requires leads { IsTrail pass.old pass.old.seen trail.now }
        requires index { index < length trail.now }
        ensures same { pass.new ≡ pass.old }
        ensures entry { slice_get pass.old.ahead (length pass.old.seen + index) ≡ Some result }
        ensures seat_below { result.seat < self.now.seats }
    {
        let cell = trail.cells[trail.cells.len() - 1 - index];
        self.entry_of(pass, cell)
    }

    // Returns the entry of a cell of the chain that the pass found.
    fn entry_of(&self, pass: &mut Pass, cell: usize) -> Entry
        requires row { pass.old.row ≡ self.now }
        requires on_chain { IsOnChain pass.old cell }
        ensures same { pass.new ≡ pass.old }
        ensures entry { (on_chain : IsOnChain pass.old cell) → result ≡ on_chain.entry }
        ensures seat_below { result.seat < self.now.seats }
        ensures sound { IsSound pass.old }
    {
        let shared = &self.table.shared;
        let index = shared.load::<Walk>(&mut pass.seat, index_word(cell)) as usize;
        let seat = (cell % self.seats as usize) as u32;
        Entry { seat, index }
    }

    /// Marks the next entry as seen by the pass.
    pub fn advance(&self, pass: &mut Pass, next: Next)
        requires row { pass.old.row ≡ self.now }
        requires next { IsNextEntry pass.old next }
        ensures exact { pass.new ≡ record pass.old { seen = pass.old.seen ++ next.entry ∷ [] } }
    {
        let shared = &self.table.shared;
        shared.load::<Advance>(&mut pass.seat, index_word(next.cell));
        pass.last = next.cell as u64 + 1;
    }

    /// Marks the next `count` entries as seen by the pass.
    pub fn advance_by(&self, pass: &mut Pass, trail: &mut Trail, count: usize)
        requires row { pass.old.row ≡ self.now }
        requires leads { IsTrail pass.old pass.old.seen trail.old }
        requires count { count ≤ length trail.old }
        ensures seen { pass.new ≡ record pass.old { seen = take (length pass.old.seen + count) pass.old.ahead } }
        ensures leads { IsTrail pass.new pass.new.seen trail.new }
    {
        for _ in 0..count {
            let Some(next) = self.next(pass, trail) else {
                return;
            };
            self.advance(pass, next);
        }
    }

    // Returns the seat's next cell.
    fn own_cell(&self, pass: &Pass) -> usize
        requires row { pass.now.row ≡ self.now }
        requires room { entry_count pass.now.number pass.now.seen < self.now.per_seat }
        ensures cell { result ≡ entry_count pass.now.number pass.now.seen * self.now.seats + pass.now.number }
        ensures in_row { result < self.now.per_seat * self.now.seats }
        ensures few { result < 4194304 }
    {
        pass.published as usize * self.seats as usize + pass.number as usize
    }

    /// Writes the seat's next cell: as its parent the last cell that the pass has seen, and as its index any number
    /// that the caller gives.
    pub fn draft(&self, pass: &mut Pass, index: usize)
        requires row { pass.old.row ≡ self.now }
        requires room { entry_count pass.old.number pass.old.seen < self.now.per_seat }
        ensures exact { pass.new ≡ with_draft pass.old index }
    {
        let cell = self.own_cell(pass);
        let shared = &self.table.shared;
        shared.store::<DraftParent>(&mut pass.seat, parent_word(cell), pass.last);
        shared.store::<DraftIndex>(&mut pass.seat, index_word(cell), index as u64);
    }

    /// Publishes the drafted cell as the last of the chain by one compare-exchange. True if it succeeded, which it does
    /// exactly if the pass has seen the whole chain; else the pass has now found the longer chain.
    pub fn publish(&self, pass: &mut Pass) -> bool
        requires row { pass.old.row ≡ self.now }
        requires room { entry_count pass.old.number pass.old.seen < self.now.per_seat }
        requires drafted { IsDrafted pass.old }
        ensures exact { MatchBool result (Won pass.old pass.new) (Lost pass.old pass.new) }
    {
        let own = self.own_cell(pass) as u64 + 1;
        let shared = &self.table.shared;
        let found = shared.compare_exchange::<Publish>(&mut pass.seat, 0, pass.last, own);
        if found != pass.last {
            pass.head = found;
            return false;
        }
        pass.published += 1;
        pass.last = own;
        pass.head = own;
        true
    }

    /// Synchronises two passes: afterwards both have found the same chain, which begins with what each of them has
    /// seen.
    pub fn synchronise(&self, a: &mut Pass, b: Pass) -> Pass
        requires { (a.old.row ≡ self.now) × (b.row ≡ self.now) }
        ensures a { FindsChain a.old a.new }
        ensures b { FindsChain b result }
        ensures one_chain { result.ahead ≡ a.new.ahead }
        ensures one_is_prefix { OneIsPrefix a.old b }
        ensures apart { a.old.number ≢ b.number }
    {
        let shared = &self.table.shared;
        shared.join_seat::<JoinSeats>(&mut a.seat, b.seat);
        let head = shared.load::<LoadHead>(&mut a.seat, 0);
        a.head = head;
        let seat = shared.split_seat::<SplitSeat>(&mut a.seat);
        Pass { seat, head, ..b }
    }
}
