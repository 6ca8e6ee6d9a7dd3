// A table: its voices and rows, and a search for their least lawful placing.
ghost use Rattle.std.specs.Prelude.{◌≡◌, ◌+◌, ◌<◌, ◌≤◌, not, ◌||◌, length, nat_le, nat_lt, take, vec_items, vec_len, vec_capacity, IfOk, OnErr};
ghost use Rattle.rows.specs.Bytes.{total_bytes};
ghost use Rattle.rows.specs.Views.{rows_of};
ghost use Rattle.rows.specs.Placed.{Ready, ready_once};
ghost use Rattle.search.specs.Calls.{Call, Answer, over};
ghost use Rattle.table.specs.Searches.{voice_count, outcome_of};
ghost use Rattle.rows.specs.declared.limits.TheConstants.{MOST_BYTES, MOST_ROWS, MOST_VOICES};

use crate::engine::state::Search;
use crate::engine::values::write_values;
use crate::outcome::Outcome;
use crate::refusal::Refusal;
use rows::bank::Bank;
use rows::limits::{MOST_BUDGET, MOST_BYTES, MOST_OPENED, MOST_ROWS, MOST_VOICES};
use rows::reading::accept_bytes;
use rows::row::Row;
use sets::ValueSet;
use std::alloc::{AllocError, Global};
use std::marker::PhantomData;
use stores::store::Store;

/// Voices, each with its opening set of values; rows over the bank `B`, each a rule that some voices obey; and a search
/// for the least placing that obeys them all, which keeps the keys of failed nodes in the store `S`.
///
/// All memory is reserved by `make`, so no later call can lack any. A call that is refused leaves voices, rows, search
/// and store as they were.
#[derive(Drop)]
pub struct Table<B: Bank, S: Store> {
    bank: PhantomData<B>,
    store: S,
    // the opening sets of the voices
    voices: Vec<ValueSet>,
    // memory for the rows and one more, which bytes are read into: the first `posted` are the table's (counted beside,
    // since no call after `make` may allocate)
    rows: Vec<Row>,
    posted: usize,
    // how many bytes the table's rows have together
    bytes: usize,
    search: Search,
    ghost few: { vec_len voices ≤ MOST_VOICES },
    ghost room: { MOST_VOICES ≤ vec_capacity voices },
    ghost searched: { voice_count search ≡ vec_len voices },
    ghost within: { posted ≤ MOST_ROWS },
    ghost spare: { MOST_ROWS < vec_len rows },
    ghost short: { bytes ≤ MOST_BYTES },
    ghost weighed: { total_bytes (rows_of (take posted rows.items)) ≡ bytes },
    // the bank accepts each row with as many voices as there are, and no opening set is empty
    ghost ready: { Ready B.Bank.meaning (rows_of (take posted rows.items))
        (vec_items voices) } by { ready_once B.Bank.meaning
            (rows_of (take posted rows.items)) (vec_items voices) },
}

// Memory for the rows, and one more.
fn make_rows(heap: Global) -> Result<Vec<Row>, AllocError>
    ensures { IfOk result (λ rows. vec_len rows ≡ MOST_ROWS + 1) }
{
    let mut rows = Vec::with_capacity(heap, MOST_ROWS + 1)?;
    for _ in 0..MOST_ROWS + 1 {
        rows.push_reserved(Row::new(heap, 0)?);
    }
    Ok(rows)
}

impl<B: Bank, S: Store + Drop> Table<B, S> {
    ghost use Rattle.table.specs.Shown.{Begins};

    /// A table with no voices and no rows over this store, which it empties. It fails only where memory is short.
    pub fn make(heap: Global, store: S) -> Result<Table<B, S>, AllocError>
        ensures { IfOk result (λ t. Begins (S.Store.state store) t) }
    {
        let voices = Vec::with_capacity(heap, MOST_VOICES)?;
        let rows = make_rows(heap)?;
        let search = Search::new(heap)?;
        let mut emptied = store;
        emptied.clear();
        Ok(Table {
            bank: PhantomData,
            store: emptied,
            voices,
            rows,
            posted: 0,
            bytes: 0,
            search,
        })
    }
}

impl<B: Bank, S: Store> Table<B, S> {
    ghost use Rattle.table.specs.Shown.{model, rows_in, found_in, CallDone, CallExtends, done_answer, solve_answer, read_answer, LeftAlone};

    /// Adds a voice with this opening set; voices are numbered from 0 in the order in which they are declared. The store
    /// is emptied, and the search begins again.
    ///
    /// Refused where the set is empty or there are as many voices as there can be.
    pub fn declare(&mut self, set: ValueSet) -> Result<(), Refusal>
        ensures does { CallDone self.old (Call.declare set) (done_answer result) self.new }
        ensures history { CallExtends self.old (Call.declare set) (done_answer result) self.new }
        ensures refused { OnErr result (self.new ≡ self.old) }
    {
        if set == 0 {
            return Err(Refusal::EmptySet);
        }
        let voices = self.voices.len();
        if voices >= MOST_VOICES {
            return Err(Refusal::VoicesFull);
        }
        self.voices.push_reserved(set);
        self.search.restart(voices + 1);
        self.store.clear();
        Ok(())
    }

    // Whether there is room for one row more, of so many bytes.
    fn has_room(&self, bytes: usize) -> bool
        ensures { result ≡ not (nat_le MOST_ROWS (length (rows_in self.now))
            || nat_lt MOST_BYTES (total_bytes (rows_in self.now) + bytes)) }
    {
        if self.posted >= MOST_ROWS {
            return false;
        }
        bytes <= MOST_BYTES - self.bytes
    }

    /// Adds a row, read from its bytes. The store is emptied, and the search begins again.
    ///
    /// Refused where the bytes are no row of a kind that the bank has, where that kind does not accept the row over the
    /// voices that there are, and where there is no room for it.
    pub fn post(&mut self, bytes: &[u8]) -> Result<(), Refusal>
        ensures does { CallDone self.old (Call.post bytes.now) (done_answer result) self.new }
        ensures history { CallExtends self.old (Call.post bytes.now) (done_answer result) self.new }
        ensures refused { OnErr result (self.new.store ≡ self.old.store) }
    {
        let voices = self.voices.len();
        accept_bytes::<B>(bytes, voices, &mut self.rows[self.posted])?;
        if !self.has_room(bytes.len()) {
            return Err(Refusal::RowsFull);
        }
        self.posted += 1;
        self.bytes += bytes.len();
        self.search.restart(voices);
        self.store.clear();
        Ok(())
    }

    /// Drops all voices and rows. The store is emptied, and the search begins again.
    pub fn wipe(&mut self)
        ensures does { CallDone self.old Call.wipe Answer.done self.new }
        ensures history { CallExtends self.old Call.wipe Answer.done self.new }
    {
        self.voices.clear();
        self.posted = 0;
        self.bytes = 0;
        self.search.restart(0);
        self.store.clear();
    }

    /// Goes on with the search until it is over or `budget` nodes are opened. What was found is read by
    /// `read`. Where the search is over already, it opens no node and returns the same outcome again.
    ///
    /// Refused where the budget is not 1 to 1,000,000, and where the search could open more nodes than it may.
    pub fn solve(&mut self, budget: u64) -> Result<Outcome, Refusal>
        ensures does { CallDone self.old (Call.solve budget)
            (solve_answer result (found_in self.new)) self.new }
        ensures history { CallExtends self.old (Call.solve budget)
            (solve_answer result (found_in self.new)) self.new }
        ensures refused { OnErr result (self.new ≡ self.old) }
        ensures onward { (model self.old).opened ≤ (model self.new).opened }
        ensures budget { (model self.new).opened ≤ (model self.old).opened + budget }
    {
        if budget == 0 || budget > MOST_BUDGET {
            return Err(Refusal::BudgetRange);
        }
        if self.is_over() {
            return Ok(self.search.outcome());
        }
        if self.opened() + budget > MOST_OPENED {
            return Err(Refusal::NodesSpent);
        }
        self.search.run::<B, S>(
            &self.rows[..self.posted],
            &self.voices,
            budget,
            &mut self.store,
        );
        Ok(self.search.outcome())
    }

    // Whether the search is over.
    fn is_over(&self) -> bool
        ensures { result ≡ over (model self.now).status }
    {
        self.search.is_over()
    }

    /// How many nodes the search has opened since it last began.
    pub fn opened(&self) -> u64
        ensures { result ≡ (model self.now).opened }
    {
        self.search.opened()
    }

    /// How many nodes were exhausted since the search last began: all their children failed.
    pub fn exhausted(&self) -> u64
        ensures { result ≡ (model self.now).exhausted }
    {
        self.search.exhausted()
    }

    /// What the search has come to so far; it opens no node.
    pub fn outcome(&self) -> Outcome
        ensures { result ≡ outcome_of (model self.now).status }
    {
        self.search.outcome()
    }

    /// Writes the values that were found at the front of `out`, one byte a voice, and returns how many; bytes beyond
    /// them stay.
    ///
    /// Refused where nothing was found, and where `out` is shorter than what was found; then `out` stays as it was.
    pub fn read(&self, out: &mut [u8]) -> Result<usize, Refusal>
        ensures does { CallDone self.now (Call.read out.old) (read_answer result out.new) self.now }
        ensures history { CallExtends self.now (Call.read out.old)
            (read_answer result out.new) self.now }
        ensures buffer { LeftAlone result out.old out.new }
    {
        match self.search.outcome() {
            Outcome::Found => {}
            Outcome::Stopped | Outcome::None => return Err(Refusal::NothingFound),
        }
        let sets = self.search.sets();
        if out.len() < sets.len() {
            return Err(Refusal::ShortBuffer);
        }
        write_values(sets, out);
        Ok(sets.len())
    }

    /// The opening sets of the voices, in order.
    pub fn voices(&self) -> &[ValueSet]
        ensures value { result.now ≡ (model self.now).voices }
        ensures bound { length result.now ≤ MOST_VOICES }
    {
        &self.voices
    }

    /// The rows, in the order in which they were posted.
    pub fn rows(&self) -> &[Row]
        ensures { rows_of result.now ≡ rows_in self.now }
    {
        &self.rows[..self.posted]
    }

    /// How many bytes the rows have together.
    pub fn row_bytes(&self) -> usize
        ensures value { result ≡ total_bytes (rows_in self.now) }
        ensures bound { result ≤ MOST_BYTES }
    {
        self.bytes
    }
}
