// The rows of an example, and what follows from them: narrowed sets, traces, keys, keys found in a store, searches.
use kinds::FourKinds;
use rows::bank::Bank;
use rows::row::Row;
use rows::trace::Trace;
use search::propagation::propagate;
use sets::{ValueSet, single};
use std::alloc::{AllocError, Global};
use stores::key::write_key;
use stores::shelf::Shelf;
use stores::store::{Store, Stored};
use table::Table;
use table::outcome::Outcome;

// The most words of a key, the words of a shelf, the most nodes of a search: each more than any example needs.
const MOST_KEY_WORDS: usize = 64;

const SHELF_WORDS: usize = 256;

const BUDGET: u64 = 100;

// The content of an open linear row whose fixed members add up to 0.
const CONTENT_OF_ZERO: i64 = 4_000_000;

// The values of a set. A voice with one value is fixed to it.
pub(crate) fn set(values: &[u32]) -> ValueSet {
    values.iter().fold(0, |set, value| set | single(*value))
}

// The rows of an example, over so many voices.
#[derive(Drop)]
pub(crate) struct Problem {
    voices: usize,
    rows: Vec<Row>,
}

impl Problem {
    // No rows yet.
    pub(crate) fn new(heap: Global, voices: usize) -> Problem {
        Problem {
            voices,
            rows: Vec::new(heap),
        }
    }

    // Adds a row; an error where its kind refuses it.
    pub(crate) fn push(&mut self, row: Row) -> anyhow::Result<()> {
        FourKinds::accept(&row, self.voices)?;
        self.rows.push(row)?;
        Ok(())
    }

    // The rows, in the order in which they were added.
    pub(crate) fn rows(&self) -> &[Row] {
        &self.rows
    }

    // What propagation leaves of the sets.
    pub(crate) fn narrowed(
        &self,
        heap: Global,
        sets: &[ValueSet],
    ) -> Result<Vec<ValueSet>, AllocError> {
        let mut left = sets.to_vec(heap)?;
        propagate::<FourKinds>(&self.rows, &mut left);
        Ok(left)
    }

    // The row's trace.
    pub(crate) fn trace(&self, row: usize, sets: &[ValueSet]) -> Option<Trace> {
        self.rows.get(row).map(|row| FourKinds::trace(row, sets))
    }

    // What the fixed voices leave of a linear row's bound to the open ones: the bound less their sum, which is the
    // content less its offset. None where the row is settled.
    pub(crate) fn room(&self, row: usize, bound: i64, sets: &[ValueSet]) -> Option<i64> {
        match self.trace(row, sets)? {
            Trace::Settled => None,
            Trace::Open(content) => {
                let sum = i64::try_from(content).ok()?.checked_sub(CONTENT_OF_ZERO)?;
                bound.checked_sub(sum)
            }
        }
    }

    // Whether propagation leaves just this of the sets.
    pub(crate) fn narrows_to(
        &self,
        heap: Global,
        sets: &[ValueSet],
        left: &[ValueSet],
    ) -> Result<bool, AllocError> {
        Ok(self.narrowed(heap, sets)?.as_slice() == left)
    }

    // The key of the sets.
    fn key(&self, heap: Global, sets: &[ValueSet]) -> Result<Vec<u64>, AllocError> {
        let mut words = Vec::from_elem(heap, 0u64, MOST_KEY_WORDS)?;
        let length = write_key::<FourKinds>(&self.rows, sets, &mut words).unwrap_or(0);
        words.truncate(length);
        Ok(words)
    }

    // Whether this is the key of the sets.
    pub(crate) fn has_key(
        &self,
        heap: Global,
        sets: &[ValueSet],
        key: &[u64],
    ) -> Result<bool, AllocError> {
        Ok(self.key(heap, sets)?.as_slice() == key)
    }

    // Whether the two lists of sets have the same key.
    pub(crate) fn is_one_key(
        &self,
        heap: Global,
        first: &[ValueSet],
        second: &[ValueSet],
    ) -> Result<bool, AllocError> {
        self.has_key(heap, first, &self.key(heap, second)?)
    }

    // Whether a store that has kept the key of the first sets finds that of the second. None where it does not keep it.
    pub(crate) fn finds(
        &self,
        heap: Global,
        first: &[ValueSet],
        second: &[ValueSet],
    ) -> Result<Option<bool>, AllocError> {
        let mut words = [0u64; SHELF_WORDS];
        let mut shelf = Shelf::new(&mut words);
        Ok(match shelf.keep(&self.key(heap, first)?) {
            Stored::Kept => Some(shelf.find(&self.key(heap, second)?)),
            Stored::Lost => None,
        })
    }
}

// The end of a search.
#[derive(Clone, Copy, PartialEq, Eq)]
pub(crate) struct Searched {
    pub(crate) outcome: Outcome,
    pub(crate) opened: u64,
    pub(crate) exhausted: u64,
    // the found values of up to five voices; 0 where nothing is found
    pub(crate) values: [u8; 5],
}

// Posts the rows, each as bytes.
fn post_rows<S: Store>(
    heap: Global,
    table: &mut Table<FourKinds, S>,
    rows: &[Row],
) -> anyhow::Result<()> {
    for row in rows {
        let bytes = row.to_bytes(heap)?;
        table.post(&bytes)?;
    }
    Ok(())
}

// A table of these voices and rows, at most five voices, searched over this store.
pub(crate) fn search_over<S: Store + Drop>(
    heap: Global,
    store: S,
    opening: &[ValueSet],
    rows: &[Row],
) -> anyhow::Result<Searched> {
    let mut table: Table<FourKinds, S> = Table::make(heap, store)?;
    for set in opening {
        table.declare(*set)?;
    }
    post_rows(heap, &mut table, rows)?;
    let outcome = table.solve(BUDGET)?;
    let mut values = [0u8; 5];
    if outcome == Outcome::Found {
        table.read(&mut values)?;
    }
    Ok(Searched {
        outcome,
        opened: table.opened(),
        exhausted: table.exhausted(),
        values,
    })
}
