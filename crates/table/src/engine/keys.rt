// Keys written, looked up in a store, and given to it.
ghost use Rattle.std.specs.Prelude.{◌≡◌, ◌+◌, ◌*◌, ◌≤◌, length, vec_len};
ghost use Rattle.rows.specs.Views.{rows_of};
ghost use Rattle.stores.specs.Keys.{key};
ghost use Rattle.stores.specs.Stores.{is_held};
ghost use Rattle.table.specs.Levels.{KeyGiven};
ghost use Rattle.rows.specs.declared.limits.TheConstants.{MOST_ROWS, MOST_VOICES};

use rows::bank::Bank;
use rows::limits::{LONGEST_KEY, MOST_ROWS, MOST_VOICES};
use rows::row::Row;
use sets::ValueSet;
use std::alloc::{AllocError, Global};
use stores::key::write_key;
use stores::store::Store;

// Room for a key, reserved when it is made. It stays filled, since a key is written into a slice.
//
// Each function that borrows the rows requires that they are few, and the store is passed beside them: a struct around
// the two would hold a `&mut` of the table's store, and each function would have to say that it gives the same store
// back.
#[derive(Drop)]
pub(crate) struct KeyBuffer {
    words: Vec<u64>,
    ghost room: { MOST_VOICES + 2 * MOST_ROWS ≤ vec_len words },
}

impl KeyBuffer {
    // Room for the longest key.
    pub(crate) fn new(heap: Global) -> Result<KeyBuffer, AllocError> {
        let words = Vec::from_elem(heap, 0u64, LONGEST_KEY)?;
        Ok(KeyBuffer { words })
    }

    // Whether the store holds the key of these sets. Where it holds none at all, the key is not written.
    pub(crate) fn find<B: Bank, S: Store>(
        &mut self,
        rows: &[Row],
        sets: &[ValueSet],
        store: &S,
    ) -> bool
        requires sets { length sets.now ≤ MOST_VOICES }
        requires rows { length rows.now ≤ MOST_ROWS }
        ensures { result ≡ is_held (key B.Bank.meaning (rows_of rows.now) sets.now)
            (S.Store.behaviour.view (S.Store.state store.now)).held }
    {
        if store.is_empty() {
            return false;
        }
        match write_key::<B>(rows, sets, &mut self.words) {
            Some(n) => store.find(&self.words[..n]),
            None => false,
        }
    }

    // Gives the key of these sets to the store. Where that turns keys of this length away, the key is not written.
    pub(crate) fn give<B: Bank, S: Store>(&mut self, rows: &[Row], sets: &[ValueSet], store: &mut S)
        requires sets { length sets.now ≤ MOST_VOICES }
        requires rows { length rows.now ≤ MOST_ROWS }
        ensures { KeyGiven S.Store.behaviour (S.Store.state store.old)
            (key B.Bank.meaning (rows_of rows.now) sets.now) (S.Store.state store.new) }
    {
        if store.turns_away(sets.len() + 2 * rows.len()) {
            return;
        }
        if let Some(n) = write_key::<B>(rows, sets, &mut self.words) {
            let _ = store.keep(&self.words[..n]);
        }
    }
}
