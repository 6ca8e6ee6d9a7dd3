// The levels of a search, as a stack.
ghost use Rattle.std.specs.Prelude.{◌≡◌, ◌+◌, ◌*◌, ◌<◌, ◌≤◌, false, ◌∷◌, length, slice_index, vec_items, vec_len, vec_capacity, IfOk};
ghost use Rattle.sets.specs.Placings.{Proper};
ghost use Rattle.rows.specs.Views.{rows_of};
ghost use Rattle.search.specs.Search.{below};
ghost use Rattle.table.specs.Levels.{Voiced, Backed, no_levels, is_spent, newest_sets, without_newest, next_sets, next_levels};
ghost use Rattle.rows.specs.declared.limits.TheConstants.{MOST_VOICES};

use crate::engine::keys::KeyBuffer;
use crate::engine::level::LevelRecord;
use rows::bank::Bank;
use rows::limits::{MOST_ROWS, MOST_VOICES};
use rows::row::Row;
use sets::{ValueSet, single};
use std::alloc::{AllocError, Global};
use stores::store::Store;

// The sets of all levels.
const TRAIL: usize = MOST_VOICES * MOST_VOICES;

// The levels, the newest last. A level's record and its sets lie in two vectors, since a vector for each level would
// have to be reserved 80 times. Each method says that it keeps `width`, which no ghost field can say.
#[derive(Drop)]
pub(crate) struct Levels {
    // how many sets a level has: one for each voice
    width: usize,
    // the sets of all levels, one level's behind the other's
    trail: Vec<ValueSet>,
    // the levels without their sets
    records: Vec<LevelRecord>,
    ghost narrow: { width ≤ MOST_VOICES },
    ghost broad: { MOST_VOICES * MOST_VOICES ≤ vec_capacity trail },
    ghost room: { MOST_VOICES ≤ vec_capacity records },
    ghost whole: { vec_len trail ≡ vec_len records * width },
    ghost deep: { vec_len records ≤ width },
    ghost voiced: { Voiced width (vec_items records) },
    // no level has an empty set
    ghost proper: { Proper (vec_items trail) },
}

impl Levels {
    ghost use Rattle.table.specs.Stacks.{levels_in, Cleared};

    // No levels, for no voices.
    pub(crate) fn new(heap: Global) -> Result<Levels, AllocError>
        ensures { IfOk result (λ l. Cleared 0 l) }
    {
        let trail = Vec::with_capacity(heap, TRAIL)?;
        let records = Vec::with_capacity(heap, MOST_VOICES)?;
        Ok(Levels {
            width: 0,
            trail,
            records,
        })
    }

    // Drops all levels; those to come have this many sets.
    pub(crate) fn restart(&mut self, width: usize)
        requires { width ≤ MOST_VOICES }
        ensures { Cleared width self.new }
    {
        self.trail.clear();
        self.records.clear();
        self.width = width;
    }

    // Drops all levels.
    pub(crate) fn clear(&mut self)
        ensures { Cleared self.old.width self.new }
    {
        self.restart(self.width);
    }

    // Whether there is no level.
    pub(crate) fn is_empty(&self) -> bool
        ensures { result ≡ no_levels (levels_in self.now) }
    {
        self.records.is_empty()
    }

    // Whether there is a level, and the newest has no value left to try.
    pub(crate) fn is_spent(&self) -> bool
        ensures { result ≡ is_spent (levels_in self.now) }
    {
        self.records.last().is_some_and(|level| level.left == 0)
    }

    // The voices below this one are fixed in every node under these levels.
    pub(crate) fn fixed_below(&self) -> usize
        ensures value { result ≡ below (levels_in self.now) }
        ensures inside { result ≤ self.now.width }
    {
        match self.records.last() {
            Some(level) => level.voice + 1,
            None => 0,
        }
    }

    // The sets of the newest level.
    pub(crate) fn newest_sets(&self) -> &[ValueSet]
        requires { no_levels (levels_in self.now) ≡ false }
        ensures value { result.now ≡ newest_sets (levels_in self.now) }
        ensures width { length result.now ≡ self.now.width }
    {
        &self.trail[self.trail.len() - self.width..]
    }

    // Puts a level on top: a node with these sets, whose children fix the voice, which is none that the levels below it
    // fix.
    pub(crate) fn push(&mut self, voice: usize, sets: &[ValueSet])
        requires width { length sets.now ≡ self.old.width }
        requires inside { voice < length sets.now }
        requires above { below (levels_in self.old) ≤ voice }
        requires proper { Proper sets.now }
        ensures width { self.new.width ≡ self.old.width }
        ensures list { levels_in self.new
            ≡ record { sets = sets.now; voice = voice; left = slice_index sets.now voice }
            ∷ levels_in self.old }
    {
        // there is room, so that this allocates nothing and cannot fail
        let _ = self.trail.extend_from_slice(sets);
        self.records.push_reserved(LevelRecord {
            voice,
            left: sets[voice],
        });
    }

    // Drops the newest level.
    pub(crate) fn pop(&mut self)
        requires { no_levels (levels_in self.old) ≡ false }
        ensures width { self.new.width ≡ self.old.width }
        ensures count { vec_len self.new.records + 1 ≡ vec_len self.old.records }
        ensures list { levels_in self.new ≡ without_newest (levels_in self.old) }
    {
        let rest = self.trail.len() - self.width;
        self.records.pop();
        self.trail.truncate(rest);
    }

    // Writes the sets of the node that is opened next: the voices' opening sets where there is no level, otherwise those
    // of the newest level, with its voice fixed to the least value that is left to try, which is taken out of the level.
    pub(crate) fn enter_next(&mut self, voices: &[ValueSet], sets: &mut [ValueSet])
        requires voices { length voices.now ≡ self.old.width }
        requires width { length sets.old ≡ self.old.width }
        requires unspent { is_spent (levels_in self.old) ≡ false }
        ensures width { self.new.width ≡ self.old.width }
        ensures list { levels_in self.new ≡ next_levels (levels_in self.old) }
        ensures after { sets.new ≡ next_sets voices.now (levels_in self.old) }
        ensures proper { Proper voices.now → Proper sets.new }
    {
        let Some(level) = self.records.last_mut() else {
            sets.copy_from_slice(voices);
            return;
        };
        let value = level.advance();
        let voice = level.voice;
        sets.copy_from_slice(self.newest_sets());
        sets[voice] = single(value);
    }

    // Backs up from a failed node: gives the store the key of each level that has no value left to try, from the newest
    // on, and drops the level. Returns how many these were.
    pub(crate) fn back_up<B: Bank, S: Store>(
        &mut self,
        rows: &[Row],
        keys: &mut KeyBuffer,
        store: &mut S,
    ) -> usize
        requires rows { length rows.now ≤ MOST_ROWS }
        ensures width { self.new.width ≡ self.old.width }
        ensures few { result ≤ self.old.width }
        ensures unspent { is_spent (levels_in self.new) ≡ false }
        ensures backs { Backed S.Store.behaviour B.Bank.meaning (rows_of rows.now)
            (levels_in self.old) (S.Store.state store.old)
            (levels_in self.new) (S.Store.state store.new) result }
    {
        let mut exhausted = 0;
        while self.is_spent() {
            keys.give::<B, S>(rows, self.newest_sets(), store);
            self.pop();
            exhausted += 1;
        }
        exhausted
    }
}
