// A search, one node after the other.
ghost use Rattle.std.specs.Prelude.{◌≡◌, ◌+◌, ◌*◌, ◌<◌, ◌≤◌, false, length, vec_len, vec_capacity, IfOk};
ghost use Rattle.rows.specs.Views.{rows_of};
ghost use Rattle.rows.specs.Placed.{Ready};
ghost use Rattle.search.specs.Calls.{over};
ghost use Rattle.table.specs.Levels.{is_spent};
ghost use Rattle.table.specs.Stacks.{levels_in};
ghost use Rattle.rows.specs.declared.limits.TheConstants.{MOST_OPENED, MOST_VOICES};

use crate::engine::keys::KeyBuffer;
use crate::engine::level::End;
use crate::engine::levels::Levels;
use crate::engine::node::{NodeClass, classify};
use crate::outcome::Outcome;
use rows::bank::Bank;
use rows::limits::{MOST_OPENED, MOST_ROWS, MOST_VOICES};
use rows::row::Row;
use sets::ValueSet;
use std::alloc::{AllocError, Global};
use stores::store::Store;

// What a search has come to, and the memory that it works in, all of it reserved when it is made.
#[derive(Drop)]
pub(crate) struct Search {
    // the sets of the node that is opened, or that was found: one for each voice
    sets: Vec<ValueSet>,
    keys: KeyBuffer,
    levels: Levels,
    // the status of the search if there is no level
    end: End,
    // nodes opened, and nodes exhausted
    opened: u64,
    exhausted: u64,
    ghost bounded: { opened ≤ MOST_OPENED },
    ghost spent: { exhausted ≤ MOST_VOICES * opened },
    ghost few: { vec_len sets ≤ MOST_VOICES },
    ghost room: { MOST_VOICES ≤ vec_capacity sets },
    ghost fitted: { levels.width ≡ vec_len sets },
    // the newest level has a value left to try
    ghost unspent: { is_spent (levels_in levels) ≡ false },
}

// Each method says that there are as many voices as before, which no ghost field can say.
impl Search {
    ghost use Rattle.table.specs.Searches.{FreshSearch, voice_count, node_sets, status_of, outcome_of, table_of, NodesRun, BudgetRun};

    // A search with no voices that has not begun.
    pub(crate) fn new(heap: Global) -> Result<Search, AllocError>
        ensures { IfOk result (λ s. FreshSearch 0 s) }
    {
        let sets = Vec::with_capacity(heap, MOST_VOICES)?;
        let keys = KeyBuffer::new(heap)?;
        let levels = Levels::new(heap)?;
        Ok(Search {
            sets,
            keys,
            levels,
            end: End::Fresh,
            opened: 0,
            exhausted: 0,
        })
    }

    // The search begins again, for so many voices.
    pub(crate) fn restart(&mut self, voices: usize)
        requires { voices ≤ MOST_VOICES }
        ensures { FreshSearch voices self.new }
    {
        // there is room, so that this allocates nothing and cannot fail
        let _ = self.sets.resize(voices, 0);
        self.levels.restart(voices);
        self.end = End::Fresh;
        self.opened = 0;
        self.exhausted = 0;
    }

    // What the search has come to.
    pub(crate) fn outcome(&self) -> Outcome
        ensures { result ≡ outcome_of (status_of self.now) }
    {
        if !self.levels.is_empty() {
            return Outcome::Stopped;
        }
        match self.end {
            End::Fresh => Outcome::Stopped,
            End::Found => Outcome::Found,
            End::Exhausted => Outcome::None,
        }
    }

    // Whether the search is over.
    pub(crate) fn is_over(&self) -> bool
        ensures { result ≡ over (status_of self.now) }
    {
        self.levels.is_empty() && matches!(self.end, End::Found | End::Exhausted)
    }

    // The sets of the node that was opened last, or that was found.
    pub(crate) fn sets(&self) -> &[ValueSet]
        ensures { result.now ≡ node_sets self.now }
    {
        &self.sets
    }

    // How many nodes were opened.
    pub(crate) fn opened(&self) -> u64
        ensures { result ≡ self.now.opened }
    {
        self.opened
    }

    // How many nodes were exhausted.
    pub(crate) fn exhausted(&self) -> u64
        ensures { result ≡ self.now.exhausted }
    {
        self.exhausted
    }

    // Opens the root, or the next child of the newest level.
    fn step<B: Bank, S: Store>(&mut self, rows: &[Row], voices: &[ValueSet], store: &mut S)
        requires open { over (status_of self.old) ≡ false }
        requires voices { length voices.now ≡ voice_count self.old }
        requires rows { length rows.now ≤ MOST_ROWS }
        requires few { self.old.opened < MOST_OPENED }
        requires ready { Ready B.Bank.meaning (rows_of rows.now) voices.now }
        ensures goes { NodesRun S.Store.behaviour B.Bank.meaning 1
            (table_of voices.now (rows_of rows.now) self.old) (S.Store.state store.old)
            (table_of voices.now (rows_of rows.now) self.new) (S.Store.state store.new) }
        ensures voices { voice_count self.new ≡ voice_count self.old }
        ensures count { self.new.opened ≡ self.old.opened + 1 }
    {
        self.levels.enter_next(voices, &mut self.sets);
        let from = self.levels.fixed_below();
        let node = classify::<B, S>(rows, from, &mut self.sets, &mut self.keys, store);
        self.opened += 1;
        match node {
            NodeClass::Dead | NodeClass::Hit => {
                self.exhausted += self.levels.back_up::<B, S>(rows, &mut self.keys, store) as u64;
                self.end = End::Exhausted;
            }
            NodeClass::Solution => {
                self.levels.clear();
                self.end = End::Found;
            }
            NodeClass::Branch(v) => self.levels.push(v, &self.sets),
        }
    }

    // Opens nodes until the search is over, and at most `budget` of them.
    pub(crate) fn run<B: Bank, S: Store>(
        &mut self,
        rows: &[Row],
        voices: &[ValueSet],
        budget: u64,
        store: &mut S,
    )
        requires voices { length voices.now ≡ voice_count self.old }
        requires rows { length rows.now ≤ MOST_ROWS }
        requires few { self.old.opened + budget ≤ MOST_OPENED }
        requires ready { Ready B.Bank.meaning (rows_of rows.now) voices.now }
        ensures runs { BudgetRun S.Store.behaviour B.Bank.meaning budget
            (table_of voices.now (rows_of rows.now) self.old) (S.Store.state store.old)
            (table_of voices.now (rows_of rows.now) self.new) (S.Store.state store.new) }
        ensures voices { voice_count self.new ≡ voice_count self.old }
    {
        for _ in 0..budget {
            if self.is_over() {
                return;
            }
            self.step::<B, S>(rows, voices, store);
        }
    }
}
