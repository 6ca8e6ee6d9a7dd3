// What a played call returns: its answer, and how far the search is then.
ghost use Rattle.std.specs.Prelude.{◌≡◌, Some};
ghost use Rattle.table.specs.Shown.{model};
ghost use Rattle.histories.specs.CallViews.{progress_of};
ghost use Rattle.histories.specs.Printed.{progress_text, reply_text};

use crate::call::TableAnswer;
use rows::bank::Bank;
use std::fmt;
use stores::store::Store;
use table::Table;
use table::outcome::Outcome;

/// How far a table's search is.
#[derive(Clone, Copy, Debug, PartialEq, Eq)]
pub struct Progress {
    /// What the search has come to.
    pub outcome: Outcome,
    /// The nodes opened since the search began.
    pub opened: u64,
    /// The nodes exhausted since the store was emptied.
    pub exhausted: u64,
}

impl Progress {
    /// How far the table's search is.
    pub fn of<B: Bank, S: Store>(table: &Table<B, S>) -> Progress
        ensures { result ≡ progress_of (model table.now) }
    {
        Progress {
            outcome: table.outcome(),
            opened: table.opened(),
            exhausted: table.exhausted(),
        }
    }
}

// As `stopped 20 7`.
impl fmt::Display for Progress {
    ghost output = { λ progress. Some (progress_text progress) };

    fn fmt<W: fmt::Write>(&self, f: &mut fmt::Formatter<W>) -> fmt::Result {
        let Progress {
            outcome,
            opened,
            exhausted,
        } = *self;
        write!(f, "{outcome} {opened} {exhausted}")
    }
}

/// The answer to a call, and the progress of the search after it.
#[derive(Debug, PartialEq, Drop)]
pub struct Reply {
    /// The answer to the call.
    pub answer: TableAnswer,
    /// The progress of the search after it.
    pub progress: Progress,
}

// As `refused 13 | stopped 20 7`.
impl fmt::Display for Reply {
    ghost output = { λ reply. Some (reply_text reply) };

    fn fmt<W: fmt::Write>(&self, f: &mut fmt::Formatter<W>) -> fmt::Result {
        write!(f, "{} | {}", self.answer, self.progress)
    }
}
