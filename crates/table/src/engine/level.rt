// A level of a search without its sets, and the state of a search without levels.
ghost use Rattle.std.specs.Prelude.{◌≡◌, ◌-◌, ◌<◌};
ghost use Rattle.sets.specs.Sets.{least, only};

use sets::{ValueSet, least_value, single};

// A level without its sets: the voice that its children fix, and the values that are left to try.
#[derive(Clone, Copy)]
pub(crate) struct LevelRecord {
    pub voice: usize,
    pub left: ValueSet,
}

impl LevelRecord {
    // Takes out the least value that is left to try, and returns it; returns 64 where none is left.
    pub(crate) fn advance(&mut self) -> u32
        ensures value { result ≡ least self.old.left }
        ensures inside { 0 < self.old.left → result < 64 }
        ensures after { self.new
            ≡ record { voice = self.old.voice; left = self.old.left - only (least self.old.left) } }
    {
        let value = least_value(self.left);
        self.left -= single(value);
        value
    }
}

// What a search has come to that has no level: its root is not opened yet, it has found values, it has searched
// everything. Of a search with levels it says nothing: a variant that held them would move them at each node.
#[derive(Clone, Copy)]
pub(crate) enum End {
    Fresh,
    Found,
    Exhausted,
}
