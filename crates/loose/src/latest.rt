// A store that holds one key, the newest that was given to it.
ghost use Rattle.std.specs.Prelude.{◌≡◌, ◌≤◌, [], length, IsTrue, not};

use stores::store::{Store, Stored};

/// A store that holds at most one key, the newest that was given to it.
// The key is the first `used` of the borrowed words; with no used word no key is held.
#[derive(Drop)]
pub struct Latest<'a> {
    words: &'a mut [u64],
    used: usize,
    ghost within: { used ≤ length words.now },
}

impl<'a> Latest<'a> {
    ghost use Rattle.loose.specs.LatestKey.{latest_state};

    /// A store with no key, over borrowed words: a key that is longer than these is never held.
    pub fn new(words: &'a mut [u64]) -> Latest<'a>
        ensures { latest_state result ≡ record { held = []; room = length words.old } }
    {
        Latest { words, used: 0 }
    }
}

impl<'a> Store for Latest<'a> {
    ghost use Rattle.stores.specs.Stores.{fits_space};
    ghost use Rattle.stores.specs.Behaviours.{TurnsAway};
    ghost use Rattle.loose.specs.LatestKey.{latest_state};
    ghost use Rattle.loose.specs.LatestLaws.{latest};

    ghost behaviour = { latest };

    ghost state = { latest_state };

    fn clear(&mut self) {
        self.used = 0;
    }

    fn find(&self, key: &[u64]) -> bool {
        self.used > 0 && key == &self.words[..self.used]
    }

    fn is_empty(&self) -> bool {
        // false is always allowed
        false
    }

    fn turns_away(&self, words: usize) -> bool
        ensures turned { IsTrue result → TurnsAway latest (latest_state self.now) words }
        ensures value { result ≡ not (fits_space words (latest_state self.now).room) }
    {
        // any other key replaces the one that is held
        words == 0 || words > self.words.len()
    }

    fn keep(&mut self, key: &[u64]) -> Stored {
        if self.find(key) {
            return Stored::Kept;
        }
        if key.is_empty() || key.len() > self.words.len() {
            return Stored::Lost;
        }
        self.words[..key.len()].copy_from_slice(key);
        self.used = key.len();
        Stored::Lost
    }
}
