// The store that keeps keys in borrowed memory.
ghost use Rattle.std.specs.Prelude.{◌≡◌, ℕ, ◌+◌, ◌<◌, ◌≤◌, ◌==◌, slice_index, [], ◌∷◌, ◌++◌, length, take, drop, IsTrue, true, not};
ghost use Rattle.stores.specs.Stores.{is_held, fits_space};
ghost use Rattle.stores.specs.Behaviours.{TurnsAway};
ghost use Rattle.stores.specs.Shelves.{room_of, Whole, Indexed, hash_of, shelved_keys, recent_keys, shelf_entry, used_after};
ghost use Rattle.stores.specs.ShelfLaws.{shelf};

use crate::store::{Store, Stored};
use crate::words::hash_words;

// How many buckets the keys are divided among.
const BUCKETS: usize = 1024;

// The most words that a shelf uses.
const MOST_WORDS: usize = 65536;

// A header's low part, the key's length, is below this, and so is the part above, the link.
const LENGTHS: u64 = 1 << 16;

// Both together are below this, and the high part of the key's hash is above.
const LINKS: u64 = 1 << 32;

// A hash divided by this is below the number of buckets.
const HASHES: u64 = 1 << 54;

/// A store in borrowed words, of which it uses at most the first 65,536. A key takes one word more than it has. It keeps
/// what fits, and loses what no longer does; a lookup reads the keys of one of 1,024 buckets.
#[derive(Drop)]
pub struct Shelf<'a> {
    // the first `used` hold keys, each behind its header
    words: &'a mut [u64],
    // Each bucket has a chain of its keys, from the newest to the oldest: its head says where the newest is, counted
    // from 1, and each header where the one before is; 0 ends the chain.
    heads: [u16; BUCKETS],
    used: usize,
    ghost within: { used ≤ room_of (length words.now) },
    ghost whole: { Whole (take used words.now) },
    ghost buckets: { length heads ≡ 1024 },
    ghost indexed: { Indexed heads (take used words.now) },
}

// The heads where no key is held.
fn no_heads() -> [u16; BUCKETS]
    ensures { (b : ℕ) → b < 1024 → slice_index result b ≡ 0 }
{
    [0; BUCKETS]
}

impl<'a> Shelf<'a> {
    ghost use Rattle.stores.specs.Shown.{used_words, free_words};

    /// A shelf with no keys over these words; what they hold does not matter.
    pub fn new(words: &'a mut [u64]) -> Shelf<'a>
        ensures used { used_words result ≡ [] }
        ensures words { result.words.now ≡ words.old }
        ensures same { result.words.ghost_name ≡ words.entry.ghost_name }
    {
        Shelf {
            words,
            heads: no_heads(),
            used: 0,
        }
    }

    // Whether a key of so many words fits.
    fn fits(&self, words: usize) -> bool
        ensures { result ≡ fits_space words (free_words self.now) }
    {
        words > 0 && words < self.words.len().min(MOST_WORDS) - self.used
    }

    // Whether the key is held: a walk along its bucket's chain. A key is compared only where its header has the same
    // length and the same high part of the hash.
    fn holds(&self, hash: u64, key: &[u64]) -> bool
        requires { hash ≡ hash_of key.now }
        ensures { result ≡ is_held key.now (shelved_keys (used_words self.now)) }
    {
        let mut at = self.heads[(hash / HASHES) as usize] as usize;
        while at > 0 {
            let header = self.words[at - 1];
            if header / LINKS == hash / LINKS
                && header % LENGTHS == key.len() as u64
                && key == &self.words[at..at + key.len()]
            {
                return true;
            }
            at = (header / LENGTHS % LENGTHS) as usize;
        }
        false
    }

    // Writes a header and the key behind it, past the words that are used.
    fn write(&mut self, header: u64, key: &[u64])
        requires { self.old.used + 1 + length key.now ≤ length self.old.words.now }
        ensures used { self.new.used ≡ self.old.used }
        ensures heads { self.new.heads ≡ self.old.heads }
        ensures words { self.new.words.now ≡ (used_words self.old ++ (header ∷ key.now))
            ++ drop (self.old.used + 1 + length key.now) self.old.words.now }
    {
        let at = self.used;
        self.words[at] = header;
        self.words[at + 1..at + 1 + key.len()].copy_from_slice(key);
    }

    // Keeps a key that fits, at the head of its bucket's chain.
    fn add(&mut self, hash: u64, key: &[u64])
        requires hash { hash ≡ hash_of key.now }
        requires fits { fits_space (length key.now) (free_words self.old) ≡ true }
        ensures used { used_words self.new
            ≡ used_words self.old ++ shelf_entry (recent_keys (used_words self.old)) key.now }
        ensures words { self.new.words.now
            ≡ used_words self.new ++ drop (length (used_words self.new)) self.old.words.now }
    {
        let bucket = (hash / HASHES) as usize;
        let link = self.heads[bucket] as u64;
        let header = hash / LINKS * LINKS + link * LENGTHS + key.len() as u64;
        self.write(header, key);
        self.heads[bucket] = (self.used + 1) as u16;
        self.used += 1 + key.len();
    }
}

impl<'a> Store for Shelf<'a> {
    ghost use Rattle.stores.specs.Shown.{used_words, room, shelf_state_of, free_words};

    ghost behaviour = { shelf };

    ghost state = { shelf_state_of };

    fn clear(&mut self)
        ensures empties { shelf.empties (shelf_state_of self.old) (shelf_state_of self.new) }
        ensures used { used_words self.new ≡ [] }
        ensures words { self.new.words.now ≡ self.old.words.now }
    {
        self.heads = no_heads();
        self.used = 0;
    }

    fn find(&self, key: &[u64]) -> bool {
        self.holds(hash_words(key), key)
    }

    fn is_empty(&self) -> bool
        ensures holds_none { IsTrue result → ((shelf_state_of self.now).held ≡ []) }
        ensures value { result ≡ (length (used_words self.now) == 0) }
    {
        self.used == 0
    }

    fn turns_away(&self, words: usize) -> bool
        ensures turned { IsTrue result → TurnsAway shelf (shelf_state_of self.now) words }
        ensures value { result ≡ not (fits_space words (free_words self.now)) }
    {
        !self.fits(words)
    }

    fn keep(&mut self, key: &[u64]) -> Stored
        ensures keeps { shelf.keeps (shelf_state_of self.old) key.now result
            (shelf_state_of self.new) }
        ensures used { used_words self.new
            ≡ used_after (used_words self.old) (room self.old) key.now }
        ensures words { self.new.words.now
            ≡ used_words self.new ++ drop (length (used_words self.new)) self.old.words.now }
    {
        let hash = hash_words(key);
        if self.holds(hash, key) {
            return Stored::Kept;
        }
        if !self.fits(key.len()) {
            return Stored::Lost;
        }
        self.add(hash, key);
        Stored::Kept
    }
}
