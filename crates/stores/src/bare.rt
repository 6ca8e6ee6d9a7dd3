// The store that holds nothing.
ghost use Rattle.std.specs.Prelude.{◌≡◌, IsTrue, [], true};
ghost use Rattle.stores.specs.Behaviours.{TurnsAway};
ghost use Rattle.stores.specs.Bare.{bare};

use crate::store::{Store, Stored};

/// A store that keeps no key: each key given to it is lost, and every search opens the nodes that it would open
/// without a store.
#[derive(Clone, Copy)]
pub struct Bare;

impl Store for Bare {
    ghost behaviour = { bare };

    ghost state = { λ _. tt };

    fn clear(&mut self) {}

    fn find(&self, key: &[u64]) -> bool {
        false
    }

    fn is_empty(&self) -> bool
        ensures holds_none { IsTrue result → ((bare.view tt).held ≡ []) }
        ensures value { result ≡ true }
    {
        // it never holds one
        true
    }

    fn turns_away(&self, words: usize) -> bool
        ensures turned { IsTrue result → TurnsAway bare tt words }
        ensures value { result ≡ true }
    {
        // every key is lost
        true
    }

    fn keep(&mut self, key: &[u64]) -> Stored {
        Stored::Lost
    }
}
