// What a store of failed nodes' keys does.
ghost use Rattle.std.specs.Prelude.{◌≡◌, IsTrue, []};
ghost use Rattle.stores.specs.Stores.{is_held};
ghost use Rattle.stores.specs.Behaviours.{Behaviour, TurnsAway};

/// What became of a key that a store was asked to keep.
#[derive(Clone, Copy, Debug, PartialEq, Eq)]
pub enum Stored {
    /// The store holds it.
    Kept,
    /// The store does not hold it, and may have given up other keys as well.
    Lost,
}

/// A set of keys of nodes that failed. It may lose keys, which costs time and changes no answer; it must never hold
/// one that it was not given. Each store has a behaviour of its own, within what any store may do.
pub trait Store {
    // what it does, which is within what any store may do
    ghost behaviour: { Behaviour };

    // the state that a store is in
    ghost state: { Self → behaviour.State };

    /// Drops all keys.
    fn clear(&mut self)
        ensures { behaviour.empties (state self.old) (state self.new) };

    /// Whether the key is held.
    fn find(&self, key: &[u64]) -> bool
        ensures { result ≡ is_held key.now (behaviour.view (state self.now)).held };

    /// Whether no key is held, so that no key need be written to be looked up. A store may return false though it
    /// holds none.
    fn is_empty(&self) -> bool
        ensures { IsTrue result → ((behaviour.view (state self.now)).held ≡ []) };

    /// Whether a key of so many words need not be given: `keep` would change nothing, and would lose a key that is not
    /// held already. False is always allowed, and required where `keep` would alter the store.
    fn turns_away(&self, words: usize) -> bool
        ensures { IsTrue result → TurnsAway behaviour (state self.now) words };

    /// Keeps the key if it is held already or fits.
    fn keep(&mut self, key: &[u64]) -> Stored
        ensures { behaviour.keeps (state self.old) key.now result (state self.new) };
}
