// The shelf and the bare store at the edges of their memory.
use std::test::Fail;
use stores::bare::Bare;
use stores::shelf::Shelf;
use stores::store::{Store, Stored};

// Keys given to a shelf of 16 words, one after the other, and what becomes of each: keys of one word and of equal
// prefixes; then a held one, which does not move, so that 8 words are used: a key of 7 fits exactly, and no more does.
static KEPT_FIRST: [(&[u64], Stored); 3] = [
    (&[7], Stored::Kept),
    (&[7, 7], Stored::Kept),
    (&[7, 8], Stored::Kept),
];

static KEPT_THEN: [(&[u64], Stored); 4] = [
    (&[7, 7], Stored::Kept),
    (&[1, 2, 3, 4, 5, 6, 7], Stored::Kept),
    (&[9], Stored::Lost),
    (&[7], Stored::Kept),
];

// Keys, and whether the shelf holds them: after the first keys, and after the others too. Some have a held key's
// beginning, one has no words.
static FOUND: [(&[u64], bool); 8] = [
    (&[7], true),
    (&[7, 7], true),
    (&[7, 8], true),
    (&[8], false),
    (&[9], false),
    (&[7, 9], false),
    (&[7, 7, 7], false),
    (&[], false),
];

#[test]
fn small_keys(rt: HostRuntime) {
    let mut words = [0u64; 16];
    let mut shelf = Shelf::new(&mut words);
    for (key, stored) in &KEPT_FIRST {
        assert_eq!(rt; shelf.keep(key), *stored);
    }
    for (key, is_held) in &FOUND {
        assert_eq!(rt; shelf.find(key), *is_held);
    }
    for (key, stored) in &KEPT_THEN {
        assert_eq!(rt; shelf.keep(key), *stored);
    }
    for (key, is_held) in &FOUND {
        assert_eq!(rt; shelf.find(key), *is_held);
    }
    assert!(rt; shelf.find(&[1, 2, 3, 4, 5, 6, 7]));
    shelf.clear();
    assert!(rt; !shelf.find(&[7]));
}

// Exact fit and one word too few, no words at all, the empty key.
#[test]
fn fits(rt: HostRuntime) {
    let mut none = [0u64; 0];
    let mut shelf = Shelf::new(&mut none);
    assert!(rt; shelf.keep(&[1]) == Stored::Lost);
    let mut one = [0u64; 1];
    let mut shelf = Shelf::new(&mut one);
    assert!(rt; shelf.keep(&[1]) == Stored::Lost && shelf.keep(&[]) == Stored::Lost);
    let mut two = [0u64; 2];
    let mut shelf = Shelf::new(&mut two);
    assert!(rt; shelf.keep(&[1, 2]) == Stored::Lost && shelf.keep(&[1]) == Stored::Kept);
}

// A key of 320 words, and borrowed words past the first 65,536.
#[test]
fn large(rt: HostRuntime) -> Result<(), Fail> {
    let key = [3u64; 320];
    let mut words = vec![in rt.alloc(); 0u64; 65_537]?;
    let mut shelf = Shelf::new(&mut words);
    assert!(rt; shelf.keep(&key) == Stored::Kept && shelf.find(&key));
    // 65,536 - 321 words are left of those that a shelf uses
    let long = vec![in rt.alloc(); 5u64; 65_215]?;
    assert!(rt; shelf.keep(&long) == Stored::Lost);
    assert!(rt; shelf.keep(&long[0..65_214]) == Stored::Kept);
    Ok(())
}

#[test]
fn bare(rt: HostRuntime) {
    let mut store = Bare;
    assert!(rt; store.keep(&[1]) == Stored::Lost && !store.find(&[1]));
}
