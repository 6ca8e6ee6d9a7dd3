// What the kinds accept at the edges of their rules, and turns that a short rule gets wrong.
use kinds::all_different::AllDifferent;
use kinds::clause::{Clause, Literal};
use kinds::element::Element;
use kinds::linear::Linear;
use rows::kind::Kind;
use rows::member::Member;
use rows::refusal::KindRefusal;
use rows::row::{Row, RowError};
use std::alloc::Global;
use std::test::Fail;

// A row of any members. The kinds' own constructors make none whose arguments are of no use to the kind.
fn row(heap: Global, letter: u8, rest: &[u8], members: &[(u16, i16)]) -> Result<Row, RowError> {
    let mut row = Row::with_count(heap, letter, members.len(), rest)?;
    for (voice, argument) in members {
        let _ = row.push_member(Member {
            voice: *voice,
            argument: *argument,
        });
    }
    Ok(row)
}

// The number of the refusal, where a row is refused.
fn number(verdict: Result<(), KindRefusal>) -> Option<u8> {
    match verdict {
        Ok(()) => None,
        Err(refusal) => Some(refusal.number()),
    }
}

fn linear_number(heap: Global, bound: i32, coefficient: i16) -> Result<Option<u8>, RowError> {
    let row = Linear::row(heap, bound, &[(0, coefficient)])?;
    Ok(number(Linear::accept(&row, 1)))
}

// Bounds and coefficients, and the refusal's number.
static RANGES: [(i32, i16, Option<u8>); 7] = [
    (0, 1_000, None),
    (0, 1_001, Some(9)),
    (0, -1_001, Some(9)),
    (3_000_000, 1, None),
    (3_000_001, 1, Some(9)),
    (-3_000_000, 1, None),
    (-3_000_001, 1, Some(9)),
];

#[test]
fn linear_ranges(rt: HostRuntime) -> Result<(), Fail> {
    for (bound, coefficient, expected) in &RANGES {
        assert_eq!(rt; linear_number(rt.alloc(), *bound, *coefficient)?, *expected);
    }
    Ok(())
}

fn literal_number(heap: Global, argument: i16) -> Result<Option<u8>, RowError> {
    let row = row(heap, b'C', &[], &[(0, 5), (0, argument)])?;
    Ok(number(Clause::accept(&row, 1)))
}

// Arguments of a literal, and the refusal's number.
static ARGUMENTS: [(i16, Option<u8>); 5] = [
    (63, None),
    (64, None),
    (127, None),
    (128, Some(9)),
    (-1, Some(9)),
];

#[test]
fn literals(rt: HostRuntime) -> Result<(), Fail> {
    for (argument, expected) in &ARGUMENTS {
        assert_eq!(rt; literal_number(rt.alloc(), *argument)?, *expected);
    }
    Ok(())
}

#[test]
fn repeated_voices(rt: HostRuntime) -> Result<(), Fail> {
    let heap = rt.alloc();
    let twice = AllDifferent::row(heap, &[0, 0])?;
    assert_eq!(rt; number(AllDifferent::accept(&twice, 1)), Some(9));
    assert_eq!(rt; number(AllDifferent::accept(&twice, 0)), Some(8));
    // voice 0 twice, 1 and -2, bound -4: 0 and 1 leave by the first pair, and 3 by no member
    let sums = Linear::row(heap, -4, &[(0, 1), (0, -2), (1, 1)])?;
    let mut sets = [0b1111u64, 0b11];
    assert!(rt; Linear::turn(&sums, &mut sets));
    assert_eq!(rt; sets, [0b0100, 0b11]);
    // the same literal twice is two literals, so nothing happens
    let literal = Literal::Is { voice: 0, value: 1 };
    let doubled = Clause::row(heap, &[literal, literal])?;
    let mut open = [0b110u64];
    assert!(rt; !Clause::turn(&doubled, &mut open));
    assert_eq!(rt; open, [0b110]);
    Ok(())
}

#[test]
fn entries(rt: HostRuntime) -> Result<(), Fail> {
    let heap = rt.alloc();
    // index and result are one voice: 0 and 2 are the places that hold their own number
    let own = Element::row(heap, 0, 0, &[0, 2, 2])?;
    assert_eq!(rt; number(Element::accept(&own, 1)), None);
    let mut sets = [0b1111u64];
    assert!(rt; Element::turn(&own, &mut sets));
    assert_eq!(rt; sets, [0b101]);
    let named = row(heap, b'E', &[0, 0], &[(1, 4)])?;
    assert_eq!(rt; number(Element::accept(&named, 2)), Some(9));
    assert_eq!(rt; number(Element::accept(&named, 0)), Some(8));
    let large = Element::row(heap, 0, 0, &[64])?;
    assert_eq!(rt; number(Element::accept(&large, 1)), Some(9));
    Ok(())
}
