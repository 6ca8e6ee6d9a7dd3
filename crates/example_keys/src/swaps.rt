// Five voices that all differ, with a + 4 <= d + e, which is the row a - d - e <= -4.
use crate::example::Example;
use crate::problem::{Problem, set};
use kinds::all_different::AllDifferent;
use kinds::linear::Linear;
use sets::ValueSet;
use std::alloc::{AllocError, Global};

fn problem(heap: Global) -> anyhow::Result<Problem> {
    let mut problem = Problem::new(heap, 5);
    problem.push(AllDifferent::row(heap, &[0, 1, 2, 3, 4])?)?;
    problem.push(Linear::row(heap, -4, &[(0, 1), (3, -1), (4, -1)])?)?;
    Ok(problem)
}

// The opening sets {1, 2, 3}, {1, 2, 3, 4}, {2, 3, 4, 5}, {1, 2, 3, 4, 5}, {1, 2, 3, 4, 5}, two of the voices fixed
// to values, and then narrowed.
fn narrowed_with(
    heap: Global,
    problem: &Problem,
    fixed: &[(usize, u32)],
) -> Result<Vec<ValueSet>, AllocError> {
    let mut sets = [
        set(&[1, 2, 3]),
        set(&[1, 2, 3, 4]),
        set(&[2, 3, 4, 5]),
        set(&[1, 2, 3, 4, 5]),
        set(&[1, 2, 3, 4, 5]),
    ];
    for (voice, value) in fixed {
        if let Some(place) = sets.get_mut(*voice) {
            *place = set(&[*value]);
        }
    }
    problem.narrowed(heap, &sets)
}

// With a and b as 1 2 or 2 1 the others keep {3, 4, 5} each, and a + 4 is at most 6 and d + e at least 6, so that the
// sum is settled; the values are {1, 2}. With d and e as 3 4 or 4 3 a and b keep {1, 2} and c keeps {2, 5}; a + 4 is
// at most 6 and d + e is 7, so that the sum is settled; the values are {3, 4}. Each time both orders leave the same
// key.
pub(crate) fn swaps_leave_one_key(heap: Global) -> anyhow::Result<Example> {
    let problem = problem(heap)?;
    let late = set(&[3, 4, 5]);
    let early = set(&[1, 2]);
    let low = [0, 0, late, late, late, 1, early, 0, 0];
    let high = [early, early, set(&[2, 5]), 0, 0, 1, set(&[3, 4]), 0, 0];
    let cases = [
        ([(0usize, 1u32), (1, 2)], low),
        ([(0, 2), (1, 1)], low),
        ([(3, 3), (4, 4)], high),
        ([(3, 4), (4, 3)], high),
    ];
    let mut came_out = true;
    for (fixed, expected) in &cases {
        let sets = narrowed_with(heap, &problem, fixed)?;
        came_out &= problem.has_key(heap, &sets, expected)?;
    }
    Ok(Example::new(
        "swaps: 1 2 and 2 1 leave the same key, and so do 3 4 and 4 3",
        came_out,
    ))
}

// The voices d and e can be exchanged everywhere. With a 2 and d 3 the others keep b {1, 4}, c {4, 5} and e {4, 5}: 1
// goes from e since 2 + 4 <= 3 + e. With a 2 and e 3 it is the same with d for e. Whoever knows of the exchange may
// pass over the second; keys do not, since other voices are fixed.
pub(crate) fn exchanged_voices_differ(heap: Global) -> anyhow::Result<Example> {
    let problem = problem(heap)?;
    let first = narrowed_with(heap, &problem, &[(0, 2), (3, 3)])?;
    let second = narrowed_with(heap, &problem, &[(0, 2), (4, 3)])?;
    let two = set(&[2]);
    let three = set(&[3]);
    let b = set(&[1, 4]);
    let left = set(&[4, 5]);
    let came_out = first.as_slice() == [two, b, left, three, left].as_slice()
        && second.as_slice() == [two, b, left, left, three].as_slice()
        && problem.finds(heap, &first, &second)? == Some(false);
    Ok(Example::new(
        "swaps: the same value at another of two alike voices leaves another key",
        came_out,
    ))
}
