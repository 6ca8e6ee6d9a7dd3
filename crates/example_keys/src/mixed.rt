// Six voices that all differ, with a + 2b + c + d + 2e <= 20 over the first five.
use crate::example::Example;
use crate::problem::{Problem, set};
use kinds::all_different::AllDifferent;
use kinds::linear::Linear;
use sets::ValueSet;
use std::alloc::Global;

fn problem(heap: Global) -> anyhow::Result<Problem> {
    let mut problem = Problem::new(heap, 6);
    problem.push(AllDifferent::row(heap, &[0, 1, 2, 3, 4, 5])?)?;
    problem.push(Linear::row(heap, 20, &[(0, 1), (1, 2), (2, 1), (3, 1), (4, 2)])?)?;
    Ok(problem)
}

// The first three voices fixed to these values, d and e from {0, 1, 2}, the last from {1, 2, 6}.
fn fixed_to(first: u32, second: u32, third: u32) -> [ValueSet; 6] {
    [
        set(&[first]),
        set(&[second]),
        set(&[third]),
        set(&[0, 1, 2]),
        set(&[0, 1, 2]),
        set(&[1, 2, 6]),
    ]
}

// With 3 4 5 the key says which voices are fixed, that their values are {3, 4, 5}, that they add 3 + 2 × 4 + 5 = 16,
// so that d + 2e <= 4, and has the open sets. No turn can take a value: 3, 4 and 5 are in no open set, and each of d
// and e can still be 2. As words: a fixed voice is 0, the values are a mask, and the sum has 4,000,000 added.
pub(crate) fn whole_key(heap: Global) -> anyhow::Result<Example> {
    let problem = problem(heap)?;
    let sets = fixed_to(3, 4, 5);
    let expected = [
        0,
        0,
        0,
        set(&[0, 1, 2]),
        set(&[0, 1, 2]),
        set(&[1, 2, 6]),
        1,
        set(&[3, 4, 5]),
        1,
        4_000_016,
    ];
    let came_out = problem.narrows_to(heap, &sets, &sets)?
        && problem.has_key(heap, &sets, &expected)?
        && problem.room(1, 20, &sets) == Some(4);
    Ok(Example::new(
        "two rows: the key of 3 4 5 has the values, the sum 16 and the open sets",
        came_out,
    ))
}

// With 5 4 3 in place of 3 4 5 the values are the same, and so is the sum, 5 + 2 × 4 + 3 = 16: with equal open sets
// the keys are equal, and the store finds the one by the other.
pub(crate) fn same_values_and_sum(heap: Global) -> anyhow::Result<Example> {
    let problem = problem(heap)?;
    let first = fixed_to(3, 4, 5);
    let second = fixed_to(5, 4, 3);
    let came_out = problem.is_one_key(heap, &first, &second)?
        && problem.finds(heap, &first, &second)? == Some(true);
    Ok(Example::new(
        "two rows: 3 4 5 and 5 4 3 leave the same key, and the store finds it",
        came_out,
    ))
}

// With 4 5 3 the values are the same, but the sum is 4 + 2 × 5 + 3 = 17 and leaves d + 2e <= 3, so that e loses the
// 2. That is dominated by 3 4 5, which leaves d + 2e <= 4 and more to e. The all different row has the same content,
// but a store that compares for equality does not find it: the sums and e's sets differ.
pub(crate) fn larger_sum_is_dominated(heap: Global) -> anyhow::Result<Example> {
    let problem = problem(heap)?;
    let earlier = fixed_to(3, 4, 5);
    let left = set(&[0, 1]);
    let sets = [
        set(&[4]),
        set(&[5]),
        set(&[3]),
        set(&[0, 1, 2]),
        left,
        set(&[1, 2, 6]),
    ];
    let expected = [
        0,
        0,
        0,
        set(&[0, 1, 2]),
        left,
        set(&[1, 2, 6]),
        1,
        set(&[3, 4, 5]),
        1,
        4_000_017,
    ];
    let came_out = problem.narrows_to(heap, &fixed_to(4, 5, 3), &sets)?
        && problem.has_key(heap, &sets, &expected)?
        && problem.trace(0, &sets) == problem.trace(0, &earlier)
        && problem.room(1, 20, &sets) == Some(3)
        && problem.finds(heap, &earlier, &sets)? == Some(false);
    Ok(Example::new(
        "two rows: 4 5 3 leaves less than 3 4 5, and the store does not find it",
        came_out,
    ))
}
