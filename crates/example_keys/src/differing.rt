// Rows of values that all differ.
use crate::example::Example;
use crate::problem::{Problem, set};
use kinds::all_different::AllDifferent;
use rows::trace::Trace;
use std::alloc::Global;

// Five voices differ. The first two are 1 and 2, or 2 and 1: both times the other three have to avoid 1 and 2 and
// each other, and their sets are the same, so that the subproblems are equivalent. The content is the set {1, 2}, and
// the key the open sets {2, 3, 4}, {3, 4, 5}, {3, 4, 5} and that content, both times.
pub(crate) fn swapped_values(heap: Global) -> anyhow::Result<Example> {
    let row = AllDifferent::row(heap, &[0, 1, 2, 3, 4])?;
    let mut problem = Problem::new(heap, 5);
    problem.push(row)?;
    let c = set(&[2, 3, 4]);
    let d = set(&[3, 4, 5]);
    let first = [set(&[1]), set(&[2]), c, d, d];
    let second = [set(&[2]), set(&[1]), c, d, d];
    let expected = [0, 0, c, d, d, 1, set(&[1, 2])];
    let came_out = problem.has_key(heap, &first, &expected)?
        && problem.has_key(heap, &second, &expected)?
        && problem.finds(heap, &first, &second)? == Some(true);
    Ok(Example::new(
        "all different: fixed 1 2 and 2 1 leave the same key",
        came_out,
    ))
}

// Six voices differ, each from 1 to 6. The first three are 3 4 5, or 4 5 3. Values kept voice by voice would tell the
// two apart; what matters is the set {3, 4, 5}, which is the content both times, and that propagation leaves {1, 2,
// 6} to each of the other three.
pub(crate) fn values_in_another_order(heap: Global) -> anyhow::Result<Example> {
    let row = AllDifferent::row(heap, &[0, 1, 2, 3, 4, 5])?;
    let mut problem = Problem::new(heap, 6);
    problem.push(row)?;
    let all = set(&[1, 2, 3, 4, 5, 6]);
    let three = set(&[3]);
    let four = set(&[4]);
    let five = set(&[5]);
    let left = set(&[1, 2, 6]);
    let first = [three, four, five, left, left, left];
    let second = [four, five, three, left, left, left];
    let expected = [0, 0, 0, left, left, left, 1, set(&[3, 4, 5])];
    let came_out = problem.narrows_to(heap, &[three, four, five, all, all, all], &first)?
        && problem.narrows_to(heap, &[four, five, three, all, all, all], &second)?
        && problem.has_key(heap, &first, &expected)?
        && problem.has_key(heap, &second, &expected)?;
    Ok(Example::new(
        "all different: 3 4 5 and 4 5 3 take the same values from the others and leave the same key",
        came_out,
    ))
}

// The neighbours in a line of four voices differ, the first two are 3 and 4, and the set of the third has lost 4.
// Nothing needs to be kept of any pair: of the first, since both are fixed and differ; of the second, since its fixed
// voice's value is gone from the third's set, so that the pair holds; of the last, since none of its voices is fixed.
// The traces say so of the first, which is settled, and of the last, whose content is empty; of the second the 4 is
// kept, which is more than need be, but never wrong. The first voice matters no more: 5 in place of its 3 leaves the
// same key.
pub(crate) fn unequal_pairs(heap: Global) -> anyhow::Result<Example> {
    let mut problem = Problem::new(heap, 4);
    problem.push(AllDifferent::row(heap, &[0, 1])?)?;
    problem.push(AllDifferent::row(heap, &[1, 2])?)?;
    problem.push(AllDifferent::row(heap, &[2, 3])?)?;
    let four = set(&[4]);
    let c = set(&[0, 1, 2, 3, 5, 6]);
    let d = set(&[0, 1, 2, 3, 4, 5, 6]);
    let sets = [set(&[3]), four, c, d];
    let came_out = problem.narrows_to(heap, &sets, &sets)?
        && problem.trace(0, &sets) == Some(Trace::Settled)
        && problem.trace(1, &sets) == Some(Trace::Open(four))
        && problem.trace(2, &sets) == Some(Trace::Open(0))
        && problem.finds(heap, &sets, &[set(&[5]), four, c, d])? == Some(true);
    Ok(Example::new(
        "all different: of pairs in a line the settled one and the untouched one keep no value",
        came_out,
    ))
}
