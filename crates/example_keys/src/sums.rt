// Linear rows.
use crate::example::Example;
use crate::problem::{Problem, set};
use kinds::linear::Linear;
use rows::trace::Trace;
use std::alloc::Global;

// The row a + 2b + c + d + 2e <= 20 over five voices.
fn up_to_twenty(heap: Global) -> anyhow::Result<Problem> {
    let row = Linear::row(heap, 20, &[(0, 1), (1, 2), (2, 1), (3, 1), (4, 2)])?;
    let mut problem = Problem::new(heap, 5);
    problem.push(row)?;
    Ok(problem)
}

// Of two subproblems with the same fixed voices the one dominates the other if all that can still follow the other
// can follow it. Here a is 3 and b is 1, which is 3 + 2 × 1 = 5 and leaves 20 - 5 = 15 to c + d + 2e; or a is 1 and b
// is 3, which is 1 + 2 × 3 = 7 and leaves 13. So the first dominates the second, and not the other way round: they
// are not equivalent, their contents 4,000,005 and 4,000,007 differ, and the store, which finds equal keys alone,
// does not find the second by the first.
pub(crate) fn smaller_sum_dominates(heap: Global) -> anyhow::Result<Example> {
    let problem = up_to_twenty(heap)?;
    let c = set(&[2, 3, 4]);
    let d = set(&[3, 4, 5]);
    let first = [set(&[3]), set(&[1]), c, d, d];
    let second = [set(&[1]), set(&[3]), c, d, d];
    let came_out = problem.room(0, 20, &first) == Some(15)
        && problem.room(0, 20, &second) == Some(13)
        && problem.trace(0, &first) == Some(Trace::Open(4_000_005))
        && problem.trace(0, &second) == Some(Trace::Open(4_000_007))
        && problem.finds(heap, &first, &second)? == Some(false);
    Ok(Example::new(
        "linear: a sum of 5 leaves 15 and dominates a sum of 7, which leaves 13",
        came_out,
    ))
}

// That x + y + z is at least 10, where x is 1, says of the others that y + z is at least 9. Rows have upper bounds,
// so the row here is -x - y - z <= -10, and what is left of its bound is -10 + 1 = -9: -y - z <= -9, which is the
// same. The content is the fixed sum, -1, and 4,000,000. The sets of y and z are of no matter, as long as they do not
// settle the row.
pub(crate) fn at_least_reads_negated(heap: Global) -> anyhow::Result<Example> {
    let row = Linear::row(heap, -10, &[(0, -1), (1, -1), (2, -1)])?;
    let mut problem = Problem::new(heap, 3);
    problem.push(row)?;
    let open = set(&[3, 4, 5, 6]);
    let sets = [set(&[1]), open, open];
    let came_out = problem.room(0, -10, &sets) == Some(-9)
        && problem.trace(0, &sets) == Some(Trace::Open(3_999_999));
    Ok(Example::new(
        "linear: a sum of at least 10, with 1 fixed, leaves at least 9",
        came_out,
    ))
}

// The three values 1, 2, 3 add 1 + 2 × 2 + 3 = 8 and leave d + 2e <= 12; and 2, 3, 0 add 2 + 2 × 3 + 0 = 8 too. So
// where the first fails, the store finds the second, though none of the three voices has its value again. The sets of
// d and e are the same both times, and wide enough that d + 2e can pass 12.
pub(crate) fn partial_sums_agree(heap: Global) -> anyhow::Result<Example> {
    let problem = up_to_twenty(heap)?;
    let open = set(&[0, 1, 2, 3, 4, 5]);
    let first = [set(&[1]), set(&[2]), set(&[3]), open, open];
    let second = [set(&[2]), set(&[3]), set(&[0]), open, open];
    let came_out = problem.room(0, 20, &first) == Some(12)
        && problem.room(0, 20, &second) == Some(12)
        && problem.finds(heap, &first, &second)? == Some(true);
    Ok(Example::new(
        "linear: 1 2 3 and 2 3 0 leave 12, and the store finds the second by the first",
        came_out,
    ))
}
