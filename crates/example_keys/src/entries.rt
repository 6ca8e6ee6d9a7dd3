// Element rows.
use crate::example::Example;
use crate::problem::{Problem, set};
use kinds::element::Element;
use rows::trace::Trace;
use std::alloc::Global;

// The result is one of the entries 4, 7, 4, counted from 0. The row is the same as: if the index is i, the result is
// entry i, for each i. Propagation that fixes the result when the index is fixed, and takes i from the index when the
// result lacks entry i, leaves nothing to be kept. So index 1 fixes the result to 7, and the row is settled. A result
// from {4, 5} lacks 7, so that the index loses 1 and keeps {0, 2}. The turn here also takes 5, which is no entry,
// from the result; that is fixed to 4 then and the index is not, and the trace keeps the 4. That is more than need
// be: the index's set says it already.
pub(crate) fn index_and_result(heap: Global) -> anyhow::Result<Example> {
    let row = Element::row(heap, 0, 1, &[4, 7, 4])?;
    let mut problem = Problem::new(heap, 2);
    problem.push(row)?;
    let by_index = [set(&[1]), set(&[7])];
    let by_result = [set(&[0, 2]), set(&[4])];
    let came_out = problem.narrows_to(heap, &[set(&[1]), set(&[4, 5, 6, 7])], &by_index)?
        && problem.trace(0, &by_index) == Some(Trace::Settled)
        && problem.narrows_to(heap, &[set(&[0, 1, 2]), set(&[4, 5])], &by_result)?
        && problem.trace(0, &by_result) == Some(Trace::Open(4));
    Ok(Example::new(
        "element: a fixed index settles the row, a lacking result narrows the index",
        came_out,
    ))
}
