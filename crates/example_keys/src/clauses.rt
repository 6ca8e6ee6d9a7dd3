// Clauses.
use crate::example::Example;
use crate::problem::{Problem, set};
use kinds::clause::{Clause, Literal};
use rows::trace::Trace;
use std::alloc::Global;

// The clause "p, or not q, or r, or s" over four voices that are 0 (false) or 1 (true). As soon as one literal is true,
// nothing of the clause is left: with p true, and with q false. With p false and q true both are refuted, and "r or s"
// is left. Which voices those are is seen from the fixed ones, so that one bit is all there is to keep, whether some
// literal is true: here the mark 1, and a content of 0. With r false too, s has to be true, and then nothing is left.
pub(crate) fn true_or_refuted(heap: Global) -> anyhow::Result<Example> {
    let clause = Clause::row(
        heap,
        &[
            Literal::Is { voice: 0, value: 1 },
            Literal::IsNot { voice: 1, value: 1 },
            Literal::Is { voice: 2, value: 1 },
            Literal::Is { voice: 3, value: 1 },
        ],
    )?;
    let mut problem = Problem::new(heap, 4);
    problem.push(clause)?;
    let no = set(&[0]);
    let yes = set(&[1]);
    let open = set(&[0, 1]);
    let forced = [no, yes, no, yes];
    let came_out = problem.trace(0, &[yes, open, open, open]) == Some(Trace::Settled)
        && problem.trace(0, &[open, no, open, open]) == Some(Trace::Settled)
        && problem.trace(0, &[no, yes, open, open]) == Some(Trace::Open(0))
        && problem.narrows_to(heap, &[no, yes, no, open], &forced)?
        && problem.trace(0, &forced) == Some(Trace::Settled);
    Ok(Example::new(
        "clause: a true literal leaves nothing, refuted ones leave the others",
        came_out,
    ))
}
