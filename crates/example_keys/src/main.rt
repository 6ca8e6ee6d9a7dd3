// Worked examples: what the kinds, their traces, the keys and the search give, beside what was worked out by hand.
#![tactic(auto)]

use example::{Comparison, Example};
use std::alloc::Global;

mod clauses;
mod differing;
mod entries;
mod example;
mod knapsack;
mod mixed;
mod problem;
mod sums;
mod swaps;

// All the examples, in the order in which they are printed.
fn examples(heap: Global) -> anyhow::Result<Vec<Example>> {
    let examples = vec![in heap;
        sums::smaller_sum_dominates(heap)?,
        sums::at_least_reads_negated(heap)?,
        sums::partial_sums_agree(heap)?,
        differing::swapped_values(heap)?,
        differing::values_in_another_order(heap)?,
        differing::unequal_pairs(heap)?,
        mixed::whole_key(heap)?,
        mixed::same_values_and_sum(heap)?,
        mixed::larger_sum_is_dominated(heap)?,
        clauses::true_or_refuted(heap)?,
        entries::index_and_result(heap)?,
        swaps::swaps_leave_one_key(heap)?,
        swaps::exchanged_voices_differ(heap)?,
        knapsack::weight_and_profit(heap)?,
        knapsack::greatest_profit(heap)?,
        knapsack::store_saves_nodes(heap)?,
    ]?;
    Ok(examples)
}

fn main(rt: HostRuntime) -> anyhow::Result<()> {
    let examples = examples(rt.alloc())?;
    for example in &examples {
        println!(rt; "{example}")?;
    }
    let met = examples
        .iter()
        .filter(|example| example.comparison == Comparison::AsExpected)
        .count();
    let all = examples.len();
    println!(rt; "{met} of {all} as expected")?;
    Ok(())
}
