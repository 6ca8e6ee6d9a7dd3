// A knapsack: each thing is taken (1) or not (0), the weights are at most a limit, and the profit is to be as great
// as can be: it has to pass the best known.
use crate::example::Example;
use crate::problem::{Problem, Searched, search_over, set};
use kinds::linear::Linear;
use sets::ValueSet;
use std::alloc::Global;
use stores::bare::Bare;
use stores::shelf::Shelf;
use table::outcome::Outcome;

// How many words the shelf of a search has.
const SHELF_WORDS: usize = 256;

// Whether a thing is taken is open.
const OPEN: ValueSet = 0b11;

const OPENING: [ValueSet; 5] = [OPEN; 5];

// With weights 2 3 5 4 4 and a limit of 10, profits 3 4 7 2 2 and 10 to be reached. The first and second thing, or
// the third alone: both weigh 5, so that 5 is left of the limit, and both bring 7, so that 10 - 7 = 3 is still
// wanted. The key is which things are decided, and these two numbers. That profit is at least 10 is a row with
// negated profits and the bound -10, so that the wanted 3 reads -3. The first and third weigh 7 and bring 10: another
// key.
pub(crate) fn weight_and_profit(heap: Global) -> anyhow::Result<Example> {
    let mut problem = Problem::new(heap, 5);
    problem.push(Linear::row(heap, 10, &[(0, 2), (1, 3), (2, 5), (3, 4), (4, 4)])?)?;
    problem.push(Linear::row(heap, -10, &[(0, -3), (1, -4), (2, -7), (3, -2), (4, -2)])?)?;
    let left = set(&[0]);
    let taken = set(&[1]);
    let two_things = [taken, taken, left, OPEN, OPEN];
    let one_thing = [left, left, taken, OPEN, OPEN];
    let others = [taken, left, taken, OPEN, OPEN];
    let expected = [0, 0, 0, OPEN, OPEN, 1, 4_000_005, 1, 3_999_993];
    let came_out = problem.has_key(heap, &two_things, &expected)?
        && problem.room(0, 10, &one_thing) == Some(5)
        && problem.room(1, -10, &one_thing) == Some(-3)
        && problem.finds(heap, &two_things, &one_thing)? == Some(true)
        && problem.finds(heap, &two_things, &others)? == Some(false);
    Ok(Example::new(
        "knapsack: the decided things, the weight left and the profit wanted are the key",
        came_out,
    ))
}

// Two large things of weight 5 and profit 4, three small ones of weight 2 and profit 3, and a limit of 8; the profit
// is to be this or more.
fn two_large_three_small(heap: Global, profit: u8) -> anyhow::Result<Problem> {
    let bound = -i32::from(profit);
    let mut problem = Problem::new(heap, 5);
    problem.push(Linear::row(heap, 8, &[(0, 5), (1, 5), (2, 2), (3, 2), (4, 2)])?)?;
    problem.push(Linear::row(heap, bound, &[(0, -4), (1, -4), (2, -3), (3, -3), (4, -3)])?)?;
    Ok(problem)
}

// The search for that profit, over a shelf.
fn searched_with_store(heap: Global, profit: u8) -> anyhow::Result<Searched> {
    let mut words = [0u64; SHELF_WORDS];
    search_over(
        heap,
        Shelf::new(&mut words),
        &OPENING,
        two_large_three_small(heap, profit)?.rows(),
    )
}

// What the best of the first j things within weight w brings: the better of leaving the last of them, and of taking
// it, which leaves the first j - 1 and w less its weight. For all five within 8: without a large thing the three
// small ones fit and bring 9; with one, 3 is left, one small thing fits, and it is 7; two do not fit. So 9 is the
// greatest: 9 or more is found, with the small things, and 10 or more is not.
pub(crate) fn greatest_profit(heap: Global) -> anyhow::Result<Example> {
    let nine = searched_with_store(heap, 9)?;
    let ten = searched_with_store(heap, 10)?;
    let came_out = nine.outcome == Outcome::Found
        && nine.values == [0, 0, 1, 1, 1]
        && ten.outcome == Outcome::None;
    Ok(Example::new(
        "knapsack: 9 is the greatest profit, with the three small things",
        came_out,
    ))
}

// The search for 10 or more. First node: nothing is decided. Second: the first thing is left, so that the other large
// one has to be taken, since 3 × 3 = 9 is too little; weight 5 is used, and 6 is wanted. Third and fourth: a small
// thing is left, so that the others are taken and 9 is too heavy; or it is taken, so that no other fits and 7 is too
// little. The second node is exhausted. Fifth: the first thing is taken, so that the second does not fit; again 5 is
// used and 6 is wanted, and the store finds the key: 5 nodes, and 2 exhausted with the first. Without a store the
// fifth has its two nodes too: 7, and 3 exhausted.
pub(crate) fn store_saves_nodes(heap: Global) -> anyhow::Result<Example> {
    let with = searched_with_store(heap, 10)?;
    let without = search_over(
        heap,
        Bare,
        &OPENING,
        two_large_three_small(heap, 10)?.rows(),
    )?;
    let came_out = (with.outcome, with.opened, with.exhausted) == (Outcome::None, 5, 2)
        && (without.outcome, without.opened, without.exhausted) == (Outcome::None, 7, 3);
    Ok(Example::new(
        "knapsack: a search that fails opens 5 nodes with a store, 7 without",
        came_out,
    ))
}
