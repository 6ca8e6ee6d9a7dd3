// Small searches through the table's calls: one row over some voices, of the kind A or of the loose kind, solved with
// each budget in turn.
use kinds::all_different::AllDifferent;
use loose::Loose;
use rows::bank::{Alone, Bank};
use rows::row::RowError;
use sets::ValueSet;
use std::alloc::Global;
use std::test::Fail;
use stores::bare::Bare;
use stores::shelf::Shelf;
use stores::store::Store;
use table::Table;
use table::outcome::Outcome;
use table::refusal::Refusal;

// The bytes of the row "these voices differ".
fn all_different(heap: Global, voices: &[u8]) -> Result<Vec<u8>, RowError> {
    let row = AllDifferent::row(heap, voices)?;
    Ok(row.to_bytes(heap)?)
}

// A row of the loose kind, which holds for every placing.
static ANY: [u8; 6] = [b'T', 1, b'M', 0, 0, 0];

// A bank of the kind A.
type OneKind = Alone<AllDifferent>;

// The last answer of Solve, and the nodes opened and exhausted.
type Searched = (Result<Outcome, Refusal>, u64, u64);

// The search over a new table with these opening sets and this row, solved with each budget in turn.
fn solved<B: Bank, S: Store + Drop>(
    rt: &HostRuntime,
    store: S,
    opening: &[ValueSet],
    row: &[u8],
    budgets: &[u64],
) -> Result<Searched, Fail> {
    let mut table: Table<B, S> = Table::make(rt.alloc(), store)?;
    for set in opening {
        let _ = table.declare(*set);
    }
    let _ = table.post(row);
    let mut answer = Ok(Outcome::Stopped);
    for budget in budgets {
        answer = table.solve(*budget);
    }
    Ok((answer, table.opened(), table.exhausted()))
}

// Budgets, and how the search over three voices with the values 1 and 2 ends.
static BUDGETS: [(&[u64], Searched); 4] = [
    (&[9], (Ok(Outcome::None), 3, 1)),
    (&[2], (Ok(Outcome::Stopped), 2, 0)),
    (&[2, 1], (Ok(Outcome::None), 3, 1)),
    (&[9, 0], (Err(Refusal::BudgetRange), 3, 1)),
];

#[test]
fn three_voices(rt: HostRuntime) -> Result<(), Fail> {
    let row = all_different(rt.alloc(), &[0, 1, 2])?;
    for (budgets, expected) in &BUDGETS {
        assert_eq!(rt;
            solved::<OneKind, Bare>(&rt, Bare, &[6, 6, 6], &row, budgets)?,
            *expected
        );
    }
    Ok(())
}

#[test]
fn five_voices(rt: HostRuntime) -> Result<(), Fail> {
    let row = all_different(rt.alloc(), &[0, 1, 2, 3, 4])?;
    let opening = [6, 6, 24, 24, 24];
    let mut words = [0u64; 64];
    assert_eq!(rt;
        solved::<OneKind, Shelf>(&rt, Shelf::new(&mut words), &opening, &row, &[9])?,
        (Ok(Outcome::None), 5, 2)
    );
    assert_eq!(rt;
        solved::<OneKind, Bare>(&rt, Bare, &opening, &row, &[9])?,
        (Ok(Outcome::None), 7, 3)
    );
    Ok(())
}

#[test]
fn no_voices(rt: HostRuntime) -> Result<(), Fail> {
    let row = all_different(rt.alloc(), &[0, 1, 2])?;
    assert_eq!(rt;
        solved::<OneKind, Bare>(&rt, Bare, &[], &row, &[1])?,
        (Ok(Outcome::Found), 1, 0)
    );
    Ok(())
}

#[test]
fn any_placing(rt: HostRuntime) -> Result<(), Fail> {
    assert_eq!(rt;
        solved::<Alone<Loose>, Bare>(&rt, Bare, &[6, 24], &ANY, &[9])?,
        (Ok(Outcome::Found), 3, 0)
    );
    Ok(())
}
