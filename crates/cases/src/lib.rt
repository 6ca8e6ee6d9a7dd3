//! Worked cases, each of which the checker computes from the definitions:
//! - specs/Turns.antt: turns, traces and verdicts of the four kinds (`turns_hold`);
//! - specs/Searches.antt: whole searches, from Make on (`worked_cases_hold`, together with the turns);
//! - specs/Refusals.antt: calls at both sides of each limit, and calls that more than one refusal fits
//!   (`refusals_hold`), and histories that reach the limits of a table (`limits_reached`).
//!
//! The banks and rows of the cases are in specs/CaseRows.antt, their stores and tables in specs/Tables.antt, and what a
//! case of a search says in specs/SearchCases.antt.
#![tactic(auto)]

ghost use Rattle.cases.specs.Turns.{TurnsHold};
ghost use Rattle.cases.specs.Worked.{WorkedHold};
ghost use Rattle.cases.specs.Refusals.{RefusalsHold, LimitsReached};

/// Every case of a turn, a trace or a verdict holds.
pub fn turns_hold()
    ensures { TurnsHold }
{}

/// Every worked case holds: those of turns, traces and verdicts, and those of searches.
pub fn worked_cases_hold()
    ensures { WorkedHold }
{}

/// Each call of the cases passes, or is refused with the number that its case says.
pub fn refusals_hold()
    ensures { RefusalsHold }
{}

/// The limits of a table can be reached, and not passed.
pub fn limits_reached()
    ensures { LimitsReached }
{}
