// What is proved of the search and of the calls, over every bank and every behaviour of a store.
ghost use Rattle.search.specs.Theorems.{PropagationSound, FixedSolves, KeysProject};
ghost use Rattle.search.specs.Theorems.{InvariantHolds, BranchesLowest, LevelsRise, NeverTwice};
ghost use Rattle.search.specs.Theorems.{AnswersHold, ReadsHold, TablesGiven, ResultsAgree};
ghost use Rattle.search.specs.Theorems.{SolveKeepsBudget, RefusalsSmallest, LimitsHold};
ghost use Rattle.search.specs.Theorems.{OneOutcome, OneHistory, StoresAgree};
ghost use Rattle.stores.specs.Behaviours.{Behaviour, Decided};
ghost use Rattle.stores.specs.Bare.{bare};
ghost use Rattle.stores.specs.ShelfLaws.{shelf};

/// A type that stands for a behaviour of a store: a theorem proved of every such type is proved of every behaviour.
pub trait Behaves {
    ghost behaviour: { Behaviour };
}

/// Propagation takes out only values that no lawful placing uses, and ends where no turn changes a set.
pub fn propagation_sound()
    ensures { PropagationSound }
{}

/// Where propagation fixes every voice, the values are the one lawful placing.
pub fn fixed_solves()
    ensures { FixedSolves }
{}

/// Two lists of sets with the same key have the same lawful fillings of their open voices.
pub fn keys_project()
    ensures { KeysProject }
{}

/// After every history, what was found is the least lawful placing, and where the outcome is none there is no lawful one.
pub fn invariant_holds<S: Behaves>()
    ensures { InvariantHolds S.Behaves.behaviour }
{}

/// Every node branches on its lowest voice that is not fixed.
pub fn branches_lowest<S: Behaves>()
    ensures { BranchesLowest S.Behaves.behaviour }
{}

/// The voices of the levels ascend strictly.
pub fn levels_rise<S: Behaves>()
    ensures { LevelsRise S.Behaves.behaviour }
{}

/// A key that goes to the store when a node is exhausted is not held already.
pub fn never_twice<S: Behaves>()
    ensures { NeverTwice S.Behaves.behaviour }
{}

/// Each answer of Solve in a history says what is so of the voices and rows given before it.
pub fn answers_hold<S: Behaves>()
    ensures { AnswersHold S.Behaves.behaviour }
{}

/// What Read wrote is the least lawful placing, and the rest of the buffer is as it was.
pub fn reads_hold<S: Behaves>()
    ensures { ReadsHold S.Behaves.behaviour }
{}

/// A table has the voices and rows that its calls have given.
pub fn tables_given<S: Behaves>()
    ensures { TablesGiven S.Behaves.behaviour }
{}

/// Two results are equal exactly when the least lawful placings are, or when neither table has any.
pub fn results_agree<S: Behaves, T: Behaves>()
    ensures { ResultsAgree S.Behaves.behaviour T.Behaves.behaviour }
{}

/// Solve opens at most its budget of nodes, and returns stopped exactly when that is used up and the search is not over.
pub fn solve_keeps_budget<S: Behaves>()
    ensures { SolveKeepsBudget S.Behaves.behaviour }
{}

/// A call is refused under the smallest number of a reason that holds, and passes where none does.
pub fn refusals_smallest()
    ensures { RefusalsSmallest }
{}

/// No history passes the limits of a table.
pub fn limits_hold<S: Behaves>()
    ensures { LimitsHold S.Behaves.behaviour }
{}

/// Over a store whose behaviour leaves nothing open, every call has an outcome, and only one.
pub fn one_outcome<S: Behaves>()
    ensures { Decided S.Behaves.behaviour → OneOutcome S.Behaves.behaviour }
{}

/// Over such a store any two histories of the same calls have the same answers, table and state of the store.
pub fn one_history<S: Behaves>()
    ensures { Decided S.Behaves.behaviour → OneHistory S.Behaves.behaviour }
{}

/// The shelf and the bare store are such stores.
pub fn shelf_and_bare_decide()
    ensures shelf { Decided shelf × OneOutcome shelf × OneHistory shelf }
    ensures bare { Decided bare × OneOutcome bare × OneHistory bare }
{}

/// Over two stores that hold the same keys and lose none, calls have the same answers and counts.
pub fn stores_agree<S: Behaves, T: Behaves>()
    ensures { StoresAgree S.Behaves.behaviour T.Behaves.behaviour }
{}
