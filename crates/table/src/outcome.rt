// What a search has come to.
ghost use Rattle.std.specs.Prelude.{◌≡◌};
ghost use Rattle.std.specs.declared.option.Option.TheVariants.{Some};
ghost use Rattle.table.specs.Outcomes.{outcome_name};

use std::fmt;

/// What a search has come to.
#[derive(Clone, Copy, Debug, PartialEq, Eq)]
pub enum Outcome {
    /// It is not over: it has not begun, or its budget was used up.
    Stopped,
    /// It has found the least lawful placing.
    Found,
    /// There is no lawful placing.
    None,
}

impl Outcome {
    /// The word for it in a report.
    pub fn name(self) -> &'static str
        ensures { result.now ≡ outcome_name self }
    {
        match self {
            Outcome::Stopped => "stopped",
            Outcome::Found => "found",
            Outcome::None => "none",
        }
    }
}

impl fmt::Display for Outcome {
    ghost output = { λ o. Some (outcome_name o) };

    fn fmt<W: fmt::Write>(&self, f: &mut fmt::Formatter<W>) -> fmt::Result {
        f.write_str(self.name())
    }
}
