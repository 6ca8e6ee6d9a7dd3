// An example: what it shows, and whether it came out as it was worked out by hand.
use std::fmt;

#[derive(Clone, Copy, Debug, PartialEq, Eq)]
pub(crate) enum Comparison {
    AsExpected,
    NotAsExpected,
}

impl fmt::Display for Comparison {
    fn fmt<W: fmt::Write>(&self, f: &mut fmt::Formatter<W>) -> fmt::Result {
        f.write_str(match self {
            Comparison::AsExpected => "as expected",
            Comparison::NotAsExpected => "NOT as expected",
        })
    }
}

#[derive(Clone, Copy)]
pub(crate) struct Example {
    // what is so, if the comparison is "as expected"
    pub(crate) shows: &'static str,
    pub(crate) comparison: Comparison,
}

impl Example {
    // The example that shows this, by whether everything in it came out.
    pub(crate) fn new(shows: &'static str, came_out: bool) -> Example {
        let comparison = if came_out {
            Comparison::AsExpected
        } else {
            Comparison::NotAsExpected
        };
        Example { shows, comparison }
    }
}

impl fmt::Display for Example {
    fn fmt<W: fmt::Write>(&self, f: &mut fmt::Formatter<W>) -> fmt::Result {
        let shows = self.shows;
        let comparison = self.comparison;
        write!(f, "{shows}: {comparison}")
    }
}
