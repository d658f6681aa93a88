//! Worked cases: what the definitions come to in figures.
#![tactic(auto)]

ghost use Rattle.worked.specs.Table.{Worked};
ghost use Rattle.worked.specs.Bound.{BoundTested};

/// Every row of the table holds, by one computation over all of them; and the test of its last rows is the starvation bound.
pub fn worked_cases_hold()
    ensures table { Worked }
    ensures bound { BoundTested }
{}
