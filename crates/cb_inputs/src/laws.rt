//! What follows from the definitions alone.
ghost use Rattle.std.specs.Prelude.{◌≡◌};
ghost use Rattle.cb_inputs.specs.Inputs.{Inputs, Edit};
ghost use Rattle.cb_inputs.specs.Readings.{Known, IsKnown};
ghost use Rattle.cb_inputs.specs.Outcomes.{Outcome, IsOutcome};

use cb_compdb::one_database;
use cb_tree::one_reading;

/// Inputs say at most one thing.
pub fn one_known()
    ensures { (i : Inputs) (some other : Known) → IsKnown i some → IsKnown i other → some ≡ other }
{
    one_reading();
    one_database();
}

/// Inputs say at most one thing, and at most one thing comes of an edit: it is accepted, or refused for one cause.
pub fn one_outcome()
    ensures known { (i : Inputs) (some other : Known) → IsKnown i some → IsKnown i other → some ≡ other }
    ensures outcome { (i : Inputs) (edit : Edit) (some other : Outcome)
        → IsOutcome i edit some → IsOutcome i edit other → some ≡ other }
{
    one_reading();
    one_database();
}
