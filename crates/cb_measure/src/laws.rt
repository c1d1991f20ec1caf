//! What follows from the definitions alone.
ghost use Rattle.std.specs.Prelude.{◌≡◌, ℕ, List};
ghost use Rattle.csv.specs.Reading.{AreRecords, default_config, strip_bom};
ghost use Rattle.csv.specs.declared.parser.State.TheVariants as st;
ghost use Rattle.cb_measure.specs.Reading.{records_of};

/// A file has one list of records, so one reading: whatever records lead through its whole text are those that its
/// rows are read from.
pub fn one_reading()
    ensures { (text : List ℕ) (records : List (List (List ℕ))) → AreRecords default_config st.StartRecord (strip_bom text) records → records_of text ≡ records }
{}
