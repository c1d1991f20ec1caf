//! What follows from the definitions alone.
ghost use Rattle.std.specs.Prelude.{◌≡◌, ℕ, List, [], Some, Err};
ghost use Rattle.std.specs.Str.{IsUtf8};
ghost use Rattle.toml.specs.Data.{Members};
ghost use Rattle.toml.specs.Parse.{parse_document};
ghost use Rattle.cb_analysis.specs.Faults.{first_of, faults_of};
ghost use Rattle.cb_analysis.specs.Analyses.{analysis, contents_of, unless_faulty};
ghost use Rattle.cb_analysis.specs.declared.fault.AnalysisKind.TheVariants.{NotToml};

/// A file has one reading: that of any table that its text is a document of, and without such a table that it is no
/// TOML.
pub fn one_reading()
    ensures table { (bytes : List ℕ) (t : Members) → IsUtf8 bytes → parse_document bytes ≡ Some t
        → analysis bytes ≡ unless_faulty (first_of (faults_of t)) (contents_of t) }
    ensures none { (bytes : List ℕ) → ((t : Members) → IsUtf8 bytes → parse_document bytes ≡ Some t → ⊥)
        → analysis bytes ≡ Err (record { kind = NotToml; place = [] }) }
{}
