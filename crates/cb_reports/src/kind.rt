//! The kinds of reports.
ghost use Rattle.std.specs.Prelude.{◌≡◌, IfSome, IfNone};

/// A kind of report.
#[derive(Clone, Copy, Debug, PartialEq, Eq)]
pub enum Kind {
    /// How many lines which platforms share, coverage and divergence.
    Summary,
    /// The lines of each source that each platform uses.
    Files,
    /// How far platforms are apart, and which belong together.
    Clustering,
    /// The sources with equal bytes.
    Duplicates,
    /// The efficiency of each application on each platform.
    Efficiency,
    /// The cascade of each application over the platforms.
    Cascade,
    /// The performance portability of each application, and where it fails.
    Portability,
    /// Convergence beside the performance portability of each application.
    Navigation,
    /// What was absent, passed over or noted.
    Notes,
}

impl Kind {
    ghost use Rattle.cb_reports.specs.declared.kind.Kind.{Kind};
    ghost use Rattle.cb_reports.specs.Kinds.{name_of};

    /// The kind with a name: `summary`, `files`, `clustering`, `duplicates`, `efficiency`, `cascade`,
    /// `portability`, `navigation` or `notes`. No other name has one.
    pub fn read(name: &[u8]) -> Option<Kind>
        ensures known { IfSome result (λ kind. name.now ≡ name_of kind) }
        ensures unknown { IfNone result ((kind : Kind) → name.now ≡ name_of kind → ⊥) }
    {
        match name {
            b"summary" => Some(Kind::Summary),
            b"files" => Some(Kind::Files),
            b"clustering" => Some(Kind::Clustering),
            b"duplicates" => Some(Kind::Duplicates),
            b"efficiency" => Some(Kind::Efficiency),
            b"cascade" => Some(Kind::Cascade),
            b"portability" => Some(Kind::Portability),
            b"navigation" => Some(Kind::Navigation),
            b"notes" => Some(Kind::Notes),
            _ => None,
        }
    }
}
