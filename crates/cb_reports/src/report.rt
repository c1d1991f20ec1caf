//! The text of a report.
ghost use Rattle.std.specs.Prelude.{◌≡◌, ℕ, List, length, IfOk};
ghost use Rattle.cb_cluster.specs.Links.{pairs_of};
ghost use Rattle.cb_reports.specs.declared.figures.Figures.{Figures};
ghost use Rattle.cb_reports.specs.declared.kind.Kind.{Kind};
ghost use Rattle.cb_reports.specs.Reports.{IsReport};

use crate::clustering::clustering;
use crate::duplicates::duplicates;
use crate::figures::Figures;
use crate::files::files;
use crate::kind::Kind;
use crate::measurements::measurements;
use crate::notes::notes;
use crate::run_report::RunReport;
use crate::summary::summary;
use cb_cluster::one_clustering;
use cb_paths::{Bytes, NoMemory};
use std::alloc::Global;

/// The text of a report. Its one error is out of memory.
pub fn render(alloc: Global, kind: Kind, figures: &Figures) -> Result<Bytes, NoMemory>
    requires setmap { figures.now.setmap.platforms ≡ length figures.now.platforms }
    requires pairs { length figures.now.pairs ≡ length (pairs_of (length figures.now.platforms)) }
    ensures { IfOk result (IsReport kind figures.now) }
{
    let names = figures.platforms.as_slice();
    let pairs = figures.pairs.as_slice();
    let _limit = figures.setmap.platforms();
    let text = match kind {
        Kind::Summary => summary(alloc, names, &figures.setmap, pairs)?,
        Kind::Files => files(alloc, names, figures.files.as_slice())?,
        Kind::Clustering => clustering(alloc, names, pairs)?,
        Kind::Duplicates => duplicates(alloc, figures.groups.as_slice())?,
        Kind::Efficiency => measurements(alloc, RunReport::Efficiency, pairs, &figures.rows)?,
        Kind::Cascade => measurements(alloc, RunReport::Cascade, pairs, &figures.rows)?,
        Kind::Portability => measurements(alloc, RunReport::Portability, pairs, &figures.rows)?,
        Kind::Navigation => measurements(alloc, RunReport::Navigation, pairs, &figures.rows)?,
        Kind::Notes => notes(
            alloc,
            figures.databases.as_slice(),
            figures.idle.as_slice(),
            figures.notes.as_slice(),
        )?,
    };
    text.into_bytes(alloc)
}

/// A report of figures is one text at most.
pub fn one_report()
    ensures { (kind : Kind) (figures : Figures) (some other : List ℕ) → IsReport kind figures some → IsReport kind figures other → some ≡ other }
{
    one_clustering();
}
