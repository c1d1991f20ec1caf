//! Reading of the files of a pass.
ghost use Rattle.std.specs.Prelude.{◌≡◌, ◌∷◌, [], List, IfOk, OnOk};
ghost use Rattle.cb_include.specs.declared.command.Command.{Command as Told};
ghost use Rattle.cb_pass.specs.Files.{Files as Skeletons};
ghost use Rattle.cb_pass.specs.States.{Frame, Waiting};
ghost use Rattle.cb_pass.specs.inner.Moves.{Goes, IsReachedNext, IsStep};
ghost use Rattle.cb_pass.specs.inner.Readings.{left_of};
ghost use Rattle.cb_pass.specs.inner.Trails.{ArePlaced, state_of};

use crate::files::Files;
use crate::limits::NODE_LIMIT;
use crate::note::NoteKind;
use crate::open_file::OpenFile;
use crate::open_files::OpenFiles;
use crate::trail::Trail;
use crate::visit::step;
use cb_include::Command;
use cb_paths::NoMemory;
use cb_tree::NodeKind;
use std::alloc::Global;

/// How far files were read.
#[derive(Clone, Copy)]
pub(crate) enum Reading {
    /// To their ends.
    Whole,
    /// To the last node that a pass reaches.
    Cut,
}

/// Reads a file, and those that it includes.
pub(crate) fn read<'a, F: Files>(
    alloc: Global,
    files: &'a F,
    command: &Command,
    trail: &mut Trail,
    file: OpenFile<'a>,
) -> Result<Reading, NoMemory>
    requires { ArePlaced trail.old.probes (file ∷ []) }
    ensures { IfOk result (λ reading. (waiting : List Waiting) → Goes (F.skeletons files.now) command.now
        (state_of trail.old (file.entry.frame ∷ []) waiting) (state_of trail.new [] (left_of reading waiting))) }
{
    let mut opened = OpenFiles::new(alloc, file);
    'nodes: while let Some(kind) = opened.settle()? {
        if trail.is_full() {
            end(alloc, trail, &opened.innermost, kind)?;
            return Ok(Reading::Cut);
        }
        step(alloc, files, command, trail, &mut opened, kind)?;
    }
    Ok(Reading::Whole)
}

/// Ends the pass before the next node of a file, which is of this kind and would be one too many.
fn end(alloc: Global, trail: &mut Trail, file: &OpenFile, kind: NodeKind) -> Result<(), NoMemory>
    requires next { IsReachedNext kind file.now.frame }
    requires full { trail.old.count ≡ NODE_LIMIT }
    ensures ended { OnOk result ((files : Skeletons) (command : Told) (fs : List Frame) (waiting : List Waiting)
        → IsStep files command (state_of trail.old (file.now.frame ∷ fs) waiting) (state_of trail.new [] [])) }
    ensures same { OnOk result (trail.new.probes ≡ trail.old.probes) }
{
    trail.note(alloc, file.path(), file.node(), NoteKind::Budget, b"")?;
    Ok(())
}
