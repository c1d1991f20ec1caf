//! The pass of one command.
ghost use Rattle.std.specs.Prelude.{◌≡◌, ◌∷◌, ◌++◌, ◌+◌, [], List, map, min, slice_get, Some, IfOk, OnOk, OnErr};
ghost use Rattle.cb_tree.specs.Skeleton.{skeleton};
ghost use Rattle.cb_pass.specs.Ends.{end_of};
ghost use Rattle.cb_pass.specs.Files.{Agree, Files as Skeletons};
ghost use Rattle.cb_pass.specs.Meters.{meter_limit};
ghost use Rattle.cb_pass.specs.Passes.{IsPass, Leads, first_waiting};
ghost use Rattle.cb_pass.specs.States.{Waiting, Given, Forced, Main, Outcome};
ghost use Rattle.cb_pass.specs.inner.Moves.{Goes, GoOn};
ghost use Rattle.cb_pass.specs.inner.Readings.{begun, left_of};
ghost use Rattle.cb_pass.specs.inner.Trails.{state_of};

use crate::entering::enter_header;
use crate::files::Files;
use crate::memory::Memory;
use crate::meter::Meter;
use crate::note::NoteKind;
use crate::open_file::OpenFile;
use crate::passed::Passed;
use crate::reading::{Reading, read};
use crate::trail::Trail;
use cb_include::{Command, Header, Origin};
use cb_paths::{Bytes, NoMemory};
use cb_tree::Tree;
use std::alloc::Global;

/// The pass of a command over files. The meter rises by the number of the nodes that it reaches. The main file stands
/// first among the paths that it asks about. Its one error is being out of memory; the meter is then as it was.
///
/// Over any other files that agree with these on the probes, in absence or in skeleton, the pass is the same.
pub fn pass<F: Files>(
    alloc: Global,
    files: &F,
    command: &Command,
    meter: &mut Meter,
) -> Result<Passed, NoMemory>
    ensures value { IfOk result (λ passed. IsPass (F.skeletons files.now) command.now (end_of passed)) }
    ensures first { IfOk result (λ passed. slice_get passed.probes 0 ≡ Some command.now.main) }
    ensures frame { (other : Skeletons) → IfOk result (λ passed. Agree (F.skeletons files.now) other passed.probes
        → IsPass other command.now (end_of passed)) }
    ensures meter { IfOk result (λ passed. meter.new ≡ min (meter.old + passed.count) meter_limit) }
    ensures kept { OnErr result (meter.new ≡ meter.old) }
{
    let passed = run(alloc, files, command)?;
    meter.rise(passed.count());
    Ok(passed)
}

/// The pass of a command over files.
fn run<F: Files>(alloc: Global, files: &F, command: &Command) -> Result<Passed, NoMemory>
    ensures { IfOk result (λ passed. IsPass (F.skeletons files.now) command.now (end_of passed)) }
{
    let memory = Memory::new(alloc, command.language)?;
    let mut trail = Trail::new(alloc, memory, &command.main)?;
    walk(alloc, files, command, &mut trail)?;
    let passed = trail.finish(alloc)?;
    Ok(passed)
}

/// The whole way of a pass, from its start on.
fn walk<F: Files>(
    alloc: Global,
    files: &F,
    command: &Command,
    trail: &mut Trail,
) -> Result<(), NoMemory>
    requires { trail.old ≡ begun command.now }
    ensures { OnOk result ((end : Outcome) → Leads (F.skeletons files.now) command.now end (state_of trail.new [] [])
        → IsPass (F.skeletons files.now) command.now end) }
{
    match files.tree(&command.main) {
        Some(tree) => begin(alloc, files, command, trail, tree),
        None => {
            trail.note(alloc, &command.main, 0, NoteKind::NoMain, b"")?;
            Ok(())
        }
    }
}

/// Begins all that waits at the start, and last the main file, of which this is the tree.
fn begin<'a, F: Files>(
    alloc: Global,
    files: &'a F,
    command: &Command,
    trail: &mut Trail,
    main: &'a Tree,
) -> Result<(), NoMemory>
    requires main { F.skeletons files.now command.now.main ≡ Some (skeleton main.now) }
    requires probed { GoOn (command.now.main ∷ []) trail.old.probes }
    ensures { OnOk result (Goes (F.skeletons files.now) command.now
        (state_of trail.old [] (first_waiting command.now)) (state_of trail.new [] [])) }
{
    take_words(alloc, command, trail)?;
    if let Reading::Cut = force_all(alloc, files, command, trail)? {
        return Ok(());
    }
    read_main(alloc, files, command, trail, main)
}

/// Takes the words of `-D` and `-U`.
fn take_words(alloc: Global, command: &Command, trail: &mut Trail) -> Result<(), NoMemory>
    ensures { OnOk result ((files : Skeletons) (waiting : List Waiting) → Goes files command.now
        (state_of trail.old [] (map Given command.now.ops ++ waiting)) (state_of trail.new [] waiting)) }
{
    'words: for op in command.ops.as_slice() {
        trail.take_word(alloc, &command.main, op)?;
    }
    Ok(())
}

/// Reads the forced files.
fn force_all<F: Files>(
    alloc: Global,
    files: &F,
    command: &Command,
    trail: &mut Trail,
) -> Result<Reading, NoMemory>
    ensures { IfOk result (λ reading. (waiting : List Waiting) → Goes (F.skeletons files.now) command.now
        (state_of trail.old [] (map Forced command.now.forced ++ waiting))
        (state_of trail.new [] (left_of reading waiting))) }
{
    'texts: for text in command.forced.as_slice() {
        if let Reading::Cut = force(alloc, files, command, trail, text)? {
            return Ok(Reading::Cut);
        }
    }
    Ok(Reading::Whole)
}

/// Reads a forced file, of which this is the text.
fn force<F: Files>(
    alloc: Global,
    files: &F,
    command: &Command,
    trail: &mut Trail,
    text: &Bytes,
) -> Result<Reading, NoMemory>
    ensures { IfOk result (λ reading. (waiting : List Waiting) → Goes (F.skeletons files.now) command.now
        (state_of trail.old [] (Forced text.now ∷ waiting)) (state_of trail.new [] (left_of reading waiting))) }
{
    if text.is_empty() {
        trail.note(alloc, &command.main, 0, NoteKind::BadInclude, b"")?;
        return Ok(Reading::Whole);
    }
    let text = text.copy(alloc)?;
    let header = Header { angle: false, text };
    match enter_header(
        alloc,
        files,
        command,
        trail,
        Origin::Start,
        &command.main,
        0,
        0,
        &header,
    )? {
        Some(file) => read(alloc, files, command, trail, file),
        None => Ok(Reading::Whole),
    }
}

/// Reads the main file, of which this is the tree.
fn read_main<'a, F: Files>(
    alloc: Global,
    files: &'a F,
    command: &Command,
    trail: &mut Trail,
    main: &'a Tree,
) -> Result<(), NoMemory>
    requires main { F.skeletons files.now command.now.main ≡ Some (skeleton main.now) }
    requires probed { GoOn (command.now.main ∷ []) trail.old.probes }
    ensures { OnOk result (Goes (F.skeletons files.now) command.now
        (state_of trail.old [] (Main ∷ [])) (state_of trail.new [] [])) }
{
    let path = command.main.copy(alloc)?;
    let file = OpenFile::new(alloc, path, 0, main, 0);
    read(alloc, files, command, trail, file)?;
    Ok(())
}
