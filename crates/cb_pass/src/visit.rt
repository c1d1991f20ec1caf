//! A visit of one node.
ghost use Rattle.std.specs.Prelude.{◌≡◌, ◌<◌, ◌+◌, ℕ, List, [], ◌∷◌, suc, length, IfOk, OnOk, Some};
ghost use Rattle.cb_pass.specs.Files.{Searches};
ghost use Rattle.cb_pass.specs.States.{Waiting};
ghost use Rattle.cb_pass.specs.Steps.{place_in};
ghost use Rattle.cb_pass.specs.inner.Moves.{HasEffectIn, IsMet, IsReachedFirst, IsReachedNext, IsStep, IsVisited};
ghost use Rattle.cb_pass.specs.inner.Trails.{ArePlaced, frames_of, next_rest, state_of};

use crate::effect::Effect;
use crate::entering::enter_header;
use crate::files::Files;
use crate::limits::NODE_LIMIT;
use crate::memory::Memory;
use crate::open_file::OpenFile;
use crate::open_files::OpenFiles;
use crate::trail::Trail;
use cb_include::{Command, Header, Origin};
use cb_paths::{Language, NoMemory};
use cb_tree::NodeKind;
use std::alloc::Global;

/// What the next node of a file does, which is of this kind, but for its section and for the file that it includes.
fn act(
    alloc: Global,
    language: Language,
    memory: &mut Memory,
    file: &OpenFile,
    kind: NodeKind,
) -> Result<Effect, NoMemory>
    requires { 0 < length file.now.frame.rest }
    ensures { IfOk result (λ e. HasEffectIn language kind (place_in file.now.frame) (next_rest file.now.frame.rest)
        file.now.frame.sections memory.old memory.new e.condition e.header) }
{
    if file.is_active(kind) {
        memory.act(alloc, language, kind, file.path(), file.node(), file.rest())
    } else {
        Ok(Effect::nothing())
    }
}

/// Visits the next node of a file, which is of this kind and is reached, but for the header that it includes, which is
/// the answer.
fn visit(
    alloc: Global,
    language: Language,
    trail: &mut Trail,
    file: &mut OpenFile,
    kind: NodeKind,
) -> Result<Option<Header>, NoMemory>
    requires next { IsReachedNext kind file.old.frame }
    requires room { trail.old.count < NODE_LIMIT }
    requires placed { ArePlaced trail.old.probes (file.old ∷ []) }
    ensures visited { IfOk result (λ header. IsVisited language trail.old file.old.frame trail.new file.new.frame
        header) }
    ensures placed { OnOk result (ArePlaced trail.new.probes (file.new ∷ [])) }
    ensures probes { OnOk result (trail.new.probes ≡ trail.old.probes) }
    ensures count { OnOk result (trail.new.count ≡ suc trail.old.count) }
    ensures behind { OnOk result ((file.new.frame.path ≡ file.old.frame.path) × (file.new.frame.depth
        ≡ file.old.frame.depth)
        × (file.new.frame.node ≡ suc file.old.frame.node)) }
{
    trail.mark(alloc, file.place(), file.node())?;
    let effect = act(alloc, language, &mut trail.memory, file, kind)?;
    file.advance(kind, effect.condition)?;
    Ok(effect.header)
}

/// The file that is entered for a header, which the node behind which a file stands includes.
fn include<'a, F: Files>(
    alloc: Global,
    files: &'a F,
    command: &Command,
    trail: &mut Trail,
    from: &OpenFile,
    header: &Header,
) -> Result<Option<OpenFile<'a>>, NoMemory>
    ensures { IfOk result (λ file. (node : ℕ) → from.now.frame.node ≡ suc node
        → IsMet (F.skeletons files.now) command.now
        (Searches (Some from.now.frame.path) (record { path = from.now.frame.path; node = node })
        (from.now.frame.depth + 1) header.now)
        trail.old trail.new file) }
{
    let origin = Origin::File(from.path());
    enter_header(
        alloc,
        files,
        command,
        trail,
        origin,
        from.path(),
        from.passed(),
        from.depth() + 1,
        header,
    )
}

/// Visits the next node of the innermost file, which is of this kind and is reached.
pub(crate) fn step<'a, F: Files>(
    alloc: Global,
    files: &'a F,
    command: &Command,
    trail: &mut Trail,
    opened: &mut OpenFiles<'a>,
    kind: NodeKind,
) -> Result<(), NoMemory>
    requires first { IsReachedFirst kind opened.old }
    requires room { trail.old.count < NODE_LIMIT }
    requires placed { ArePlaced trail.old.probes opened.old }
    ensures moved { OnOk result ((waiting : List Waiting) → IsStep (F.skeletons files.now) command.now
        (state_of trail.old (frames_of opened.old) waiting) (state_of trail.new (frames_of opened.new) waiting)) }
    ensures placed { OnOk result (ArePlaced trail.new.probes opened.new) }
    ensures count { OnOk result (trail.new.count ≡ suc trail.old.count) }
{
    let Some(header) = visit(alloc, command.language, trail, &mut opened.innermost, kind)? else {
        return Ok(());
    };
    let file = include(alloc, files, command, trail, &opened.innermost, &header)?;
    match file {
        Some(file) => opened.enter(file),
        None => Ok(()),
    }
}
