//! The commands of an analysis.
ghost use Rattle.std.specs.Prelude.{◌≡◌, ◌≤◌, Some, length, sum_by, IfOk};
ghost use Rattle.std.specs.Option.{option_copied};
ghost use Rattle.std.specs.BTreeMap.{insert_entry};
ghost use Rattle.std.specs.Ordering.{nat_cmp};
ghost use Rattle.std.specs.Cmp.Lexicographic.{slice_cmp};
ghost use Rattle.cb_paths.specs.Paths.{folder_at};
ghost use Rattle.cb_analysis.specs.declared.platform.Platform.{Platform as Spec};
ghost use Rattle.cb_inputs.specs.Commands.{command_count, entries_at, makes, root_of};
ghost use Rattle.cb_inputs.specs.Databases.{database_entries, IsReadDatabase};
ghost use Rattle.cb_inputs.specs.Readings.{Known};

use crate::database::Database;
use crate::databases::Databases;
use cb_analysis::{Analysis, Platform};
use cb_compdb::{Entry, Made, command};
use cb_paths::{Dir, NoMemory, Path, PathFault};
use std::alloc::Global;
use std::marker::Model;

/// What the entries of a database make, in their order, which contracts see as the list of it.
#[derive(Drop)]
pub struct MadeList {
    items: Vec<Made>,
}

impl Model for MadeList {
    ghost use Rattle.std.specs.Prelude.{List};
    ghost use Rattle.cb_compdb.specs.declared.made.Made.{Made};

    ghost Value = { List Made };

    ghost view = { λ m. m.items.items };
}

impl MadeList {
    /// What the entries make, in their order.
    pub fn as_slice(&self) -> &[Made]
        ensures { result.now ≡ self.now }
    {
        self.items.as_slice()
    }

    /// The number of entries.
    pub fn len(&self) -> usize
        ensures { result ≡ length self.now }
    {
        self.items.len()
    }

    /// Forgets them all. It takes no memory.
    pub fn clear(&mut self)
        ensures { length self.new ≡ 0 }
    {
        self.items.clear();
    }
}

/// What entries make, where `root` is the path that the top has in their database.
pub fn made(alloc: Global, root: &Dir, entries: &[Entry]) -> Result<MadeList, NoMemory>
    ensures { IfOk result (λ made. made ≡ makes root.now entries.now) }
{
    let mut items = Vec::new(alloc);
    'entries: for entry in entries {
        let made = command(alloc, entry, root)?;
        items.push(made)?;
    }
    Ok(MadeList { items })
}

/// The folder that a text names from another, if it names one.
#[tactic(auto, unfolding(cb_paths::specs::Paths::folder_at))]
fn folder_at(alloc: Global, text: &[u8], base: &Dir) -> Result<Option<Dir>, NoMemory>
    ensures { IfOk result (λ dir. dir ≡ folder_at text.now base.now) }
{
    match Dir::read(alloc, text, base) {
        Ok(dir) => Ok(Some(dir)),
        Err(PathFault::Bad(_)) => Ok(None),
        Err(PathFault::NoMemory) => Err(NoMemory),
    }
}

/// The path that the top has in the databases of an analysis: the folder that its root names, read from the base, and
/// the base itself where it names none.
pub fn root(alloc: Global, base: &Dir, analysis: &Analysis) -> Result<Dir, NoMemory>
    ensures { IfOk result (λ root. root ≡ root_of base.now (Some analysis.now)) }
{
    let Some(text) = analysis.root() else {
        return base.copy(alloc);
    };
    match folder_at(alloc, text, base)? {
        Some(root) => Ok(root),
        None => base.copy(alloc),
    }
}

/// The number of the entries of the database at a path; none where there is no database.
fn entry_count(databases: &Databases, path: &Path) -> u64
    ensures count { result ≡ length (entries_at (database_entries databases.now) path.now) }
    ensures few { result ≤ 20000 }
{
    match databases.get(path) {
        Some(database) => database.entries.len() as u64,
        None => 0,
    }
}

/// The number of the entries of all platforms' databases.
fn entry_sum(platforms: &[Platform], databases: &Databases) -> u64
    requires few { length platforms.now ≤ 32 }
    ensures { result
        ≡ sum_by (λ (platform : Spec). length (entries_at (database_entries databases.now) platform.commands))
        platforms.now }
{
    let mut sum = 0;
    'platforms: for platform in platforms {
        sum += entry_count(databases, &platform.commands);
    }
    sum
}

/// The number of the commands of an analysis that may be missing: the sum over its platforms of the entries of their
/// databases, and 0 where it is missing. A platform whose database is absent has no entry; two platforms with one
/// database have its entries each.
pub fn command_count(analysis: Option<&Analysis>, databases: &Databases) -> u64
    ensures { (known : Known) → option_copied analysis.entry ≡ known.analysis
        → database_entries databases.now ≡ known.databases → result ≡ command_count known }
{
    match analysis {
        Some(analysis) => entry_sum(analysis.platforms(), databases),
        None => 0,
    }
}

/// The number of the entries of the database at a path, where `fresh` stands at `key`; none where there is no
/// database.
fn entry_count_with(databases: &Databases, key: &Path, fresh: &Database, path: &Path) -> u64
    requires read { IsReadDatabase fresh.now }
    ensures count { result ≡ length
        (entries_at (database_entries (insert_entry (slice_cmp nat_cmp) databases.now key.now fresh.now)) path.now) }
    ensures few { result ≤ 20000 }
{
    if path == key {
        return fresh.entries.len() as u64;
    }
    entry_count(databases, path)
}

/// The number of the entries of all platforms' databases, where `fresh` stands at `key`.
fn entry_sum_with(
    platforms: &[Platform],
    databases: &Databases,
    key: &Path,
    fresh: &Database,
) -> u64
    requires few { length platforms.now ≤ 32 }
    requires read { IsReadDatabase fresh.now }
    ensures { result
        ≡ sum_by (λ (platform : Spec). length
        (entries_at (database_entries (insert_entry (slice_cmp nat_cmp) databases.now key.now fresh.now))
        platform.commands)) platforms.now }
{
    let mut sum = 0;
    'platforms: for platform in platforms {
        sum += entry_count_with(databases, key, fresh, &platform.commands);
    }
    sum
}

/// The number of the commands of an analysis that may be missing, where `fresh` stands at `key` in the place of the
/// database that stood there.
pub(crate) fn command_count_with(
    analysis: Option<&Analysis>,
    databases: &Databases,
    key: &Path,
    fresh: &Database,
) -> u64
    requires { IsReadDatabase fresh.now }
    ensures { (known : Known) → option_copied analysis.entry ≡ known.analysis
        → database_entries (insert_entry (slice_cmp nat_cmp) databases.now key.now fresh.now) ≡ known.databases
        → result ≡ command_count known }
{
    match analysis {
        Some(analysis) => entry_sum_with(analysis.platforms(), databases, key, fresh),
        None => 0,
    }
}
