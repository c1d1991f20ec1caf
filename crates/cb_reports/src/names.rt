//! Names of platforms and sets of them.
ghost use Rattle.std.specs.Prelude.{◌≡◌, ◌++◌, [], slice_index_or, map, OnOk};
ghost use Rattle.cb_reports.specs.Inner.{separator};
ghost use Rattle.cb_reports.specs.Words.{platform_name as name_in, listed, set_text};

use crate::text::Text;
use cb_paths::{Bytes, NoMemory};

/// The name of the platform at a place.
pub(crate) fn name_at(names: &[Bytes], at: usize) -> &[u8]
    ensures { result.now ≡ slice_index_or names.now at [] }
{
    match names.get(at) {
        Some(name) => name.as_slice(),
        None => &[],
    }
}

/// The name of a platform, by its number from 1.
pub(crate) fn platform_name(names: &[Bytes], platform: u32) -> &[u8]
    ensures { result.now ≡ name_in names.now platform }
{
    name_at(names, platform.saturating_sub(1) as usize)
}

/// Adds what stands before the name at a place of a list.
pub(crate) fn add_separator(text: &mut Text, at: usize) -> Result<(), NoMemory>
    ensures { OnOk result (text.new ≡ text.old ++ separator at) }
{
    if at > 0 { text.add(b", ") } else { Ok(()) }
}

/// Adds a set of platforms.
pub(crate) fn add_set(text: &mut Text, names: &[Bytes], members: &[u32]) -> Result<(), NoMemory>
    ensures { OnOk result (text.new ≡ text.old ++ set_text names.now members.now) }
{
    text.add(b"{")?;
    add_members(text, names, members)?;
    text.add(b"}")
}

/// Adds the names of platforms, joined by commas.
fn add_members(text: &mut Text, names: &[Bytes], members: &[u32]) -> Result<(), NoMemory>
    ensures { OnOk result (text.new ≡ text.old ++ listed (map (name_in names.now) members.now)) }
{
    for at in 0..members.len() {
        add_separator(text, at)?;
        text.add(platform_name(names, members[at]))?;
    }
    Ok(())
}
