//! What of a path lies below a folder.
ghost use Rattle.std.specs.Prelude.{◌≡◌, ◌<◌, length, option_map};
ghost use Rattle.std.specs.Option.{option_copied};
ghost use Rattle.cb_outside.specs.Trees.{below, slash_in, file_in, folder_in};

/// What of a path lies below a folder. The top is the empty text.
fn below<'a>(folder: &[u8], path: &'a [u8]) -> Option<&'a [u8]>
    ensures { option_map (λ rest. rest.now) result ≡ below folder.now path.now }
{
    if folder.is_empty() {
        return Some(path);
    }
    path.strip_prefix(folder)?.strip_prefix(b"/".as_slice())
}

/// The place of the first slash.
fn slash_in(bytes: &[u8]) -> Option<usize>
    ensures value { result ≡ slash_in bytes.now }
{
    bytes.iter().position(|byte| *byte == b'/')
}

/// The name that a path has in a folder, if it stands directly in it.
pub(crate) fn file_in<'a>(folder: &[u8], path: &'a [u8]) -> Option<&'a [u8]>
    ensures { option_map (λ name. name.now) result ≡ file_in folder.now path.now }
{
    let rest = below(folder, path)?;
    match slash_in(rest) {
        Some(_at) => None,
        None => Some(rest),
    }
}

/// The folder in a folder through which a path goes on, if it does.
pub(crate) fn folder_in<'a>(folder: &[u8], path: &'a [u8]) -> Option<&'a [u8]>
    ensures { option_map (λ name. name.now) result ≡ folder_in folder.now path.now }
{
    let rest = below(folder, path)?;
    let at = slash_in(rest)?;
    Some(&rest[..at])
}
