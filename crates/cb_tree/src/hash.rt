//! The `#` of directive lines.
ghost use Rattle.std.specs.Prelude.{◌≡◌, length, true};
ghost use Rattle.cb_tree.specs.Kinds.{is_hash_text};
ghost use Rattle.cb_tree.specs.inner.Heads.{hash_text};

/// The spelling of the `#` of a directive line.
#[derive(Clone, Copy, Debug, PartialEq, Eq)]
pub(crate) enum Hash {
    /// `#`
    Sign,
    /// `%:`
    Digraph,
}

/// The spelling that these bytes are.
pub(crate) fn hash_of(text: &[u8]) -> Hash
    requires { is_hash_text text.now ≡ true }
    ensures { hash_text result ≡ text.now }
{
    if text.len() == 1 {
        Hash::Sign
    } else {
        Hash::Digraph
    }
}
