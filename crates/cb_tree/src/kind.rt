//! The kind of a directive line, and what stands behind its name.
ghost use Rattle.std.specs.Prelude.{◌≡◌, codes};
ghost use Rattle.cb_tree.specs.Roles.{is_line};
ghost use Rattle.cb_tree.specs.Kinds.{is_hash_text, begins_with_name, kind_of_name, kind_behind_hash, rest_behind_hash};

use crate::node::NodeKind;
use cb_tokens::Token;

/// Whether these are the bytes of `#` or `%:`.
#[tactic(auto, unfolding(crate::specs::Kinds::is_hash_text))]
pub(crate) fn is_hash_text(text: &[u8]) -> bool
    ensures { result ≡ is_hash_text text.now }
{
    text == b"#".as_slice() || text == b"%:".as_slice()
}

/// Whether the identifier `once` stands first.
fn begins_with_once(tokens: &[Token]) -> bool
    ensures { result ≡ begins_with_name (codes "once") tokens.now }
{
    match tokens {
        [] => false,
        [first, ..] => first.is_identifier() && first.text.as_slice() == b"once".as_slice(),
    }
}

/// What stands behind the name among the tokens behind a `#`; all of them where they begin with no name.
pub(crate) fn rest_behind_hash(tokens: &[Token]) -> &[Token]
    ensures { result.now ≡ rest_behind_hash tokens.now }
{
    match tokens {
        [first, rest @ ..] if first.is_identifier() => rest,
        _ => tokens,
    }
}

/// Whether a node of the kind is a directive line.
pub(crate) fn is_line(kind: NodeKind) -> bool
    ensures { result ≡ is_line kind }
{
    kind != NodeKind::Text
}

/// The kind of a directive by its name and the tokens behind that.
#[tactic(auto, unfolding(crate::specs::Kinds::kind_of_name))]
fn kind_of_name(name: &[u8], rest: &[Token]) -> NodeKind
    ensures { result ≡ kind_of_name name.now rest.now }
{
    if name == b"if".as_slice() {
        NodeKind::If
    } else if name == b"ifdef".as_slice() {
        NodeKind::Ifdef
    } else if name == b"ifndef".as_slice() {
        NodeKind::Ifndef
    } else if name == b"elif".as_slice() {
        NodeKind::Elif
    } else if name == b"else".as_slice() {
        NodeKind::Else
    } else if name == b"endif".as_slice() {
        NodeKind::Endif
    } else if name == b"define".as_slice() {
        NodeKind::Define
    } else if name == b"undef".as_slice() {
        NodeKind::Undef
    } else if name == b"include".as_slice() {
        NodeKind::Include
    } else if name == b"error".as_slice() {
        NodeKind::Error
    } else if name == b"pragma".as_slice() && begins_with_once(rest) {
        NodeKind::Once
    } else {
        NodeKind::Other
    }
}

/// The kind of a directive by the tokens behind its `#`.
pub(crate) fn kind_behind_hash(tokens: &[Token]) -> NodeKind
    ensures { result ≡ kind_behind_hash tokens.now }
{
    match tokens {
        [first, rest @ ..] if first.is_identifier() => kind_of_name(first.text.as_slice(), rest),
        _ => NodeKind::Other,
    }
}
