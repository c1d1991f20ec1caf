//! Whether two trees agree in all that is no text and no line.
ghost use Rattle.std.specs.Prelude.{◌≡◌, ◌↔◌, IsTrue};
ghost use Rattle.cb_tree.specs.Skeleton.{skeleton};

use crate::nodes::Nodes;
use cb_tokens::Token;

/// Whether two lists of tokens agree.
pub(crate) fn are_same_tokens(a: &[Token], b: &[Token]) -> bool
    ensures { IsTrue result ↔ (a.now ≡ b.now) }
{
    if a.len() != b.len() {
        return false;
    }
    for i in 0..a.len() {
        if !a[i].is_same(&b[i]) {
            return false;
        }
    }
    true
}

/// Whether two lists of nodes agree but for their lines.
pub(crate) fn are_same_bones(a: &Nodes, b: &Nodes) -> bool
    ensures { IsTrue result ↔ (skeleton a.now ≡ skeleton b.now) }
{
    if a.len() != b.len() {
        return false;
    }
    for i in 0..a.len() {
        if !a.has_same_bone(b, i) {
            return false;
        }
    }
    true
}
