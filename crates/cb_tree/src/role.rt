//! What a node is to the if sections.
ghost use Rattle.std.specs.Prelude.{◌≡◌};
ghost use Rattle.cb_tree.specs.Roles.{role_of};

use crate::node::NodeKind;

/// What a node is to the if sections.
#[derive(Clone, Copy)]
pub(crate) enum Role {
    /// It stands within a group, or outside of all sections.
    Within,
    /// It opens a section.
    Opens,
    /// It begins a further group of a section.
    Turns,
    /// It closes a section.
    Closes,
}

/// The role of a node of this kind.
pub(crate) fn find_role(kind: NodeKind) -> Role
    ensures { result ≡ role_of kind }
{
    match kind {
        NodeKind::If | NodeKind::Ifdef | NodeKind::Ifndef => Role::Opens,
        NodeKind::Elif | NodeKind::Else => Role::Turns,
        NodeKind::Endif => Role::Closes,
        NodeKind::Text
        | NodeKind::Define
        | NodeKind::Undef
        | NodeKind::Include
        | NodeKind::Once
        | NodeKind::Error
        | NodeKind::Other => Role::Within,
    }
}
