//! From the nodes of a sound source to its parts.
ghost use Rattle.std.specs.Prelude.{◌≡◌, ◌<◌, ◌≤◌, ◌∷◌, ◌++◌, [], length, take, drop, None, IfOk, OnOk};
ghost use Rattle.cb_tree.specs.Nesting.{places_of, places_from};
ghost use Rattle.cb_tree.specs.inner.Frames.{section_places, inner_places};
ghost use Rattle.cb_tree.specs.inner.Frames.{Puts, group_ended, AreStacked, MayStand, IsPlaced};
ghost use Rattle.cb_tree.specs.Groups.{kinds_of};
ghost use Rattle.cb_tree.specs.Sections.{first_fault};

use crate::nodes::Nodes;
use crate::part::{Group, Groups, Part, Parts, Section};
use crate::role::{Role, find_role};
use cb_paths::NoMemory;
use sqlite_items::Items;
use std::alloc::Global;

/// Cuts what lies on a stack from a place on off it, into exactly the room that it needs.
fn cut_off<T>(stack: &mut Vec<T>, at: usize) -> Result<Items<T>, NoMemory>
    requires { at ≤ length stack.old.items }
    ensures rest { OnOk result (stack.new.items ≡ take at stack.old.items) }
    ensures top { IfOk result (λ top. top ≡ drop at stack.old.items) }
{
    let top = stack.split_off(at)?;
    Ok(Items::from_vec(top))
}

/// Puts a plain node on the stack of parts.
fn push_plain(parts: &mut Vec<Part>, node: u32) -> Result<(), NoMemory>
    ensures { OnOk result (Puts places_of parts.old.items (record { role = Role.Within; node = node } ∷ []) parts.new.items) }
{
    parts.push(Part::Plain(node))?;
    Ok(())
}

/// Puts a section on the stack of parts.
fn push_section(parts: &mut Vec<Part>, groups: Groups, end: u32) -> Result<(), NoMemory>
    ensures { OnOk result (Puts places_of parts.old.items (section_places groups end) parts.new.items) }
{
    parts.push(Part::Section(Section { groups, end }))?;
    Ok(())
}

/// Puts a group on the stack of groups.
fn push_group(groups: &mut Vec<Group>, head: u32, parts: Parts) -> Result<(), NoMemory>
    ensures { OnOk result (Puts inner_places groups.old.items (record { head = head; inner = places_of parts } ∷ []) groups.new.items) }
{
    groups.push(Group { head, parts })?;
    Ok(())
}

/// An if section that is open.
#[derive(Clone, Copy)]
pub(crate) struct Frame {
    /// How many parts lay on the stack when the group began that has not ended.
    pub(crate) parts: usize,
    /// How many groups lay on the stack when the section began.
    pub(crate) groups: usize,
    /// The directive that begins that group.
    pub(crate) head: u32,
}

/// The nodes of a source up to a place: the sections that are open there, and the stacks that these share.
#[derive(Drop)]
pub(crate) struct Nesting {
    /// The open sections, the innermost last.
    pub(crate) frames: Vec<Frame>,
    /// The parts outside of all sections, and then those of each group that has not ended.
    pub(crate) parts: Vec<Part>,
    /// The groups that have ended of each open section.
    pub(crate) groups: Vec<Group>,
}

/// Ends the group of the innermost section that has not ended.
fn end_group(parts: &mut Vec<Part>, groups: &mut Vec<Group>, frame: Frame) -> Result<(), NoMemory>
    requires { frame.parts ≤ length parts.old.items }
    ensures parts { OnOk result (parts.new.items ≡ take frame.parts parts.old.items) }
    ensures groups { OnOk result (Puts inner_places groups.old.items (group_ended frame parts.old.items ∷ []) groups.new.items) }
{
    let inner = cut_off(parts, frame.parts)?;
    push_group(groups, frame.head, inner)
}

/// Places a node that stands within a group.
fn stay(nesting: &mut Nesting, node: u32) -> Result<(), NoMemory>
    requires { AreStacked nesting.old }
    ensures { OnOk result (IsPlaced nesting.old Role.Within node nesting.new) }
{
    push_plain(&mut nesting.parts, node)?;
    Ok(())
}

/// Places a node that opens a section.
fn open_section(nesting: &mut Nesting, node: u32) -> Result<(), NoMemory>
    requires { AreStacked nesting.old }
    ensures { OnOk result (IsPlaced nesting.old Role.Opens node nesting.new) }
{
    nesting.frames.push(Frame {
        parts: nesting.parts.len(),
        groups: nesting.groups.len(),
        head: node,
    })?;
    Ok(())
}

/// Places a node that begins a further group of the innermost section.
fn turn_section(nesting: &mut Nesting, node: u32) -> Result<(), NoMemory>
    requires stacked { AreStacked nesting.old }
    requires open_one { 0 < length nesting.old.frames.items }
    ensures { OnOk result (IsPlaced nesting.old Role.Turns node nesting.new) }
{
    let Some(frame) = nesting.frames.pop() else {
        unreachable!()
    };
    end_group(&mut nesting.parts, &mut nesting.groups, frame)?;
    nesting.frames.push(Frame {
        parts: frame.parts,
        groups: frame.groups,
        head: node,
    })?;
    Ok(())
}

/// Places a node that closes the innermost section.
fn close_section(nesting: &mut Nesting, node: u32) -> Result<(), NoMemory>
    requires stacked { AreStacked nesting.old }
    requires open_one { 0 < length nesting.old.frames.items }
    ensures { OnOk result (IsPlaced nesting.old Role.Closes node nesting.new) }
{
    let Some(frame) = nesting.frames.pop() else {
        unreachable!()
    };
    end_group(&mut nesting.parts, &mut nesting.groups, frame)?;
    let groups = cut_off(&mut nesting.groups, frame.groups)?;
    push_section(&mut nesting.parts, groups, node)?;
    Ok(())
}

/// Places a node in its role.
fn place(nesting: &mut Nesting, role: Role, node: u32) -> Result<(), NoMemory>
    requires stacked { AreStacked nesting.old }
    requires may { MayStand role (length nesting.old.frames.items) }
    ensures { OnOk result (IsPlaced nesting.old role node nesting.new) }
{
    match role {
        Role::Within => stay(nesting, node),
        Role::Opens => open_section(nesting, node),
        Role::Turns => turn_section(nesting, node),
        Role::Closes => close_section(nesting, node),
    }
}

/// The parts of a source whose nodes have no fault.
pub(crate) fn nest(alloc: Global, nodes: &Nodes) -> Result<Parts, NoMemory>
    requires few { length nodes.now ≤ 4194304 }
    requires sound { first_fault nodes.now [] ≡ None }
    ensures { IfOk result (λ parts. places_of parts ≡ places_from 1 (kinds_of nodes.now)) }
{
    let mut nesting = Nesting {
        frames: Vec::new(alloc),
        parts: Vec::new(alloc),
        groups: Vec::new(alloc),
    };
    for i in 0..nodes.len() {
        place(&mut nesting, find_role(nodes.kind(i)), i as u32 + 1)?;
    }
    let Nesting {
        frames: _,
        mut parts,
        groups: _,
    } = nesting;
    parts.shrink_to_fit();
    Ok(Items::from_vec(parts))
}
