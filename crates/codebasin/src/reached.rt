//! The counted lines that a pass reaches.
ghost use Rattle.std.specs.Prelude.{◌≡◌, ◌++◌, [], OnOk, IfOk, if◌then◌else◌};
ghost use Rattle.cb_pass.specs.Reached.{has_bit};
ghost use Rattle.codebasin.specs.Specialise.{reached_lines};
ghost use Rattle.codebasin.specs.Texts.{numbers_text};

use crate::texts::push_numbers;
use cb_lines::Lines;
use cb_pass::NodeSet;
use cb_paths::NoMemory;
use cb_tree::Tree;
use std::alloc::Global;

/// Adds the numbers of a set of lines to a text, each on a line of its own, where they are reached.
fn push_where(text: &mut Vec<u8>, reached: bool, lines: &Lines) -> Result<(), NoMemory>
    ensures { OnOk result (text.new.items ≡ text.old.items ++ numbers_text (if reached then lines.now else [])) }
{
    if reached {
        push_numbers(text, lines)?;
    }
    Ok(())
}

/// The numbers of the counted lines of the nodes in a set, each on a line of its own.
pub(crate) fn reached_text(alloc: Global, tree: &Tree, row: &NodeSet) -> Result<Vec<u8>, NoMemory>
    ensures { IfOk result (λ text. text.items ≡ numbers_text (reached_lines (has_bit row.now) tree.now)) }
{
    let mut text = Vec::new(alloc);
    'nodes: for index in 0..tree.len() {
        let node = index + 1;
        push_where(&mut text, row.has(node), tree.counted(node))?;
    }
    Ok(text)
}
