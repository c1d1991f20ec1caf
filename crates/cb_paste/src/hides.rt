//! Hide sets that share what they have in common.
ghost use Rattle.std.specs.Prelude.{◌≡◌, ◌<◌, ◌==◌, ◌&&◌, ◌||◌, ◌≤◌, ◌-◌, ℕ, true, [], length, IfOk};
ghost use Rattle.cb_paste.specs.Sets.{hides, Extends};
ghost use Rattle.cb_paste.specs.inner.Nodes.{side_of, with_side, in_cell, in_node, IsOver, IsNodeOver};

use cb_paths::NoMemory;
use std::alloc::Global;
use std::marker::Model;

/// A fork of a tree of places, which is a set itself. Below `odd` lies the set of each k whose 2 k + 1 the node has, and
/// below `even` that of each k whose 2 k + 2 it has.
#[derive(Clone, Copy, PartialEq, Eq)]
pub(crate) struct Cell {
    /// Whether it has the place 0.
    pub here: bool,
    /// The set of the odd places.
    pub odd: u32,
    /// The set of the even places other than 0.
    pub even: u32,
}

/// A node of a tree of places. Most sets have one place, for which there is no tree.
#[derive(Clone, Copy)]
pub(crate) enum Node {
    /// The set of one place.
    One(u32),
    /// Any other set.
    Fork(Cell),
}

/// The fork of the empty set.
const NONE: Cell = Cell {
    here: false,
    odd: 0,
    even: 0,
};

impl Cell {
    /// The set below the fork in which a place other than 0 lies.
    fn side(self, place: u32) -> u32
        ensures { result ≡ side_of self place }
    {
        if place % 2 == 1 { self.odd } else { self.even }
    }

    /// The fork with another set in the place of that one.
    fn with_side(self, place: u32, below: u32) -> Cell
        ensures { result ≡ with_side self place below }
    {
        if place % 2 == 1 {
            return Cell {
                here: self.here,
                odd: below,
                even: self.even,
            };
        }
        Cell {
            here: self.here,
            odd: self.odd,
            even: below,
        }
    }
}

/// Sets of the places of macros. A set is a number: 0 is the empty one. Contracts see the list of the sets from 1 on, each
/// a list of its places. Sets share the trees that they have in common, each at most 33 nodes deep.
#[derive(Drop)]
pub struct Hides {
    nodes: Vec<Node>,
}

impl Model for Hides {
    ghost use Rattle.std.specs.Prelude.{List, ℕ};

    ghost Value = { List (List ℕ) };

    ghost use Rattle.cb_paste.specs.inner.Cells.{sets_of, AreNodes};

    ghost view = { λ h. sets_of h.nodes.items };

    ghost invariant = { λ h. AreNodes h.nodes.items };
}

impl Hides {
    /// No set but the empty one.
    pub fn new(alloc: Global) -> Hides
        ensures { result ≡ [] }
    {
        Hides {
            nodes: Vec::new(alloc),
        }
    }

    /// The node of a set that is not the empty one.
    fn node(&self, set: u32) -> Node
        requires some { 0 < set }
        requires within { set ≤ length self.now }
        ensures places { (n : ℕ) → hides self.now set n ≡ in_node self.now result n }
        ensures below { IsNodeOver (set - 1) result }
    {
        self.nodes[set as usize - 1]
    }

    /// Whether a set has one place alone, this one, by its node.
    fn is_one(&self, set: u32, place: u32) -> bool
        requires some { 0 < set }
        requires within { set ≤ length self.now }
        ensures { result ≡ true → (n : ℕ) → hides self.now set n ≡ (n == place) }
    {
        match self.node(set) {
            Node::One(one) => one == place,
            Node::Fork(_) => false,
        }
    }

    /// Whether a set has such a fork as its node.
    fn is_fork(&self, set: u32, cell: Cell) -> bool
        requires { set ≤ length self.now }
        ensures { result ≡ true → (n : ℕ) → hides self.now set n ≡ in_cell self.now cell n }
    {
        if set == 0 {
            return false;
        }
        match self.node(set) {
            Node::One(_) => false,
            Node::Fork(other) => other == cell,
        }
    }

    /// A new node's set.
    fn push(&mut self, node: Node) -> Result<u32, NoMemory>
        requires { IsNodeOver (length self.old) node }
        ensures places { IfOk result (λ s. (n : ℕ) → hides self.new s n ≡ in_node self.old node n) }
        ensures within { IfOk result (λ s. s ≤ length self.new) }
        ensures kept { Extends self.old self.new }
    {
        if self.nodes.len() >= u32::MAX as usize {
            return Err(NoMemory);
        }
        self.nodes.push(node)?;
        Ok(self.nodes.len() as u32)
    }

    /// The set of a fork over others: one of two given sets where it is theirs, and else a new one. No fork but that of
    /// the empty set is empty.
    fn made(&mut self, a: u32, b: u32, cell: Cell) -> Result<u32, NoMemory>
        requires first { a ≤ length self.old }
        requires second { b ≤ length self.old }
        requires over { IsOver (length self.old) cell }
        ensures places { IfOk result (λ s. (n : ℕ) → hides self.new s n ≡ in_cell self.old cell n) }
        ensures within { IfOk result (λ s. s ≤ length self.new) }
        ensures kept { Extends self.old self.new }
    {
        if cell == NONE {
            return Ok(0);
        }
        if self.is_fork(a, cell) {
            return Ok(a);
        }
        if self.is_fork(b, cell) {
            return Ok(b);
        }
        self.push(Node::Fork(cell))
    }

    /// A fork with one place, over a new node where that is not 0.
    fn fork_of(&mut self, place: u32) -> Result<Cell, NoMemory>
        ensures places { IfOk result (λ c. (n : ℕ) → in_cell self.new c n ≡ (n == place)) }
        ensures over { IfOk result (λ c. IsOver (length self.new) c) }
        ensures kept { Extends self.old self.new }
    {
        if place == 0 {
            return Ok(Cell {
                here: true,
                odd: 0,
                even: 0,
            });
        }
        let below = self.push(Node::One((place - 1) / 2))?;
        Ok(NONE.with_side(place, below))
    }

    /// A fork with the places of a set that is not the empty one.
    fn opened(&mut self, set: u32) -> Result<Cell, NoMemory>
        requires some { 0 < set }
        requires within { set ≤ length self.old }
        ensures places { IfOk result (λ c. (n : ℕ) → in_cell self.new c n ≡ hides self.old set n) }
        ensures over { IfOk result (λ c. IsOver (length self.new) c) }
        ensures kept { Extends self.old self.new }
    {
        match self.node(set) {
            Node::One(place) => {
                let cell = self.fork_of(place)?;
                Ok(cell)
            }
            Node::Fork(cell) => Ok(cell),
        }
    }

    /// Whether a set has a place. It looks at no more nodes than the place has bits, and one more.
    pub fn has(&self, set: u32, place: u32) -> bool
        requires { set ≤ length self.now }
        ensures { result ≡ hides self.now set place }
    {
        let mut node = set;
        let mut rest = place;
        'nodes: while node != 0 {
            let cell = match self.node(node) {
                Node::One(one) => return rest == one,
                Node::Fork(cell) => cell,
            };
            if rest == 0 {
                return cell.here;
            }
            node = cell.side(rest);
            rest = (rest - 1) / 2;
        }
        false
    }

    /// The set with one more place; the set itself where it has the place. It makes no more nodes than twice the bits of
    /// the place, and two more.
    pub fn with(&mut self, set: u32, place: u32) -> Result<u32, NoMemory>
        requires { set ≤ length self.old }
        ensures places { IfOk result (λ s. (n : ℕ) → hides self.new s n ≡ ((n == place) || hides self.old set n)) }
        ensures within { IfOk result (λ s. s ≤ length self.new) }
        ensures kept { Extends self.old self.new }
    {
        if set == 0 {
            let one = self.push(Node::One(place))?;
            return Ok(one);
        }
        if self.is_one(set, place) {
            return Ok(set);
        }
        let cell = self.opened(set)?;
        if place == 0 {
            let with_zero = Cell {
                here: true,
                odd: cell.odd,
                even: cell.even,
            };
            let made = self.made(set, 0, with_zero)?;
            return Ok(made);
        }
        let below = self.with(cell.side(place), (place - 1) / 2)?;
        let made = self.made(set, 0, cell.with_side(place, below))?;
        Ok(made)
    }

    /// A set of one place where another has it, and else the empty one.
    fn common(&self, one: u32, place: u32, other: u32) -> u32
        requires one { one ≤ length self.now }
        requires other { other ≤ length self.now }
        requires place { (n : ℕ) → hides self.now one n ≡ (n == place) }
        ensures places { (n : ℕ) → hides self.now result n ≡ (hides self.now one n && hides self.now other n) }
        ensures within { result ≤ length self.now }
    {
        if self.has(other, place) { one } else { 0 }
    }

    /// The common part of two sets; one of the two where it is all of it. What the two share is not looked at.
    pub fn both(&mut self, a: u32, b: u32) -> Result<u32, NoMemory>
        requires first { a ≤ length self.old }
        requires second { b ≤ length self.old }
        ensures places { IfOk result (λ s. (n : ℕ) → hides self.new s n ≡ (hides self.old a n && hides self.old b n)) }
        ensures within { IfOk result (λ s. s ≤ length self.new) }
        ensures kept { Extends self.old self.new }
    {
        if a == b {
            return Ok(a);
        }
        if a == 0 || b == 0 {
            return Ok(0);
        }
        let left = match self.node(a) {
            Node::One(place) => return Ok(self.common(a, place, b)),
            Node::Fork(cell) => cell,
        };
        let right = match self.node(b) {
            Node::One(place) => return Ok(self.common(b, place, a)),
            Node::Fork(cell) => cell,
        };
        let odd = self.both(left.odd, right.odd)?;
        let even = self.both(left.even, right.even)?;
        let here = left.here && right.here;
        let made = self.made(a, b, Cell { here, odd, even })?;
        Ok(made)
    }

    /// The union of two sets; one of the two where it is all of it. What the two share is not looked at.
    pub fn either(&mut self, a: u32, b: u32) -> Result<u32, NoMemory>
        requires first { a ≤ length self.old }
        requires second { b ≤ length self.old }
        ensures places { IfOk result (λ s. (n : ℕ) → hides self.new s n ≡ (hides self.old a n || hides self.old b n)) }
        ensures within { IfOk result (λ s. s ≤ length self.new) }
        ensures kept { Extends self.old self.new }
    {
        if a == b {
            return Ok(a);
        }
        if a == 0 {
            return Ok(b);
        }
        if b == 0 {
            return Ok(a);
        }
        let left = match self.node(a) {
            Node::One(place) => {
                let more = self.with(b, place)?;
                return Ok(more);
            }
            Node::Fork(cell) => cell,
        };
        let right = match self.node(b) {
            Node::One(place) => {
                let more = self.with(a, place)?;
                return Ok(more);
            }
            Node::Fork(cell) => cell,
        };
        let odd = self.either(left.odd, right.odd)?;
        let even = self.either(left.even, right.even)?;
        let here = left.here || right.here;
        let made = self.made(a, b, Cell { here, odd, even })?;
        Ok(made)
    }
}
