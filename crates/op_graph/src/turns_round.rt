//! The turns round an operation, given without memory.

ghost use Rattle.std.specs.Prelude.{◌≡◌, ◌≤◌, ◌<◌, ◌+◌, ◌*◌, ℕ, Some, None, IfSome, drop, length, reverse, slice_get};
ghost use Rattle.vcp_base.specs.Limits.{most_turn_nodes};
ghost use Rattle.op_graph.specs.Lists.{turns_back, turn_of};
ghost use Rattle.op_graph.specs.Chain.{parent as parent_of_node, up, AreNodes, Kept};

use crate::op::TurnNode;
use std::marker::Model;
use vcp_base::Turn;

/// How many turn nodes a stretch of a chain has; a chain of 65,536 nodes has 256 stretches.
const STRETCH: usize = 256;

/// The turns round an operation, from the outermost inwards, seen as the list of those that are
/// still to be given. It takes no memory.
///
/// A chain of turn nodes is read outwards, and may have 65,536 of them. So every 256th node is kept,
/// and each stretch between two of these is read again when its turns are given. That takes two steps
/// a node.
#[derive(Drop)]
pub struct TurnsRound<'a> {
    nodes: &'a [TurnNode],
    innermost: u32,
    /// The first node of each stretch that is still to be read again, the innermost first.
    marks: [u32; STRETCH],
    stretches: u32,
    /// The nodes of the present stretch, the innermost first.
    stretch: [u32; STRETCH],
    left: u32,
}

impl<'a> Model for TurnsRound<'a> {
    ghost use Rattle.std.specs.Prelude.{◌+◌, ◌*◌, List};
    ghost use Rattle.vcp_base.specs.declared.turns.Turn.{Turn};
    ghost use Rattle.op_graph.specs.Chain.{innermost as innermost_of, Kept};

    ghost Value = { List Turn };

    ghost view = { λ t. innermost_of t.nodes.now t.innermost (256 * t.stretches + t.left) };

    ghost invariant = { λ t. Kept t.nodes.now t.innermost t.stretches t.left t.marks t.stretch };
}

/// The parent of node `n`, counted from 1; 0 for none.
fn parent(nodes: &[TurnNode], n: u32) -> u32
    ensures { result ≡ parent_of_node nodes.now n }
{
    if n == 0 {
        return 0;
    }
    match nodes.get(n as usize - 1) {
        Some(node) => node.parent,
        None => 0,
    }
}

/// Writes the nodes of a stretch, from node `n` outwards. Gives how many there are, and the node
/// after them, or 0.
fn fill(nodes: &[TurnNode], n: u32, stretch: &mut [u32; STRETCH]) -> (u32, u32)
    ensures filled { (i : ℕ) → i < result.0 → slice_get stretch.new i ≡ Some (up nodes.now n i) }
    ensures some { (i : ℕ) → i < result.0 → 1 ≤ up nodes.now n i }
    ensures few { result.0 ≤ 256 }
    ensures next { result.1 ≡ up nodes.now n result.0 }
    ensures whole { result.0 < 256 → result.1 ≡ 0 }
{
    let mut node = n;
    'nodes: for i in 0..STRETCH {
        if node == 0 {
            return (i as u32, 0);
        }
        stretch[i] = node;
        node = parent(nodes, node);
    }
    (STRETCH as u32, node)
}

/// Reads the next stretch again where the present one has been given. Gives how many stretches come
/// after the present one, and how many nodes of it are left; `None` where all have been given.
fn refilled(
    nodes: &[TurnNode],
    marks: &[u32; STRETCH],
    stretches: u32,
    stretch: &mut [u32; STRETCH],
    left: u32,
) -> Option<(u32, u32)>
    requires { (n : ℕ) × Kept nodes.now n stretches left marks.now stretch.old }
    ensures some { IfSome result (λ r. 1 ≤ r.1) }
    ensures kept { (n : ℕ) → Kept nodes.now n stretches left marks.now stretch.old → IfSome result (λ r. Kept nodes.now n r.0 r.1 marks.now stretch.new) }
    ensures count { (n : ℕ) → Kept nodes.now n stretches left marks.now stretch.old → IfSome result (λ r. 256 * r.0 + r.1 ≡ 256 * stretches + left) }
    ensures none { result ≡ None → 256 * stretches + left ≡ 0 }
    ensures unchanged { result ≡ None → stretch.new ≡ stretch.old }
{
    if left > 0 {
        return Some((stretches, left));
    }
    if stretches == 0 {
        return None;
    }
    let mark = marks[stretches as usize - 1];
    let (left, _) = fill(nodes, mark, stretch);
    Some((stretches - 1, left))
}

/// The turn of a node.
fn turn(node: &TurnNode) -> Turn
    ensures { result ≡ turn_of node.now }
{
    Turn {
        name: node.name,
        value: node.value,
    }
}

/// The turns from node `n` outwards; 0 for none.
pub(crate) fn turns_round(nodes: &[TurnNode], n: u32) -> TurnsRound<'_>
    requires there { n ≤ length nodes.now }
    requires few { length nodes.now ≤ most_turn_nodes }
    requires nodes { AreNodes nodes.now }
    ensures { result ≡ turns_back (reverse nodes.now) n }
{
    let mut marks = [0; STRETCH];
    let mut stretch = [0; STRETCH];
    let mut stretches = 0;
    let mut node = n;
    let (mut left, mut next) = fill(nodes, node, &mut stretch);
    'stretches: while next != 0 {
        marks[stretches as usize] = node;
        stretches += 1;
        node = next;
        (left, next) = fill(nodes, node, &mut stretch);
    }
    TurnsRound {
        nodes,
        innermost: n,
        marks,
        stretches,
        stretch,
        left,
    }
}

impl TurnsRound<'_> {
    /// Tells the next turn, from the outermost inwards; `None` after the innermost.
    pub fn next(&mut self) -> Option<Turn>
        ensures turn { result ≡ slice_get self.old 0 }
        ensures rest { self.new ≡ drop 1 self.old }
    {
        let at = self.stretches;
        let (stretches, left) = refilled(
            self.nodes,
            &self.marks,
            at,
            &mut self.stretch,
            self.left,
        )?;
        self.stretches = stretches;
        self.left = left - 1;
        let node = self.stretch[self.left as usize];
        Some(turn(&self.nodes[node as usize - 1]))
    }
}
