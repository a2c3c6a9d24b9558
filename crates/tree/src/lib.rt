// One tree's words, handed on as a part of the cache's: the Rust's `Tree`. `edges` says where the queue and the closed words start.
// Ported from open-rmf/mapf (mapf/src: algorithm/tree.rs) and changed; Apache License 2.0, see NOTICE.

#![tactic(auto)]

pub mod partial_keyed_closed_set;

ghost use Rattle.std.specs.Prelude.{◌≡◌, ◌+◌, ◌<◌, length, set};
ghost use Rattle.std.proofs.lemmas.List.Edits.{sets};
ghost use Rattle.layout.specs.Layout.{queued_at, node_at, NodeFits};
ghost use Rattle.layout.specs.Words.{node_words};
ghost use Rattle.tree.specs.Tree.{node_of, Formed, PopIs, CanAdd, CanPushNode, Adds, PushesNode};

use crate::partial_keyed_closed_set::PartialKeyedClosedSet;

// A node's words.
#[derive(Clone, Copy)]
pub struct Node {
    pub vertex: u32,
    pub cost: u32,
    pub parent: u32,
    pub edge: u32,
}

// Adds a node and its ticket, unless its vertex is closed at no greater cost.
pub fn push_node(tree: &mut [u32], edges: usize, node: Node)
    requires { CanPushNode edges tree.old node }
    ensures { PushesNode edges tree.old tree.new (node_of node) }
{
    let closed = PartialKeyedClosedSet { tree, edges };
    if let Some(prior) = closed.status(node.vertex as usize)
        && queue::evaluation(tree, prior) <= queue::evaluation_of(node.cost)
    {
        return;
    }
    add_node(tree, edges, node);
}

// The node with the next number, and its ticket.
fn add_node(tree: &mut [u32], edges: usize, node: Node)
    requires { CanAdd edges tree.old }
    ensures { Adds edges tree.old tree.new (node_of node) }
{
    let number = tree[layout::NODES];
    put_node(tree, number as usize, node);
    tree[layout::NODES] = number + 1;
    queue::push(tree, layout::queue_at(edges), number);
}

// Writes the four words of a node.
pub fn put_node(tree: &mut [u32], number: usize, node: Node)
    requires { NodeFits (length tree.old) number }
    ensures { tree.new ≡ sets tree.old (node_at number) (node_words (node_of node)) }
{
    let at = layout::node_at(number);
    tree[at + layout::NODE_VERTEX] = node.vertex;
    tree[at + layout::NODE_COST] = node.cost;
    tree[at + layout::NODE_PARENT] = node.parent;
    tree[at + layout::NODE_EDGE] = node.edge;
}

// Takes the first ticket from the queue; the length that the queue then has is handed back, for `set_queued`.
pub fn pop(tree: &mut [u32], edges: usize) -> Option<(u32, u32)>
    requires { Formed edges tree.old }
    ensures { PopIs edges tree.old tree.new result }
{
    queue::pop(tree, layout::queue_at(edges))
}

// Stores the length of the queue.
pub fn set_queued(tree: &mut [u32], queued: u32)
    requires { queued_at < length tree.old }
    ensures { tree.new ≡ set tree.old queued_at queued }
{
    tree[layout::QUEUED] = queued;
}
