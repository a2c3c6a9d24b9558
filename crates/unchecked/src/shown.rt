// The node that a finished search shows, and what is told of it: its cost, its moves, its path.
// Ported from open-rmf/mapf (mapf/src: algorithm/dijkstra/forward.rs, algorithm/dijkstra/backward.rs) and changed; Apache License 2.0, see NOTICE.
ghost use Rattle.std.specs.Prelude.{◌≡◌};
ghost use Rattle.model.specs.Answers.{status};
ghost use Rattle.model.specs.Tree.{node as Tree·node};
ghost use Rattle.model.specs.Sound.{tree};
ghost use Rattle.model.specs.Path.{moves_of};
ghost use Rattle.layout.specs.Read.{read_cache};
ghost use Rattle.unchecked.specs.Shown.{shown_of, status_held};
ghost use Rattle.unchecked.specs.Retrace.{RetracesHeld, RetracesNode};

use layout::slots::slot_words;
use memory::held_node::HeldNode;
use memory::{Shown, shown_at};
use model::{BestSolution, Refusal, SearchStatus, TreeMemory};

// The solution that the entry holds which found the best.
pub fn shown_of(best: Option<BestSolution>, holder: TreeMemory) -> Option<Shown>
    ensures { result ≡ shown_of best holder }
{
    best?;
    shown_at(holder)
}

// The answer of a finished search.
pub fn status_of(held: Option<HeldNode>) -> SearchStatus
    ensures { status result ≡ status_held held.entry }
{
    match held {
        None => SearchStatus::Impossible,
        Some(node) => SearchStatus::Solved {
            total_cost: node_cost(node),
            moves: moves(node),
        },
    }
}

// The path to the node shown.
pub fn retrace_shown(held: Option<HeldNode>, path: &mut [u32]) -> Result<usize, Refusal>
    ensures { RetracesHeld held.entry path.old result path.new }
{
    match held {
        None => Err(Refusal::NotSolved),
        Some(node) => retrace_node(node, path),
    }
}

// The path to a node, if the slice has room for it.
pub fn retrace_node(held: HeldNode, path: &mut [u32]) -> Result<usize, Refusal>
    ensures { let n = held.entry in RetracesNode n.words.now n.slot n.node path.old result path.new }
{
    let count = moves(held);
    if path.len() < 1 + 2 * count {
        return Err(Refusal::ShortPath);
    }
    let tree = slot_words(held.words, held.slot);
    paths::backtrack(held.words, tree, held.node as usize, path);
    Ok(count)
}

fn node_cost(held: HeldNode) -> u32
    ensures { let n = held.entry in result ≡ (Tree·node (tree (read_cache n.words.now).trees n.slot).nodes n.node).cost }
{
    layout::node_of(slot_words(held.words, held.slot), held.node as usize).cost()
}

// How many moves lead to a node.
fn moves(held: HeldNode) -> usize
    ensures { let n = held.entry in result ≡ moves_of (tree (read_cache n.words.now).trees n.slot).nodes n.node }
{
    paths::moves(slot_words(held.words, held.slot), held.node as usize)
}
