// Whether a search record is one of a cache's: refusal 8. The Rust's `Memory` holds its trees and paths, ours names them by number.
// Ported from open-rmf/mapf (mapf/src: algorithm/dijkstra/forward.rs) and changed; Apache License 2.0, see NOTICE.

#![tactic(auto)]

pub mod held_node;

ghost use Rattle.std.specs.Prelude.{◌≡◌, leb, IsTrue, MatchOption};
ghost use Rattle.model.specs.Lists.{allb};
ghost use Rattle.model.specs.Sound.{tree};
ghost use Rattle.model.specs.Valid.{closes_goal, entry_tests, held_cost, lesser};
ghost use Rattle.layout.specs.Read.{read_cache};
ghost use Rattle.tree.specs.Tree.{tree_of};
ghost use Rattle.memory.specs.Memory.{HasVertices, CanJudge, best_node_tests};
ghost use Rattle.memory.specs.Standing.{shown_at, Shows, HeldIs, standing_of, Stands};

use held_node::HeldNode;
use layout::lists::{are_vertices, contains};
use model::limits::MAX_ENTRIES;
use model::{Refusal, Search, TreeMemory};
use sound::known::{SoundCache, TreeInUse};
use tree::partial_keyed_closed_set::PartialKeyedClosedSet;

// The node that a finished search shows, by its numbers: words that are lent out to be changed are not kept beside it.
#[derive(Clone, Copy)]
pub struct Shown {
    pub slot: usize,
    pub node: u32,
}

// How a search stands. One that finished without a solution shows nothing. Two cases by name, and no option of an option.
#[derive(Clone, Copy)]
pub enum Standing<'a> {
    Unfinished,
    Finished(Option<HeldNode<'a>>),
}

// Judges a record, and tells how its search stands. All of it is looked at in this one function, for each that it is handed to copies it.
pub fn judge<'a>(cache: SoundCache<'a>, search: Search) -> Result<Standing<'a>, Refusal>
    ensures { Stands cache.entry.words.now search result }
{
    if MAX_ENTRIES < search.tree_count as usize {
        return Err(Refusal::InvalidSearch);
    }
    if MAX_ENTRIES < search.goal_count as usize {
        return Err(Refusal::InvalidSearch);
    }
    let words = cache.words;
    let trees = search.trees;
    let keys = search.goal_keys;
    let count = search.goal_count as usize;
    let goals = &keys[0..count];
    if !are_vertices(goals, cache.vertices()) {
        return Err(Refusal::InvalidSearch);
    }
    let mut least = None;
    for i in (0..search.tree_count as usize).rev() {
        let memory = trees[i];
        if !entry_is_valid(cache, memory, goals) {
            return Err(Refusal::InvalidSearch);
        }
        let held = held_cost(words, memory);
        least = lesser_of(held, least);
    }
    let Some(best) = search.best_solution else {
        return stands(least.is_none(), search.exhausted, None);
    };
    if search.tree_count <= best.entry {
        return Err(Refusal::InvalidSearch);
    }
    let memory = trees[best.entry as usize];
    let slot = memory.tree as usize;
    let used = TreeInUse { words, slot };
    let held = memory.solution;
    let is_valid = best_is_valid(used, held, goals, best.node, least, search.exhausted);
    stands(is_valid, search.exhausted, held_in(words, shown_at(memory)))
}

fn entry_is_valid(cache: SoundCache, memory: TreeMemory, goals: &[u32]) -> bool
    ensures { let ws = cache.entry.words.now in result ≡ allb (entry_tests (read_cache ws).domain (read_cache ws).trees goals.now memory) }
{
    let words = cache.words;
    let slot = memory.tree as usize;
    if cache.trees() <= slot {
        return false;
    }
    if !is_within(memory.last_known_closed_len, cache.vertices()) {
        return false;
    }
    match memory.solution {
        None => true,
        Some(node) => closes_goal(TreeInUse { words, slot }, goals, node),
    }
}

fn is_within(known: Option<u32>, vertices: usize) -> bool
    ensures { MatchOption known (IsTrue result) (λ n. result ≡ leb n vertices) }
{
    known.is_none_or(|n| n as usize <= vertices)
}

// Whether a node is the closed node of a goal.
fn closes_goal(used: TreeInUse, goals: &[u32], node: u32) -> bool
    ensures { let t = used.entry in result ≡ closes_goal goals.now (tree (read_cache t.words.now).trees t.slot) node }
{
    is_closed_goal(used.words, used.own_words(), used.edges(), goals, node)
}

fn is_closed_goal(words: &[u32], tree: &[u32], edges: usize, goals: &[u32], node: u32) -> bool
    requires { HasVertices edges words.now tree.now }
    ensures { result ≡ closes_goal goals.now (tree_of words.now edges tree.now) node }
{
    if tree[layout::NODES] <= node {
        return false;
    }
    let vertex = layout::node_of(tree, node as usize).vertex(words);
    let closed = PartialKeyedClosedSet { tree, edges };
    contains(goals, vertex) && closed.status(vertex as usize) == Some(node)
}

// Whether a node of an entry's tree may be the best. held: the solution that the entry holds; least: what the cheapest of the solutions
// held costs. A finished search with a best has the solution that it answers.
fn best_is_valid(
    used: TreeInUse,
    held: Option<u32>,
    goals: &[u32],
    node: u32,
    least: Option<u64>,
    exhausted: bool,
) -> bool
    ensures { let t = used.entry in result ≡ allb (best_node_tests (read_cache t.words.now).domain (tree (read_cache t.words.now).trees t.slot) goals.now held node least exhausted) }
{
    let TreeInUse { words, slot, .. } = used;
    closes_goal(used, goals, node)
        && Some(HeldNode { words, slot, node }.solution_cost()) == least
        && (!exhausted || held.is_some())
}

fn held_cost(words: &[u32], memory: TreeMemory) -> Option<u64>
    requires { CanJudge words.now memory }
    ensures { result ≡ held_cost (read_cache words.now).domain (tree (read_cache words.now).trees memory.tree) memory.solution }
{
    Some(held_in(words, shown_at(memory))?.solution_cost())
}

// The lesser of two costs; one that is missing is no less than any.
fn lesser_of(a: Option<u64>, b: Option<u64>) -> Option<u64>
    ensures { result ≡ lesser a b }
{
    match (a, b) {
        (Some(x), Some(y)) => Some(x.min(y)),
        (None, _) => b,
        (_, None) => a,
    }
}

// The solution that an entry holds.
pub fn shown_at(memory: TreeMemory) -> Option<Shown>
    ensures { result ≡ shown_at memory memory.solution }
{
    let slot = memory.tree as usize;
    memory.solution.map(|node| Shown { slot, node })
}

// The node that is shown, of the words that hold it.
pub fn held_in<'a>(words: &'a [u32], shown: Option<Shown>) -> Option<HeldNode<'a>>
    requires { Shows words.now shown }
    ensures { HeldIs words.now shown result }
{
    let Shown { slot, node } = shown?;
    Some(HeldNode { words, slot, node })
}

fn stands<'a>(
    is_valid: bool,
    exhausted: bool,
    held: Option<HeldNode<'a>>,
) -> Result<Standing<'a>, Refusal>
    ensures { result ≡ standing_of is_valid exhausted held.entry }
{
    if !is_valid {
        return Err(Refusal::InvalidSearch);
    }
    if !exhausted {
        return Ok(Standing::Unfinished);
    }
    Ok(Standing::Finished(held))
}
