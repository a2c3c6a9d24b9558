// The turns of a search's entries, one after the other: the Rust's loop over `memory.trees` in `step`. Only `step_trees` and the record's
// methods are handed the record, for each function that it is handed to copies it.
// Ported from open-rmf/mapf (mapf/src: algorithm/dijkstra/forward.rs) and changed; Apache License 2.0, see NOTICE.

#![tactic(auto)]

ghost use Rattle.std.specs.Prelude.{◌≡◌};
ghost use Rattle.model.specs.Search.{grown, cheaper};
ghost use Rattle.layout.specs.Read.{read_cache};
ghost use Rattle.tree.specs.Tree.{Formed};
ghost use Rattle.grow.specs.Grow.{growth_of};
ghost use Rattle.sound.specs.Facts.{InUse};
ghost use Rattle.entry_turns.specs.Turn.{CanStep, Steps, tree_at, best_entry, CanBound, bound_in, CanTurn, turn_of, Turns, LooksUp, CanLookUp, looks_up, KnownIs, UnderIs, Remembers, CanRecord, found_of, CanCompare, dearer_in};

use grow::Grown;
use layout::slots::slot_words;
use memory::held_node::HeldNode;
use model::{BestSolution, Search, TreeMemory};
use sound::known::TreeInUse;
use tree::partial_keyed_closed_set::PartialKeyedClosedSet;

// The search after some turns, and the tickets taken in them.
#[derive(Clone, Copy)]
pub struct Turned {
    pub search: Search,
    pub tickets: usize,
}

// What an entry's turn came to: the closed count to remember, if there is one, its find, whether its queue keeps the search unfinished,
// and the tickets taken.
#[derive(Clone, Copy)]
pub struct Outcome {
    pub known: Option<u32>,
    pub find: Option<u32>,
    pub more: bool,
    pub tickets: usize,
}

// A find that replaces what its entry holds, and may be the best.
#[derive(Clone, Copy)]
pub struct Find {
    pub node: u32,
    pub is_best: bool,
}

// The turn of each entry in order. The search is finished unless a queue says otherwise.
pub fn step_trees(words: &mut [u32], search: Search) -> Turned
    requires { CanStep words.old search }
    ensures { Steps words.old search result words.new }
{
    let keys = search.goal_keys;
    let count = search.goal_count as usize;
    let goals = &keys[0..count];
    let mut next = search.with_exhausted(true);
    let mut tickets = 0;
    for i in 0..search.tree_count {
        let memory = next.trees[i as usize];
        let best = next.best_solution;
        let holder = next.trees[best_entry(best)];
        let bound = cost_bound(words, best, holder.tree as usize);
        let r = turn(words, memory, goals, bound);
        if let Some(len) = r.known {
            next = next.with_known_len(i, len);
        }
        if r.more {
            next = next.with_exhausted(false);
        }
        if let Some(found) = judge(words, memory, r.find, bound) {
            next = next.with_find(i, found.node, found.is_best);
        }
        tickets += r.tickets;
    }
    Turned {
        search: next,
        tickets,
    }
}

// The entry that found the best; with no best, any. No option: it says where to read in a record, and who reads asks for the best too; the
// record itself is handed to no more functions, since each copies it.
pub fn best_entry(best: Option<BestSolution>) -> usize
    ensures { result ≡ best_entry best }
{
    best.map_or(0, |b| b.entry as usize)
}

// What the best costs, a node of the tree in a slot: the bound of an entry's turn.
fn cost_bound(words: &[u32], best: Option<BestSolution>, slot: usize) -> Option<u64>
    requires { CanBound words.now best slot }
    ensures { result ≡ bound_in (read_cache words.now).domain (tree_at words.now slot).nodes best }
{
    let node = best?.node;
    Some(HeldNode { words, slot, node }.solution_cost())
}

// An entry's turn: a closed goal is looked up, and with no find the tree is grown. After a find by lookup nothing is remembered.
fn turn(words: &mut [u32], memory: TreeMemory, goals: &[u32], bound: Option<u64>) -> Outcome
    requires { CanTurn words.old memory.tree goals.now }
    ensures { Turns words.old memory.tree (turn_of words.old memory goals.now bound) result words.new }
{
    let find = look_up(
        words,
        memory.tree as usize,
        goals,
        memory.last_known_closed_len,
    );
    match find {
        None => grow_tree(words, memory.tree as usize, goals, bound),
        Some(_) => Outcome {
            known: None,
            find,
            more: false,
            tickets: 0,
        },
    }
}

// The cheapest closed goal, unless the closed count is the remembered one.
fn look_up(words: &[u32], slot: usize, goals: &[u32], known: Option<u32>) -> Option<u32>
    requires { CanTurn words.now slot goals.now }
    ensures { LooksUp words.now slot goals.now known result }
{
    let edges = layout::header(words, layout::EDGES);
    look_up_in(words, slot_words(words, slot), edges, goals, known)
}

fn look_up_in(
    words: &[u32],
    tree: &[u32],
    edges: usize,
    goals: &[u32],
    known: Option<u32>,
) -> Option<u32>
    requires { CanLookUp edges tree.now goals.now }
    ensures { looks_up (read_cache words.now).domain words.now edges tree.now goals.now known result }
{
    let closed = PartialKeyedClosedSet { tree, edges };
    if is_known(closed, known) {
        return None;
    }
    closed.cheapest_goal(words, goals)
}

// Whether the closed count is the remembered one. Where none is remembered nothing is counted.
fn is_known(closed: PartialKeyedClosedSet<'_>, known: Option<u32>) -> bool
    ensures { KnownIs closed.entry.edges closed.entry.tree.now known result }
{
    match known {
        None => false,
        Some(k) => closed.closed_keys_len() == k,
    }
}

// At most ten tickets; then the closed count is remembered.
fn grow_tree(words: &mut [u32], slot: usize, goals: &[u32], bound: Option<u64>) -> Outcome
    requires { InUse words.old slot }
    ensures { Turns words.old slot (grown (growth_of words.old slot goals.now bound) bound) result words.new }
{
    let growth = grow::grow(words, slot, goals, bound);
    remember(TreeInUse { words, slot }, growth, bound)
}

// The closed count is remembered, and a queue with a ticket under the bound keeps the search unfinished.
fn remember(used: TreeInUse, growth: Grown, bound: Option<u64>) -> Outcome
    ensures { Remembers (tree_at used.entry.words.now used.entry.slot) growth bound result }
{
    let edges = used.edges();
    let tree = used.own_words();
    let closed = PartialKeyedClosedSet { tree, edges };
    Outcome {
        known: Some(closed.closed_keys_len()),
        find: growth.solution,
        more: has_ticket_under(tree, edges, bound),
        tickets: growth.tickets,
    }
}

// Whether the first ticket costs less than the bound; with no bound, whether there is one.
fn has_ticket_under(tree: &[u32], edges: usize, bound: Option<u64>) -> bool
    requires { Formed edges tree.now }
    ensures { UnderIs edges tree.now bound result }
{
    if tree[layout::QUEUED] == 0 {
        return false;
    }
    let first = tree[layout::queue_at(edges)];
    is_cheaper(queue::evaluation(tree, first), bound)
}

// A find replaces the entry's solution unless dearer, and is the best only if strictly cheaper.
fn judge(words: &[u32], memory: TreeMemory, find: Option<u32>, bound: Option<u64>) -> Option<Find>
    requires { CanRecord words.now memory find }
    ensures { result ≡ found_of words.now memory find bound }
{
    let slot = memory.tree as usize;
    let node = find?;
    let cost = HeldNode { words, slot, node }.solution_cost();
    if is_dearer(words, slot, cost, memory.solution) {
        return None;
    }
    Some(Find {
        node,
        is_best: is_cheaper(cost, bound),
    })
}

// Whether a solution is held that costs less.
fn is_dearer(words: &[u32], slot: usize, cost: u64, held: Option<u32>) -> bool
    requires { CanCompare words.now slot held }
    ensures { result ≡ dearer_in (read_cache words.now).domain (tree_at words.now slot).nodes cost held }
{
    match held {
        None => false,
        Some(node) => HeldNode { words, slot, node }.solution_cost() < cost,
    }
}

fn is_cheaper(cost: u64, bound: Option<u64>) -> bool
    ensures { result ≡ cheaper cost bound }
{
    bound.is_none_or(|b| cost < b)
}
