// New trees of a cache, for the roots of a search: the Rust's loop over the starts in `initialize`.
// Ported from open-rmf/mapf (mapf/src: algorithm/dijkstra/forward.rs, algorithm/dijkstra/backward.rs) and changed; Apache License 2.0, see NOTICE.

#![tactic(auto)]

ghost use Rattle.std.specs.Prelude.{◌≡◌, length};
ghost use Rattle.std.proofs.lemmas.List.Edits.{sets};
ghost use Rattle.layout.specs.Layout.{NodeFits};
ghost use Rattle.layout.specs.Read.{read_cache};
ghost use Rattle.new_trees.specs.Plant.{CanPlan, Plans, SlotTable, CanFindTrees, PlansRoot, CanPlanRoot, CanPlant, Plants, CanPlantAll, PlantsAll};
ghost use Rattle.layout.specs.Planted.{root_words};

use layout::root_cost;
use layout::slots::{Slot, slot_of, slot_words};
use model::Search;
use model::limits::{MAX_ENTRIES, MAX_VERTICES};
use tree::Node;

// The entries of a search, and the start vertices of the trees that are not there yet.
#[derive(Clone, Copy)]
pub struct TreePlan {
    pub search: Search,
    pub starts: [u32; MAX_ENTRIES],
    pub count: usize,
}

// An entry for each root, and one new tree for each start vertex that has none; nothing is written.
pub fn plan(words: &[u32], roots: &[u32]) -> TreePlan
    requires { CanPlan words.now roots.now }
    ensures { Plans words.now roots.now result }
{
    let mut table = [0u32; MAX_VERTICES];
    find_trees(words, &mut table);
    let mut plan = TreePlan {
        search: Search::empty(),
        starts: [0; MAX_ENTRIES],
        count: 0,
    };
    for root in roots {
        plan_root(words, &mut table, &mut plan, *root);
    }
    plan
}

// For each vertex the slot plus 1 of the tree that starts there, 0 for none: options would take twice the room of a stack that is bounded.
fn find_trees(words: &[u32], table: &mut [u32])
    requires { CanFindTrees words.now table.old }
    ensures { SlotTable (read_cache words.now).trees table.new }
{
    let used = layout::header(words, layout::TREES);
    for slot in 0..used {
        let start = slot_words(words, slot)[layout::START];
        table[start as usize] = slot as u32 + 1;
    }
}

// A root without an initial cost is skipped.
fn plan_root(words: &[u32], table: &mut [u32], plan: &mut TreePlan, vertex: u32)
    requires { CanPlanRoot words.now table.old plan.old vertex }
    ensures { PlansRoot words.now table.old plan.old vertex plan.new table.new }
{
    if root_cost(words, vertex as usize).is_none() {
        return;
    }
    let slot = table[vertex as usize];
    if slot != 0 {
        plan.search = plan.search.with_entry(slot - 1);
        return;
    }
    let next = (layout::header(words, layout::TREES) + plan.count) as u32;
    plan.search = plan.search.with_entry(next);
    plan.starts[plan.count] = vertex;
    plan.count += 1;
    table[vertex as usize] = next + 1;
}

// A new tree for each start vertex, in the next slots.
pub fn plant_all(words: &mut [u32], starts: &[u32])
    requires { CanPlantAll words.old starts.now }
    ensures { PlantsAll words.old starts.now words.new }
{
    for start in starts {
        plant(words, *start);
    }
}

// A new tree in the next slot: its root waits.
fn plant(words: &mut [u32], vertex: u32)
    requires { CanPlant words.old vertex }
    ensures { Plants words.old vertex words.new }
{
    let used = layout::header(words, layout::TREES);
    let cost = root_cost(words, vertex as usize).unwrap();
    let Slot { at, end, .. } = slot_of(words, used);
    put_root(&mut words[at..end], vertex, cost);
    words[layout::TREES] = used as u32 + 1;
}

// The header of a new tree and its root; all other words are 0 already.
fn put_root(tree: &mut [u32], vertex: u32, cost: u32)
    requires { NodeFits (length tree.old) 0 }
    ensures { tree.new ≡ sets tree.old 0 (root_words vertex cost) }
{
    tree[layout::START] = vertex;
    tree[layout::NODES] = 1;
    tree[layout::QUEUED] = 1;
    let root = Node {
        vertex,
        cost,
        parent: layout::ABSENT,
        edge: layout::ABSENT,
    };
    tree::put_node(tree, 0, root);
}
