// Whether one tree's words are sound. `words` has the whole cache, `tree` the part of it that is the tree's slot.

#![tactic(auto)]

ghost use Rattle.std.specs.Prelude.{◌≡◌, false, ◌+◌, ◌<◌, ◌≤◌, length, replicate};
ghost use Rattle.std.proofs.Props.{props};
ghost use Rattle.model.specs.Limits.{vertex_limit, edge_limit};
ghost use Rattle.model.specs.Lists.{allb, upto};
ghost use Rattle.model.specs.Sound.{hangsb, closed_edges, root_tests, hang_allb, closerb, onwardb};
ghost use Rattle.layout.specs.Layout.{used_in, queued_in};
ghost use Rattle.layout.specs.Read.{tree_in, domain_of};
ghost use Rattle.layout.specs.Sound.{zerosb, tree_wordsb, spare_tests};
ghost use Rattle.layout.proofs.StartCosts.{start_once};
ghost use Rattle.tree.specs.Tree.{tree_of};
ghost use Rattle.sound_tree.specs.Check.{CanCheck, count_tests, Counted, Hung, QueueWords, QueueTurn, QueueIs, Waits, RootMarked, BegunIs, LeadsOn, tables_tests, node_limit, no_cost};

use layout::{edge_of, node_of};
use model::limits::{MAX_EDGES, MAX_VERTICES};

// A tree has at most one node more than there are edges.
const MAX_NODES: usize = 1 + MAX_EDGES;

// More than the evaluation of any node: nothing waits. A number, as document 01 has the table, and one that `min` and `<=` take as it is.
const NO_COST: u64 = 18446744073709551615;

#[tactic(auto, using(crate::proofs::TreeTests::tree_reads, crate::proofs::Nodes::hung_at))]
pub fn tree_is_sound(words: &[u32], vertices: usize, edges: usize, tree: &[u32]) -> bool
    requires { CanCheck vertices edges words.now tree.now }
    ensures { result ≡ tree_wordsb (domain_of vertices edges words.now) words.now vertices edges tree.now }
{
    // The tables come before the first test: after it they cost up to 8 % more instructions, as the compiler lays the rest out.
    let mut marks = [false; MAX_NODES];
    let mut costs = [NO_COST; MAX_VERTICES];
    if !counts_are_sound(tree, edges) {
        return false;
    }
    let check = TreeCheck {
        words,
        tree,
        vertices,
        edges,
    };
    check.root_is_sound()
        && check.nodes_hang()
        && check.queue_and_edges_are_sound(&mut marks[0..MAX_NODES], &mut costs[0..MAX_VERTICES])
        && check.spare_is_zero()
}

// Nodes used and queue length are within their areas, and there is a root.
fn counts_are_sound(tree: &[u32], edges: usize) -> bool
    requires { (edges ≤ edge_limit) × (3 ≤ length tree.now) }
    ensures { result ≡ allb (count_tests edges tree.now) }
{
    let used = tree[layout::NODES] as usize;
    0 < used && used <= 1 + edges && (tree[layout::QUEUED] as usize) <= 1 + edges
}

// What the tests of a tree read once its counts are sound: the words of its cache and, among them, its own, and how many vertices
// and edges the graph has.
#[derive(Clone, Copy)]
struct TreeCheck<'a> {
    words: &'a [u32],
    tree: &'a [u32],
    vertices: usize,
    edges: usize,
    ghost counted: { Counted vertices edges words.now tree.now } by { Prim.hlevel (props, start_once) },
}

impl TreeCheck<'_> {
    // Node 0 is the root.
    #[tactic(auto, using(crate::proofs::Nodes::root_reads))]
    fn root_is_sound(self) -> bool
        ensures { let c = self.entry in result ≡ allb (root_tests (domain_of c.vertices c.edges c.words.now) (tree_in c.words.now c.vertices c.edges c.tree.now)) }
    {
        let start = self.tree[layout::START];
        if self.vertices <= start as usize {
            return false;
        }
        let Some(cost) = layout::root_cost(self.words, start as usize) else {
            return false;
        };
        let root = node_of(self.tree, 0);
        root.vertex(self.words) == start
            && root.cost() == cost
            && root.parent() == layout::ABSENT
            && root.edge() == layout::ABSENT
    }

    // Each other node hangs on a closed one.
    fn nodes_hang(self) -> bool
        ensures { let c = self.entry in result ≡ hang_allb (domain_of c.vertices c.edges c.words.now) (tree_in c.words.now c.vertices c.edges c.tree.now) }
    {
        let used = self.tree[layout::NODES] as usize;
        (1..used).all(|i| self.node_hangs(i))
    }

    // Node i hangs by an edge on the node that closed the vertex the edge leaves, a lower number.
    #[tactic(auto, using(crate::proofs::Nodes::hang_reads))]
    fn node_hangs(self, i: usize) -> bool
        requires { i < used_in self.tree.now }
        ensures { let c = self.entry in result ≡ hangsb (domain_of c.vertices c.edges c.words.now) (tree_in c.words.now c.vertices c.edges c.tree.now).nodes (tree_in c.words.now c.vertices c.edges c.tree.now).closed i }
    {
        let node = node_of(self.tree, i);
        let above = node.parent() as usize;
        if i <= above {
            return false;
        }
        let number = node.edge() as usize;
        if self.edges <= number {
            return false;
        }
        let parent = node_of(self.tree, above);
        let edge = edge_of(self.words, self.vertices, number);
        let closer = self.tree[layout::closed_at(self.edges) + edge.from as usize] as usize;
        edge.from == parent.vertex(self.words)
            && edge.to == node.vertex(self.words)
            && node.cost() as usize == parent.cost() as usize + edge.cost as usize
            && closer == above + 1
    }

    // Queue words, closed words and edges, with a mark for each node and the least waiting cost of each vertex. At first all marks
    // are off and nothing waits.
    #[tactic(auto, using(crate::proofs::Tables::tables_read, crate::proofs::Tables::few_edges))]
    fn queue_and_edges_are_sound(self, marks: &mut [bool], costs: &mut [u64]) -> bool
        requires { Hung self.vertices self.edges self.words.now self.tree.now × ((marks.old ≡ replicate node_limit false) × (costs.old ≡ replicate vertex_limit no_cost)) }
        ensures { let c = self.entry in result ≡ allb (tables_tests (domain_of c.vertices c.edges c.words.now) c.words.now c.vertices c.edges c.tree.now) }
    {
        self.queue_is_sound(marks, costs)
            && self.closed_are_sound()
            && (self.tree[layout::NODES] as usize) <= 1 + self.closed_edges()
            && self.root_is_reached(marks)
            && self.edges_lead_on(costs)
    }

    // Queue words are distinct nodes in heap order; they are marked, and their costs go into the table.
    fn queue_is_sound(self, marks: &mut [bool], costs: &mut [u64]) -> bool
        requires { QueueWords self.edges self.words.now self.tree.now × ((marks.old ≡ replicate node_limit false) × (costs.old ≡ replicate vertex_limit no_cost)) }
        ensures { QueueIs self.entry.edges self.entry.words.now self.entry.tree.now (queued_in self.entry.tree.now) result marks.new costs.new }
    {
        let queued = self.tree[layout::QUEUED] as usize;
        for i in 0..queued {
            if !self.queue_word_is_sound(marks, costs, i) {
                return false;
            }
        }
        true
    }

    // The queue word at place i, where those before it are sound.
    fn queue_word_is_sound(self, marks: &mut [bool], costs: &mut [u64], i: usize) -> bool
        requires { QueueTurn self.edges self.words.now self.tree.now i marks.old costs.old }
        ensures { QueueIs self.entry.edges self.entry.words.now self.entry.tree.now (i + 1) result marks.new costs.new }
    {
        let queue = layout::queue_at(self.edges);
        let word = self.tree[queue + i];
        let node = word as usize;
        if self.tree[layout::NODES] as usize <= node {
            return false;
        }
        if marks[node] {
            return false;
        }
        if 0 < i && queue::precedes(self.tree, word, self.tree[queue + (i - 1) / 2]) {
            return false;
        }
        marks[node] = true;
        let vertex = node_of(self.tree, node).vertex(self.words) as usize;
        costs[vertex] = costs[vertex].min(queue::evaluation(self.tree, word));
        true
    }

    // Each closed word names a node of its vertex that costs no more than any waiting node, so no more than the first.
    fn closed_are_sound(self) -> bool
        requires { Waits self.edges self.words.now self.tree.now }
        ensures { result ≡ upto (closerb (tree_of self.entry.words.now self.entry.edges self.entry.tree.now)) self.entry.vertices }
    {
        (0..self.vertices).all(|v| self.closed_word_is_sound(v))
    }

    #[tactic(auto, using(crate::proofs::Closers::closer_reads))]
    fn closed_word_is_sound(self, vertex: usize) -> bool
        requires { Waits self.edges self.words.now self.tree.now × (vertex < self.vertices) }
        ensures { result ≡ closerb (tree_of self.entry.words.now self.entry.edges self.entry.tree.now) vertex }
    {
        let word = self.tree[layout::closed_at(self.edges) + vertex];
        if word == 0 {
            return true;
        }
        let node = word - 1;
        let first = self.tree[layout::queue_at(self.edges)];
        node < self.tree[layout::NODES]
            && node_of(self.tree, node as usize).vertex(self.words) as usize == vertex
            && (self.tree[layout::QUEUED] == 0
                || queue::evaluation(self.tree, node) <= queue::evaluation(self.tree, first))
    }

    // How many edges leave closed vertices.
    #[tactic(auto, using(crate::proofs::Edges::leaving_none, crate::proofs::Edges::leaving_next, crate::proofs::Edges::leaving_all))]
    fn closed_edges(self) -> usize
        ensures { let c = self.entry in result ≡ length (closed_edges (domain_of c.vertices c.edges c.words.now).graph (tree_in c.words.now c.vertices c.edges c.tree.now).closed) }
    {
        let closed = layout::closed_at(self.edges);
        let mut count = 0;
        for e in 0..self.edges {
            let from = edge_of(self.words, self.vertices, e).from;
            if self.tree[closed + from as usize] != 0 {
                count += 1;
            }
        }
        count
    }

    // The root's vertex is closed or the root waits.
    #[tactic(auto, using(crate::proofs::Closers::begun_reads))]
    fn root_is_reached(self, marks: &[bool]) -> bool
        requires { RootMarked self.edges self.tree.now marks.now }
        ensures { BegunIs self.entry.edges self.entry.tree.now result }
    {
        let start = self.tree[layout::START] as usize;
        self.tree[layout::closed_at(self.edges) + start] != 0 || marks[0]
    }

    // Each edge that leaves a closed vertex reaches one that is closed, or waits, at no more than the sum.
    fn edges_lead_on(self, costs: &[u64]) -> bool
        requires { LeadsOn self.vertices self.edges self.words.now self.tree.now costs.now }
        ensures { let c = self.entry in result ≡ upto (onwardb (domain_of c.vertices c.edges c.words.now) (tree_in c.words.now c.vertices c.edges c.tree.now)) c.edges }
    {
        (0..self.edges).all(|e| self.edge_leads_on(costs, e))
    }

    fn edge_leads_on(self, costs: &[u64], number: usize) -> bool
        requires { LeadsOn self.vertices self.edges self.words.now self.tree.now costs.now × (number < self.edges) }
        ensures { let c = self.entry in result ≡ onwardb (domain_of c.vertices c.edges c.words.now) (tree_in c.words.now c.vertices c.edges c.tree.now) number }
    {
        let closed = layout::closed_at(self.edges);
        let edge = edge_of(self.words, self.vertices, number);
        let word = self.tree[closed + edge.from as usize];
        if word == 0 {
            return true;
        }
        let sum = queue::evaluation(self.tree, word - 1) + queue::weight_of(edge.cost);
        let to = edge.to as usize;
        let reached = self.tree[closed + to];
        (reached != 0 && queue::evaluation(self.tree, reached - 1) <= sum) || costs[to] <= sum
    }

    // Unused nodes and queue words are 0.
    fn spare_is_zero(self) -> bool
        ensures { result ≡ allb (spare_tests self.entry.edges self.entry.tree.now) }
    {
        let nodes = layout::node_at(self.tree[layout::NODES] as usize);
        let queue = layout::queue_at(self.edges);
        let queued = queue + self.tree[layout::QUEUED] as usize;
        let closed = layout::closed_at(self.edges);
        is_zero(&self.tree[nodes..queue]) && is_zero(&self.tree[queued..closed])
    }
}

// It looks at every word, with no early exit, so that the compiler takes several at a time: in a sound cache all are 0 anyway.
#[tactic(auto, using(crate::proofs::Zeros::zeros_next, crate::proofs::Zeros::zeros_end))]
pub fn is_zero(words: &[u32]) -> bool
    ensures { result ≡ zerosb words.now }
{
    let mut bits = 0;
    for word in words {
        bits |= *word;
    }
    bits == 0
}
