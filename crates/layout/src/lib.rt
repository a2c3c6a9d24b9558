// Where each word of a cache stands. The places are defined once, in specs/Layout.antt; here is one function for each
// area's start and one for each kind of word.

#![tactic(auto)]

pub mod lists;
pub mod slots;

ghost use Rattle.std.specs.Prelude.{◌≡◌, ◌+◌, ◌*◌, ◌^◌, ◌<◌, ◌≤◌, length, get_or};
ghost use Rattle.model.specs.Limits.{vertex_limit, edge_limit, slot_limit};
ghost use Rattle.model.specs.Graph.{root_cost};
ghost use Rattle.layout.specs.Read.{direction_of, cost_if};
ghost use Rattle.layout.specs.Layout.{direction_in, initial_in, place_in, vertex_in, cost_in, parent_in, edge_in, from_in, to_in, edge_cost_in, NodeFits, EdgeFits, vertices_in, edges_in, header_words, initial_at, edges_at, edge_at, places_at, numbers_at, slots_at, node_size, node_at, queue_at, closed_words_at, tree_words, slot_at, needed, Sized};

// No initial cost; also the parent and the edge of a root. One word of a cache says it, which has no room for an Option.
pub const ABSENT: u32 = 4294967295;

// The places of a header's words.
pub const DIRECTION: usize = 0;

pub const VERTICES: usize = 1;

pub const EDGES: usize = 2;

pub const SLOTS: usize = 3;

pub const TREES: usize = 4;

// The places of an edge's words.
pub const FROM: usize = 0;

pub const TO: usize = 1;

const COST: usize = 2;

// The places of a tree's own three words.
pub const START: usize = 0;

pub const NODES: usize = 1;

pub const QUEUED: usize = 2;

// The places of a node's words.
pub const NODE_VERTEX: usize = 0;

pub const NODE_COST: usize = 1;

pub const NODE_PARENT: usize = 2;

pub const NODE_EDGE: usize = 3;

// The initial costs stand behind the header.
pub const INITIAL_AT: usize = 5;

pub fn edges_at(vertices: usize) -> usize
    requires { vertices ≤ vertex_limit }
    ensures { result ≡ edges_at vertices }
{
    INITIAL_AT + vertices
}

pub fn edge_at(vertices: usize, edge: usize) -> usize
    requires { (vertices ≤ vertex_limit) × (edge ≤ edge_limit) }
    ensures { result ≡ edge_at vertices edge }
{
    edges_at(vertices) + 3 * edge
}

// Within a tree's words: the nodes, the queue and the closed words.
const NODES_AT: usize = 3;

pub fn node_at(node: usize) -> usize
    requires { node_at node < 2 ^ 64 }
    ensures { result ≡ node_at node }
{
    NODES_AT + 4 * node
}

pub fn queue_at(edges: usize) -> usize
    requires { edges ≤ edge_limit }
    ensures { result ≡ queue_at edges }
{
    node_at(1 + edges)
}

pub fn closed_at(edges: usize) -> usize
    requires { edges ≤ edge_limit }
    ensures { result ≡ closed_words_at edges }
{
    queue_at(edges) + (1 + edges)
}

// The counts of a graph within 01's limits; where each area of its cache's words starts follows from them.
#[derive(Clone, Copy)]
pub struct GraphSize {
    pub vertices: usize,
    pub edges: usize,
    pub ghost fit: { Sized vertices edges },
}

impl GraphSize {
    pub fn places_at(self) -> usize
        ensures { result ≡ places_at self.vertices self.edges }
    {
        edge_at(self.vertices, self.edges)
    }

    pub fn numbers_at(self) -> usize
        ensures { result ≡ numbers_at self.vertices self.edges }
    {
        self.places_at() + (self.vertices + 1)
    }

    pub fn slots_at(self) -> usize
        ensures { result ≡ slots_at self.vertices self.edges }
    {
        self.numbers_at() + self.edges
    }

    pub fn tree_words(self) -> usize
        ensures { result ≡ tree_words self.vertices self.edges }
    {
        closed_at(self.edges) + self.vertices
    }

    pub fn slot_at(self, slot: usize) -> usize
        requires { slot ≤ slot_limit }
        ensures { result ≡ slot_at self.vertices self.edges slot }
    {
        self.slots_at() + slot * self.tree_words()
    }

    pub fn words_needed(self, slots: usize) -> usize
        requires { slots ≤ slot_limit }
        ensures { result ≡ needed self.vertices self.edges slots }
    {
        self.slot_at(slots)
    }

    // Where the edges of a vertex begin among the edge numbers; those of the last vertex end at the place past it.
    pub fn first_place(self, words: &[u32], vertex: usize) -> usize
        requires { places_at self.vertices self.edges + vertex < length words.now }
        ensures { result ≡ place_in self.vertices self.edges words.now vertex }
    {
        words[self.places_at() + vertex] as usize
    }
}

// The size that the header tells.
pub fn graph_size(words: &[u32]) -> GraphSize
    requires { (header_words ≤ length words.now) × Sized (vertices_in words.now) (edges_in words.now) }
    ensures { (result.vertices ≡ vertices_in words.now) × (result.edges ≡ edges_in words.now) }
{
    GraphSize {
        vertices: header(words, VERTICES),
        edges: header(words, EDGES),
    }
}

// One header word.
pub fn header(words: &[u32], place: usize) -> usize
    requires { (place < header_words) × (header_words ≤ length words.now) }
    ensures { result ≡ get_or words.now place 0 }
{
    words[place] as usize
}

// The initial cost of a vertex, if it has one.
pub fn initial_cost(words: &[u32], vertex: usize) -> Option<u32>
    requires { initial_at + vertex < length words.now }
    ensures { result ≡ cost_if (initial_in words.now vertex) }
{
    let cost = words[INITIAL_AT + vertex];
    (cost != ABSENT).then_some(cost)
}

// The cost of a root: backward, initial costs are not looked at.
pub fn root_cost(words: &[u32], vertex: usize) -> Option<u32>
    requires { initial_at + vertex < length words.now }
    ensures { result ≡ cost_if (root_cost (direction_of (direction_in words.now)) (initial_in words.now vertex)) }
{
    if words[DIRECTION] == 0 {
        return initial_cost(words, vertex);
    }
    Some(0)
}

// What an edge says.
#[derive(Clone, Copy)]
pub struct Edge {
    pub from: u32,
    pub to: u32,
    pub cost: u32,
}

pub fn edge_of(words: &[u32], vertices: usize, edge: usize) -> Edge
    requires { EdgeFits (length words.now) vertices edge }
    ensures { (result.from ≡ from_in vertices words.now edge) × ((result.to ≡ to_in vertices words.now edge) × (result.cost ≡ edge_cost_in vertices words.now edge)) }
{
    let at = edge_at(vertices, edge);
    Edge {
        from: words[at + FROM],
        to: words[at + TO],
        cost: words[at + COST],
    }
}

// A node of a tree, by its number; `tree` has the tree's own words.
#[derive(Clone, Copy)]
pub struct TreeNode<'a> {
    pub tree: &'a [u32],
    pub number: usize,
    pub ghost fits: { NodeFits (length tree.now) number },
}

pub fn node_of<'a>(tree: &'a [u32], number: usize) -> TreeNode<'a>
    requires { NodeFits (length tree.now) number }
    ensures { (result.tree.now ≡ tree.now) × (result.number ≡ number) }
{
    TreeNode { tree, number }
}

// What a node says. Its vertex is read of the cache's words and the tree's, the rest of the tree's own words.
impl TreeNode<'_> {
    pub fn vertex(self, words: &[u32]) -> u32
        ensures { result ≡ vertex_in words.now self.entry.tree.now self.entry.number }
    {
        self.word(NODE_VERTEX)
    }

    pub fn cost(self) -> u32
        ensures { result ≡ cost_in self.entry.tree.now self.entry.number }
    {
        self.word(NODE_COST)
    }

    pub fn parent(self) -> u32
        ensures { result ≡ parent_in self.entry.tree.now self.entry.number }
    {
        self.word(NODE_PARENT)
    }

    pub fn edge(self) -> u32
        ensures { result ≡ edge_in self.entry.tree.now self.entry.number }
    {
        self.word(NODE_EDGE)
    }

    // One of its words, by the place among them.
    fn word(self, place: usize) -> u32
        requires { place < node_size }
        ensures { result ≡ get_or self.entry.tree.now (node_at self.entry.number + place) 0 }
    {
        self.tree[node_at(self.number) + place]
    }
}
