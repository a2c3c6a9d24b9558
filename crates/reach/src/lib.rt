// Which vertices some path leads to, from any vertex with an initial cost: for a drawing that sets the others apart. Each vertex is
// listed when it is marked and taken from the list once, when the ends of its edges are marked, so each edge is walked once.

#![tactic(auto)]

ghost use Rattle.std.specs.Prelude.{◌≡◌, ◌<◌, [], false, replicate};
ghost use Rattle.model.specs.Limits.{vertex_limit};
ghost use Rattle.layout.specs.Layout.{vertices_in, edges_in};
ghost use Rattle.layout.specs.Read.{graph_in, read_cache};
ghost use Rattle.layout.specs.Held.{Held};
ghost use Rattle.reach.specs.Reach.{ReachedIs};
ghost use Rattle.reach.specs.Walk.{Listed, MarksOne, Begun, CanMarkEnds, MarksEnds};

use arrayvec::ArrayVec;
use edges::edges_from;
use layout::GraphSize;
use model::limits::MAX_VERTICES;

// For each vertex of the graph that the words hold whether some path leads to it. The words of a backward cache hold the edges turned
// round.
pub fn reached(words: &[u32]) -> [bool; MAX_VERTICES]
    requires { Held (vertices_in words.now) (edges_in words.now) words.now }
    ensures { ReachedIs (read_cache words.now).domain.graph result }
{
    let size = layout::graph_size(words);
    let mut marks = [false; MAX_VERTICES];
    let mut list = ArrayVec::new();
    mark_starts(words, size.vertices, &mut marks, &mut list);
    let mut taken = 0;
    // The list grows while it is walked, so that no range has its end.
    while taken < list.len() {
        mark_ends(words, size, list[taken], &mut marks, &mut list);
        taken += 1;
    }
    marks
}

// Marks the vertices that have an initial cost. None is marked at first.
fn mark_starts(
    words: &[u32],
    vertices: usize,
    marks: &mut [bool; MAX_VERTICES],
    list: &mut ArrayVec<u32, MAX_VERTICES>,
)
    requires { Held vertices (edges_in words.now) words.now × ((marks.old ≡ replicate vertex_limit false) × (list.old.items ≡ [])) }
    ensures { Begun (graph_in vertices (edges_in words.now) words.now) marks.new list.new.items }
{
    for v in 0..vertices {
        if layout::initial_cost(words, v).is_some() {
            mark(marks, list, v);
        }
    }
}

// Marks the ends of the edges that leave a marked vertex.
fn mark_ends(
    words: &[u32],
    size: GraphSize,
    vertex: u32,
    marks: &mut [bool; MAX_VERTICES],
    list: &mut ArrayVec<u32, MAX_VERTICES>,
)
    requires { CanMarkEnds size.vertices size.edges words.now vertex marks.old list.old.items }
    ensures { MarksEnds (graph_in size.vertices size.edges words.now) vertex marks.old list.old.items marks.new list.new.items }
{
    let numbers = size.numbers_at();
    let slots = size.slots_at();
    let place = size.first_place(words, vertex as usize);
    let end = size.first_place(words, vertex as usize + 1);
    for edge in edges_from(&words[numbers..slots], place, end) {
        let edge = layout::edge_of(words, size.vertices, edge as usize);
        mark(marks, list, edge.to as usize);
    }
}

// Marks a vertex and lists it, unless it is marked.
fn mark(marks: &mut [bool; MAX_VERTICES], list: &mut ArrayVec<u32, MAX_VERTICES>, vertex: usize)
    requires { Listed marks.old list.old.items × (vertex < vertex_limit) }
    ensures { MarksOne marks.old list.old.items vertex marks.new list.new.items }
{
    if marks[vertex] {
        return;
    }
    marks[vertex] = true;
    list.push(vertex as u32);
}
