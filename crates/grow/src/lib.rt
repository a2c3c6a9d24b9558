// Growing a tree of a cache, at most ten tickets at a time: the Rust's loop `'grow` of `step`.
// Ported from open-rmf/mapf (mapf/src: algorithm/dijkstra/forward.rs) and changed; Apache License 2.0, see NOTICE.

#![tactic(auto)]

ghost use Rattle.std.specs.Prelude.{◌≡◌, ◌<◌};
ghost use Rattle.model.specs.Graph.{choices};
ghost use Rattle.model.specs.Tree.{push_all, push_node, child};
ghost use Rattle.layout.specs.Slots.{tree_at, domain_at};
ghost use Rattle.sound.specs.Facts.{InUse};
ghost use Rattle.queue.specs.Queue.{figures};
ghost use Rattle.grow.specs.Grow.{Grew, SlotHolds, CanPushChoice, CanPushChoices, CanVisit, Visits, GoesOn};

use edges::{Placed, next_edge};
use layout::lists::contains;
use layout::slots::{Slot, slot_of, slot_words};
use layout::{GraphSize, edge_of, node_of};
use tree::Node;
use tree::partial_keyed_closed_set::{CloseResult, close};

// "at most ten tickets": the Rust's `iterations_per_step`.
const ITERATIONS_PER_STEP: usize = 10;

// The tickets taken, and the goal's node if one was closed.
#[derive(Clone, Copy)]
pub struct Grown {
    pub tickets: usize,
    pub solution: Option<u32>,
}

// Whether the growing goes on after a ticket. By name: `ControlFlow` would say no more, of a find that the caller holds already.
#[derive(Clone, Copy)]
pub enum Next {
    On,
    Found,
    Over,
}

// Takes at most ten tickets of the tree in a slot.
pub fn grow(words: &mut [u32], slot: usize, goals: &[u32], bound: Option<u64>) -> Grown
    requires { InUse words.old slot }
    ensures { Grew words.old slot goals.now bound result words.new }
{
    let s = slot_of(words, slot);
    let Slot { at, end, .. } = s;
    // A count that falls, as document 01 has it.
    let mut left = ITERATIONS_PER_STEP;
    let mut tickets: usize = 0;
    while 0 < left {
        let Some((node, queued)) = tree::pop(&mut words[at..end], s.edges) else {
            return Grown {
                tickets,
                solution: None,
            };
        };
        tree::set_queued(&mut words[at..end], queued);
        left -= 1;
        tickets += 1;
        match visit(words, s, node, goals, bound) {
            Next::On => {}
            Next::Found => {
                return Grown {
                    tickets,
                    solution: Some(node),
                };
            }
            Next::Over => {
                return Grown {
                    tickets,
                    solution: None,
                };
            }
        }
    }
    Grown {
        tickets,
        solution: None,
    }
}

// A node was taken from the queue: unless its vertex is closed already, it closes it and its edges are queued.
fn visit(words: &mut [u32], s: Slot, node: u32, goals: &[u32], bound: Option<u64>) -> Next
    requires { CanVisit s words.old node }
    ensures { Visits s words.old words.new node goals.now bound result }
{
    let taken = node_of(slot_words(words, s.number), node as usize);
    let vertex = taken.vertex(words);
    let cost = taken.cost();
    let Slot { at, end, .. } = s;
    match close(&mut words[at..end], s.edges, vertex as usize, node) {
        CloseResult::Rejected => {
            return Next::On;
        }
        CloseResult::Accepted => {}
    }
    push_choices(words, s, node, vertex, cost);
    going_on(goals, bound, vertex, queue::evaluation_of(cost))
}

// Queues the edges of a vertex that a node closed.
fn push_choices(words: &mut [u32], s: Slot, node: u32, vertex: u32, cost: u32)
    requires { CanPushChoices s words.old vertex cost }
    ensures { SlotHolds s words.old words.new (push_all (domain_at s words.old) node (figures cost) (tree_at s words.old) (choices (domain_at s words.old) vertex)) }
{
    let size = GraphSize {
        vertices: s.vertices,
        edges: s.edges,
    };
    let numbers = size.numbers_at();
    let slots = size.slots_at();
    let mut place = size.first_place(words, vertex as usize);
    let end = size.first_place(words, vertex as usize + 1);
    // No iterator: the words are written between two edges.
    while let Placed {
        edge: Some(edge),
        place: next,
    } = next_edge(&words[numbers..slots], place, end)
    {
        push_choice(words, s, node, cost, edge);
        place = next;
    }
}

// Queues an edge, by its number.
fn push_choice(words: &mut [u32], s: Slot, node: u32, cost: u32, number: u32)
    requires { CanPushChoice s words.old cost number }
    ensures { SlotHolds s words.old words.new (push_node (tree_at s words.old) (child (domain_at s words.old) node (figures cost) number)) }
{
    let edge = edge_of(words, s.vertices, number as usize);
    let child = Node {
        vertex: edge.to,
        cost: cost + edge.cost,
        parent: node,
        edge: number,
    };
    let Slot { at, end, .. } = s;
    tree::push_node(&mut words[at..end], s.edges, child);
}

// A goal is a find and stops; then an evaluation above the bound stops.
fn going_on(goals: &[u32], bound: Option<u64>, vertex: u32, evaluation: u64) -> Next
    ensures { GoesOn goals.now bound vertex evaluation result }
{
    if contains(goals, vertex) {
        return Next::Found;
    }
    if bound.is_some_and(|b| b < evaluation) {
        return Next::Over;
    }
    Next::On
}
