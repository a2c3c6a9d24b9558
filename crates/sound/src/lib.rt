// Whether the words of a cache are sound, as every call asks before it does anything else. Any words may be handed in. The
// definition stands in `layout`, specs/Sound.antt; header, graph and trees come in its order, and each function answers by
// clauses of it.

#![tactic(auto)]

pub mod known;

ghost use Rattle.std.specs.Prelude.{◌≡◌, true, false, ◌+◌, ◌<◌, ◌≤◌, length, replicate};
ghost use Rattle.model.specs.Limits.{vertex_limit};
ghost use Rattle.model.specs.Lists.{allb, upto};
ghost use Rattle.layout.specs.Layout.{initial_at, initial_in};
ghost use Rattle.layout.specs.Read.{read_cache, graph_in};
ghost use Rattle.layout.specs.Sound.{header_tests, initialb, edge_tests, graph_tests, trees_tests, sound_wordsb};
ghost use Rattle.sound.specs.Check.{CanCheckTrees, HasGraph, TreesIn, treesb};

use layout::slots::slot_words;
use layout::{GraphSize, edge_of};
use model::limits::{MAX_COST, MAX_EDGES, MAX_SLOTS, MAX_VERTICES};
use sound_tree::{is_zero, tree_is_sound};

// Whether the words are those of a sound cache.
#[tactic(auto, unfolding(layout::specs::Sound::sound_wordsb))]
pub fn is_sound(words: &[u32]) -> bool
    ensures { result ≡ sound_wordsb words.now }
{
    header_is_sound(words) && graph_is_sound(words) && trees_are_sound(words)
}

fn header_is_sound(words: &[u32]) -> bool
    ensures { result ≡ allb (header_tests words.now) }
{
    if words.len() <= layout::TREES {
        return false;
    }
    let vertices = layout::header(words, layout::VERTICES);
    let edges = layout::header(words, layout::EDGES);
    let slots = layout::header(words, layout::SLOTS);
    words[layout::DIRECTION] <= 1
        && vertices <= MAX_VERTICES
        && edges <= MAX_EDGES
        && 0 < slots
        && slots <= MAX_SLOTS
        && layout::header(words, layout::TREES) <= slots
        && GraphSize { vertices, edges }.words_needed(slots) <= words.len()
}

fn graph_is_sound(words: &[u32]) -> bool
    requires { allb (header_tests words.now) ≡ true }
    ensures { result ≡ allb (graph_tests (read_cache words.now).domain words.now) }
{
    let size = layout::graph_size(words);
    initials_are_sound(words, size.vertices)
        && edges_are_sound(words, size)
        && graph::simple::index_is_sound(words, words[layout::DIRECTION], size)
}

fn initials_are_sound(words: &[u32], vertices: usize) -> bool
    requires { initial_at + vertices ≤ length words.now }
    ensures { result ≡ upto (λ v. initialb (initial_in words.now v)) vertices }
{
    (0..vertices).all(|v| initial_is_sound(words, v))
}

fn initial_is_sound(words: &[u32], vertex: usize) -> bool
    requires { initial_at + vertex < length words.now }
    ensures { result ≡ initialb (initial_in words.now vertex) }
{
    layout::initial_cost(words, vertex).is_none_or(|c| c as usize <= MAX_COST)
}

fn edges_are_sound(words: &[u32], size: GraphSize) -> bool
    requires { HasGraph size.vertices size.edges words.now }
    ensures { result ≡ upto (λ e. allb (edge_tests (graph_in size.vertices size.edges words.now) e)) size.edges }
{
    (0..size.edges).all(|e| edge_is_sound(words, size, e))
}

#[tactic(auto, using(crate::proofs::Header::edge_reads))]
fn edge_is_sound(words: &[u32], size: GraphSize, number: usize) -> bool
    requires { HasGraph size.vertices size.edges words.now × (number < size.edges) }
    ensures { result ≡ allb (edge_tests (graph_in size.vertices size.edges words.now) number) }
{
    let edge = edge_of(words, size.vertices, number);
    (edge.from as usize) < size.vertices
        && (edge.to as usize) < size.vertices
        && edge.cost as usize <= MAX_COST
}

fn trees_are_sound(words: &[u32]) -> bool
    requires { CanCheckTrees words.now }
    ensures { result ≡ allb (trees_tests words.now) }
{
    let size = layout::graph_size(words);
    let trees = layout::header(words, layout::TREES);
    let mut starts = [false; MAX_VERTICES];
    let at = size.slot_at(trees);
    let end = size.slot_at(layout::header(words, layout::SLOTS));
    trees_in_use_are_sound(words, trees, &mut starts[0..MAX_VERTICES]) && is_zero(&words[at..end])
}

// The slots in use, with a mark for each vertex at which a tree starts. All marks are off at first.
fn trees_in_use_are_sound(words: &[u32], trees: usize, starts: &mut [bool]) -> bool
    requires { TreesIn trees words.now × (starts.old ≡ replicate vertex_limit false) }
    ensures { result ≡ treesb trees words.now }
{
    let vertices = layout::header(words, layout::VERTICES);
    let edges = layout::header(words, layout::EDGES);
    for i in 0..trees {
        let tree = slot_words(words, i);
        if !tree_is_sound(words, vertices, edges, tree) {
            return false;
        }
        let start = tree[layout::START] as usize;
        if starts[start] {
            return false;
        }
        starts[start] = true;
    }
    true
}
