// A tree's slot: its place among the words of a cache, and its own words as a part of them.
ghost use Rattle.std.specs.Prelude.{◌≡◌};
ghost use Rattle.layout.specs.Layout.{vertices_in, edges_in};
ghost use Rattle.layout.specs.Slots.{slot_words, slot_of, Numbered, HasSlot};

use crate::graph_size;

// Where the words of a tree stand.
#[derive(Clone, Copy)]
pub struct Slot {
    pub vertices: usize,
    pub edges: usize,
    pub number: usize,
    pub at: usize,
    pub end: usize,
}

pub fn slot_of(words: &[u32], slot: usize) -> Slot
    requires { Numbered words.now slot }
    ensures { result ≡ slot_of words.now slot }
{
    let size = graph_size(words);
    let at = size.slot_at(slot);
    Slot {
        vertices: size.vertices,
        edges: size.edges,
        number: slot,
        at,
        end: at + size.tree_words(),
    }
}

// A slot's own words.
pub fn slot_words<'a>(words: &'a [u32], slot: usize) -> &'a [u32]
    requires { HasSlot words.now slot }
    ensures { result.now ≡ slot_words (vertices_in words.now) (edges_in words.now) slot words.now }
{
    let Slot { at, end, .. } = slot_of(words, slot);
    &words[at..end]
}
