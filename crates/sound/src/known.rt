// What is known of words whose check passed, or which are sound by a theorem: readers take it in place of the words, and ask nothing.
ghost use Rattle.std.specs.Prelude.{◌≡◌};
ghost use Rattle.layout.specs.Layout.{vertices_in, edges_in, trees_in};
ghost use Rattle.layout.specs.Slots.{slot_words};
ghost use Rattle.sound.specs.Facts.{SoundWords, InUse};

use layout::slots::slot_words;

// The words of a sound cache.
#[derive(Clone, Copy)]
pub struct SoundCache<'a> {
    pub words: &'a [u32],
    pub ghost sound: { ∥ SoundWords words.now ∥₁ },
}

impl SoundCache<'_> {
    pub fn vertices(self) -> usize
        ensures { result ≡ vertices_in self.entry.words.now }
    {
        layout::header(self.words, layout::VERTICES)
    }

    // How many trees are in use.
    pub fn trees(self) -> usize
        ensures { result ≡ trees_in self.entry.words.now }
    {
        layout::header(self.words, layout::TREES)
    }
}

// A tree of a sound cache: its slot is in use.
#[derive(Clone, Copy)]
pub struct TreeInUse<'a> {
    pub words: &'a [u32],
    pub slot: usize,
    pub ghost used: { ∥ InUse words.now slot ∥₁ },
}

impl<'a> TreeInUse<'a> {
    // How many edges the graph has.
    pub fn edges(self) -> usize
        ensures { result ≡ edges_in self.entry.words.now }
    {
        layout::header(self.words, layout::EDGES)
    }

    // The tree's own words.
    pub fn own_words(self) -> &'a [u32]
        ensures { let t = self.entry in result.now ≡ slot_words (vertices_in t.words.now) (edges_in t.words.now) t.slot t.words.now }
    {
        slot_words(self.words, self.slot)
    }
}
