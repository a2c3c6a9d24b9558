// A node of a tree, with the cache that holds it.
ghost use Rattle.std.specs.Prelude.{◌≡◌};
ghost use Rattle.model.specs.Worth.{solution_cost};
ghost use Rattle.model.specs.Sound.{tree};
ghost use Rattle.layout.specs.Read.{read_cache};
ghost use Rattle.memory.specs.Memory.{HasNode};

use layout::slots::slot_words;
use tree::partial_keyed_closed_set;

// A node of the tree in a slot, whose words are those of a sound cache.
#[derive(Clone, Copy)]
pub struct HeldNode<'a> {
    pub words: &'a [u32],
    pub slot: usize,
    pub node: u32,
    pub ghost held: { ∥ HasNode words.now slot node ∥₁ },
}

impl HeldNode<'_> {
    // What the solution at the node is worth.
    pub fn solution_cost(self) -> u64
        ensures { let n = self.entry in result ≡ solution_cost (read_cache n.words.now).domain (tree (read_cache n.words.now).trees n.slot).nodes n.node }
    {
        let tree = slot_words(self.words, self.slot);
        partial_keyed_closed_set::solution_cost(self.words, tree, self.node)
    }
}
