// The closed words of a tree, one for each vertex: the Rust's `PartialKeyedClosedSet`, of which every vertex is a key.
// Ported from open-rmf/mapf (mapf/src: domain/closable/partial_keyed_closed_set.rs) and changed; Apache License 2.0, see NOTICE.
ghost use Rattle.std.specs.Prelude.{◌≡◌, ◌<◌, length};
ghost use Rattle.layout.specs.Layout.{used_in, closed_word_in, NodeFits};
ghost use Rattle.layout.specs.Read.{read_cache};
ghost use Rattle.tree.specs.Tree.{Formed, HasVertex, HasGoals, HasSolution, status_of, CanClose, CloseIs, ClosedCountIs, SolutionCostIs, CheapestIs, Considers};

// The Rust's, whose `Rejected` hands out the value and the prior one: here they are words of the tree.
#[derive(Clone, Copy)]
pub enum CloseResult {
    Accepted,
    Rejected,
}

// Closes a vertex by a node, unless it is closed already.
pub fn close(tree: &mut [u32], edges: usize, vertex: usize, node: u32) -> CloseResult
    requires { CanClose edges tree.old vertex node }
    ensures { CloseIs edges tree.old tree.new vertex node result }
{
    let place = layout::closed_at(edges) + vertex;
    if tree[place] != 0 {
        return CloseResult::Rejected;
    }
    tree[place] = node + 1;
    CloseResult::Accepted
}

// The closed words of `tree`, which start where `edges` says, in a tree that is formed.
#[derive(Clone, Copy)]
pub struct PartialKeyedClosedSet<'a> {
    pub tree: &'a [u32],
    pub edges: usize,
    pub ghost formed: { Formed edges tree.now },
}

impl PartialKeyedClosedSet<'_> {
    // The node that closed a vertex, if one did.
    pub fn status(self, vertex: usize) -> Option<u32>
        requires { HasVertex self.edges self.tree.now vertex }
        ensures { result ≡ status_of (closed_word_in self.entry.edges self.entry.tree.now vertex) }
    {
        self.tree[layout::closed_at(self.edges) + vertex].checked_sub(1)
    }

    // How many vertices are closed, counted from the closed words: those that are not open. The count is a word and counts the words
    // that are 0, so that the compiler counts four at a time and in the fewest instructions.
    pub fn closed_keys_len(self) -> u32
        ensures { ClosedCountIs self.entry.edges self.entry.tree.now result }
    {
        let closed = &self.tree[layout::closed_at(self.edges)..];
        let mut unclosed: u32 = 0;
        for word in closed {
            if *word == 0 {
                unclosed += 1;
            }
        }
        closed.len() as u32 - unclosed
    }

    // The cheapest closed goal, the first in the list on ties, as the node that closed it. `words` are those of the tree's cache.
    pub fn cheapest_goal(self, words: &[u32], goals: &[u32]) -> Option<u32>
        requires { HasGoals self.edges self.tree.now goals.now }
        ensures { CheapestIs (read_cache words.now).domain words.now self.entry.edges self.entry.tree.now goals.now result }
    {
        let mut best = None;
        for goal in goals {
            best = self.cheaper_goal(words, best, *goal as usize);
        }
        best
    }

    // The solution held, or the node that closed a vertex if that is cheaper.
    fn cheaper_goal(self, words: &[u32], best: Option<u32>, vertex: usize) -> Option<u32>
        requires { HasVertex self.edges self.tree.now vertex × HasSolution self.tree.now best }
        ensures { Considers (read_cache words.now).domain words.now self.entry.edges self.entry.tree.now best vertex result }
    {
        let Some(node) = self.status(vertex) else {
            return best;
        };
        let tree = self.tree;
        match best {
            None => Some(node),
            Some(held) if solution_cost(words, tree, node) < solution_cost(words, tree, held) => {
                Some(node)
            }
            Some(_) => best,
        }
    }
}

// What the solution at a node is worth.
pub fn solution_cost(words: &[u32], tree: &[u32], node: u32) -> u64
    requires { (node < used_in tree.now) × NodeFits (length tree.now) node }
    ensures { SolutionCostIs (read_cache words.now).domain words.now tree.now node result }
{
    queue::evaluation(tree, node)
}
