// The path from a tree's root to a node: the Rust's `Path`, of which `backtrack` is ported.
// Ported from open-rmf/mapf (mapf/src: algorithm/path.rs) and changed; Apache License 2.0, see NOTICE.

#![tactic(auto)]

ghost use Rattle.std.specs.Prelude.{length};
ghost use Rattle.layout.specs.Layout.{direction_in};
ghost use Rattle.paths.specs.Path.{Hung, MovesIs, CanBacktrack, Backtracks};

use layout::node_of;

// How many edges lead from the root to a node.
pub fn moves(tree: &[u32], node: usize) -> usize
    requires { Hung tree.now node }
    ensures { MovesIs tree.now node result }
{
    let mut moves = 0;
    let mut at = node;
    // No index is counted: the next node is the parent.
    while 0 < at {
        at = node_of(tree, at).parent() as usize;
        moves += 1;
    }
    moves
}

// Writes the words of the path to a node of a cache's tree, and answers how many they are. The parent's path comes first; in a backward tree it
// stands two words further on, since the path runs from the node to the root.
pub fn backtrack(words: &[u32], tree: &[u32], node: usize, path: &mut [u32]) -> usize
    requires { CanBacktrack words.now tree.now node (length path.old) }
    ensures { Backtracks words.now tree.now (direction_in words.now) node path.old result path.new }
{
    let own = node_of(tree, node);
    let vertex = own.vertex(words);
    if node == 0 {
        path[0] = vertex;
        return 1;
    }
    let parent = own.parent() as usize;
    let edge = own.edge();
    if words[layout::DIRECTION] == 0 {
        let written = backtrack(words, tree, parent, path);
        path[written] = edge;
        path[written + 1] = vertex;
        return written + 2;
    }
    let written = backtrack(words, tree, parent, &mut path[2..]);
    path[0] = vertex;
    path[1] = edge;
    written + 2
}
