// A search opened on words that are known to be sound: the Rust's `initialize`. Its callers check the words, or know them sound by a theorem.
// Ported from open-rmf/mapf (mapf/src: algorithm/dijkstra/forward.rs, algorithm/dijkstra/backward.rs) and changed; Apache License 2.0, see NOTICE.

#![tactic(auto)]

ghost use Rattle.std.specs.Prelude.{◌≡◌};
ghost use Rattle.sound.specs.Facts.{SoundWords};
ghost use Rattle.opening.specs.Initialize.{Initializes, CanOpenSearch, OpensSearch, CanTakeGoals, with_goals};

use layout::lists::are_vertices;
use model::limits::MAX_ENTRIES;
use model::{Refusal, Search};

// Opens a search from the starts to the goals. On a backward cache its trees root at the goals and the starts are looked for. Soundness is
// asked for, here and where else words are written, and not held in a struct with them: tried, such a struct by value may not be written
// through in a branch or a loop, and as `&mut` each call would promise besides that it keeps the reference.
pub fn initialize(words: &mut [u32], starts: &[u32], goals: &[u32]) -> Result<Search, Refusal>
    requires { SoundWords words.old }
    ensures { Initializes words.old starts.now goals.now result words.new }
{
    if MAX_ENTRIES < starts.len() {
        return Err(Refusal::OverLimit);
    }
    if MAX_ENTRIES < goals.len() {
        return Err(Refusal::OverLimit);
    }
    let vertices = layout::header(words, layout::VERTICES);
    if !are_vertices(starts, vertices) {
        return Err(Refusal::NoSuchVertex);
    }
    if !are_vertices(goals, vertices) {
        return Err(Refusal::NoSuchVertex);
    }
    if words[layout::DIRECTION] == 0 {
        return open_search(words, starts, goals);
    }
    open_search(words, goals, starts)
}

// The lists were judged: the search from the roots, if there are slots for its new trees.
fn open_search(words: &mut [u32], roots: &[u32], goals: &[u32]) -> Result<Search, Refusal>
    requires { CanOpenSearch words.old roots.now goals.now }
    ensures { OpensSearch words.old roots.now goals.now result words.new }
{
    let plan = new_trees::plan(words, roots);
    let unused = layout::header(words, layout::SLOTS) - layout::header(words, layout::TREES);
    if unused < plan.count {
        return Err(Refusal::TreesFull);
    }
    new_trees::plant_all(words, &plan.starts[..plan.count]);
    Ok(with_goals(plan.search, goals))
}

fn with_goals(mut search: Search, goals: &[u32]) -> Search
    requires { CanTakeGoals search goals.now }
    ensures { result ≡ with_goals search goals.now }
{
    for goal in goals {
        search = search.with_goal(*goal);
    }
    search
}
