// The three calls on a cache: the Rust's `Dijkstra` and `BackwardDijkstra`. None asks for anything: a call that cannot be answered
// is refused, and leaves words, record and path as they were. Each checks the words, and then is the call of crate `unchecked`.
// Ported from open-rmf/mapf (mapf/src: algorithm/dijkstra/forward.rs, algorithm/dijkstra/backward.rs) and changed; Apache License 2.0, see NOTICE.

#![tactic(auto)]

ghost use Rattle.std.specs.Prelude.{◌≡◌};
ghost use Rattle.model.specs.Calls.{opened_search};
ghost use Rattle.dijkstra.specs.Calls.{Initializing, Stepping, Retracing};

use model::{Refusal, Search, Stepped};
use sound::known::SoundCache;

// Opens a search from the starts to the goals. On a backward cache its trees root at the goals and the starts are looked for.
pub fn initialize(words: &mut [u32], starts: &[u32], goals: &[u32]) -> Result<Search, Refusal>
    ensures { Initializing words.old starts.now goals.now result words.new }
{
    if !sound::is_sound(words) {
        return Err(Refusal::Unsound);
    }
    opening::initialize(words, starts, goals)
}

// The record of an opening, in every case: of a refused one the empty search.
pub fn opened_search(opened: Result<Search, Refusal>) -> Search
    ensures { result ≡ opened_search opened }
{
    opened.unwrap_or(Search::empty())
}

// One step of a search, which comes back changed beside the answer.
pub fn step(words: &mut [u32], search: Search) -> Stepped
    ensures { Stepping words.old search result words.new }
{
    if !sound::is_sound(words) {
        return unchecked::not_stepped(search, Refusal::Unsound);
    }
    unchecked::step(words, search)
}

// Writes the path of a search that finished as solved: first vertex, then edge and vertex for each move, in the graph's own direction.
pub fn retrace(words: &[u32], search: Search, path: &mut [u32]) -> Result<usize, Refusal>
    ensures { Retracing words.now search path.old result path.new }
{
    if !sound::is_sound(words) {
        return Err(Refusal::Unsound);
    }
    unchecked::retrace(SoundCache { words }, search, path)
}
