// The calls on words that are known to be sound: the Rust's, which checks nothing. Their callers check the words, once for one call
// or once for many, or know them sound by a theorem.
// Ported from open-rmf/mapf (mapf/src: algorithm/dijkstra/forward.rs, algorithm/dijkstra/backward.rs) and changed; Apache License 2.0, see NOTICE.

#![tactic(auto)]

pub mod shown;

ghost use Rattle.std.specs.Prelude.{◌≡◌};
ghost use Rattle.model.specs.Answers.{step_reply};
ghost use Rattle.model.specs.Calls.{step as Model-step};
ghost use Rattle.model.specs.Solve.{is_waiting};
ghost use Rattle.layout.specs.Read.{read_cache};
ghost use Rattle.sound.specs.Facts.{SoundWords};
ghost use Rattle.unchecked.specs.Step.{Advances, not_stepped};
ghost use Rattle.unchecked.specs.Solve.{Solves};
ghost use Rattle.memory.specs.Standing.{Shows};
ghost use Rattle.unchecked.specs.Shown.{shown_of, last_answer};
ghost use Rattle.unchecked.specs.Run.{Runs, JustOpened, RunsToEnd};
ghost use Rattle.unchecked.specs.Retrace.{Retraces};

use entry_turns::{best_entry, step_trees};
use memory::{Shown, Standing, held_in, judge, shown_at};
use model::{BestSolution, Refusal, Search, SearchStatus, Stepped, StepsTaken, TreeMemory};
use opening::initialize;
use shown::{retrace_shown, shown_of, status_of};
use sound::known::SoundCache;

// One step of a search, which comes back changed beside the answer.
pub fn step(words: &mut [u32], search: Search) -> Stepped
    requires { SoundWords words.old }
    ensures { Advances words.old search result words.new }
{
    let taken = solve(words, search, 1);
    Stepped {
        answer: taken.answer,
        tickets: taken.tickets,
        search: taken.search,
    }
}

// At most so many steps, one after the other, up to an answer. With no steps it tells how the search stands, and changes nothing. The
// record is judged once: a step leaves it passing all but the last test of refusal 8, by theorem. Where a step after the first is refused
// the answer is waiting, and the next call is refused.
pub fn solve(words: &mut [u32], search: Search, steps: u32) -> StepsTaken
    requires { SoundWords words.old }
    ensures { Solves words.old search steps result words.new }
{
    let answer = standing(SoundCache { words }, search);
    if !is_waiting(answer) {
        return StepsTaken {
            answer,
            waits: 0,
            tickets: 0,
            search,
        };
    }
    let mut next = search;
    let mut tickets: usize = 0;
    for waits in 0..steps as usize {
        if next.exhausted {
            let best = next.best_solution;
            let holder = next.trees[best_entry(best)];
            return StepsTaken {
                answer: last_answer(words, best, holder),
                waits,
                tickets,
                search: next,
            };
        }
        let turned = step_trees(words, next);
        tickets += turned.tickets;
        next = turned.search;
    }
    StepsTaken {
        answer: Ok(SearchStatus::Incomplete),
        waits: steps as usize,
        tickets,
        search: next,
    }
}

// What is told of a search that some steps finished, by the entry that found the best. Where that entry holds nothing a step is refused,
// which is told as waiting.
fn last_answer(
    words: &[u32],
    best: Option<BestSolution>,
    holder: TreeMemory,
) -> Result<SearchStatus, Refusal>
    requires { Shows words.now (shown_of best holder) }
    ensures { step_reply result ≡ last_answer (read_cache words.now).trees best holder }
{
    match best {
        None => Ok(SearchStatus::Impossible),
        Some(_) => match held_in(words, shown_at(holder)) {
            None => Ok(SearchStatus::Incomplete),
            Some(node) => Ok(status_of(Some(node))),
        },
    }
}

// What a whole search came to: its answer, how many steps waited, the tickets of all, the node that it shows, and its record.
#[derive(Clone, Copy)]
pub struct SearchRun {
    pub answer: Result<SearchStatus, Refusal>,
    pub waits: usize,
    pub tickets: usize,
    pub shown: Option<Shown>,
    pub search: Search,
}

// A whole search: opened, and stepped to its end. It answers, or its opening is refused. Its record is never tested: it is valid at each
// step, by theorem.
pub fn run_search(words: &mut [u32], starts: &[u32], goals: &[u32]) -> SearchRun
    requires { SoundWords words.old }
    ensures { Runs words.old starts.now goals.now result words.new }
{
    match initialize(words, starts, goals) {
        Ok(search) => run_opened(words, search),
        Err(refusal) => SearchRun {
            answer: Err(refusal),
            waits: 0,
            tickets: 0,
            shown: None,
            search: Search::empty(),
        },
    }
}

// The steps of a search that was just opened.
fn run_opened(words: &mut [u32], search: Search) -> SearchRun
    requires { JustOpened words.old search }
    ensures { RunsToEnd words.old search result words.new }
{
    let mut next = search;
    let mut waits: usize = 0;
    let mut tickets: usize = 0;
    // Steps are counted for the answer; how many there will be is known by no range.
    while !next.exhausted {
        let stepped = step_trees(words, next);
        tickets += stepped.tickets;
        next = stepped.search;
        waits += 1;
    }
    let best = next.best_solution;
    let holder = next.trees[best_entry(best)];
    let shown = shown_of(best, holder);
    SearchRun {
        answer: Ok(status_of(held_in(words, shown))),
        waits,
        tickets,
        shown,
        search: next,
    }
}

// What a step of the search answers. A refused or a finished one does no more.
fn standing(cache: SoundCache, search: Search) -> Result<SearchStatus, Refusal>
    ensures { step_reply result ≡ (Model-step (read_cache cache.entry.words.now) search).reply }
{
    match judge(cache, search)? {
        Standing::Unfinished => Ok(SearchStatus::Incomplete),
        Standing::Finished(held) => Ok(status_of(held)),
    }
}

fn is_waiting(answer: Result<SearchStatus, Refusal>) -> bool
    ensures { result ≡ is_waiting (step_reply answer) }
{
    matches!(answer, Ok(SearchStatus::Incomplete))
}

pub fn not_stepped(search: Search, refusal: Refusal) -> Stepped
    ensures { result ≡ not_stepped search refusal }
{
    Stepped {
        answer: Err(refusal),
        tickets: 0,
        search,
    }
}

// Writes the path of a search that finished as solved: first vertex, then edge and vertex for each move, in the graph's own direction.
pub fn retrace(cache: SoundCache, search: Search, path: &mut [u32]) -> Result<usize, Refusal>
    ensures { Retraces cache.entry.words.now search path.old result path.new }
{
    match judge(cache, search) {
        Err(_) => Err(Refusal::InvalidSearch),
        Ok(Standing::Unfinished) => Err(Refusal::NotSolved),
        Ok(Standing::Finished(held)) => retrace_shown(held, path),
    }
}
