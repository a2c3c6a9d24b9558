// Many steps of a search at once, or a whole one, for a controller that owns its words between picks. The Rust's planner is not followed.

#![tactic(auto)]

ghost use Rattle.std.specs.Prelude.{◌≡◌};
ghost use Rattle.model.specs.Answers.{is_answered, retrace_reply};
ghost use Rattle.planner.specs.Solve.{Solving};
ghost use Rattle.planner.specs.Plan.{Planning, not_planned};

use memory::held_in;
use model::{Planned, Refusal, Search, StepsTaken};

// One step more than a search of 64 trees and 2,048 edges waits: 1 + 64 × (1 + 2,048) waits, and then its answer.
pub const MAX_STEPS: u32 = 131138;

// At most so many steps, one after the other, up to an answer. The words are checked once. With no steps it tells how the search
// stands, and changes nothing. A refused call has changed nothing: where a step after the first is refused the answer is waiting, and
// the next call is refused.
pub fn solve(words: &mut [u32], search: Search, steps: u32) -> StepsTaken
    ensures { Solving words.old search steps result words.new }
{
    if !sound::is_sound(words) {
        return StepsTaken {
            answer: Err(Refusal::Unsound),
            waits: 0,
            tickets: 0,
            search,
        };
    }
    unchecked::solve(words, search, steps)
}

// A whole search: opened, stepped to its end, and its path written where the slice has room for it. The words are checked once. It is
// refused by 7, 4, 3 and 6 alone, and then nothing has changed: with too short a slice it answers, says that the path was not written,
// leaves the slice, and hands back the record for a `retrace`.
pub fn plan(words: &mut [u32], starts: &[u32], goals: &[u32], path: &mut [u32]) -> Planned
    ensures { Planning words.old starts.now goals.now path.old result words.new path.new }
{
    if !sound::is_sound(words) {
        return not_planned(Refusal::Unsound);
    }
    let run = unchecked::run_search(words, starts, goals);
    let retraced = unchecked::shown::retrace_shown(held_in(words, run.shown), path);
    Planned {
        answer: run.answer,
        has_path: has_moves(retraced),
        waits: run.waits,
        tickets: run.tickets,
        search: run.search,
    }
}

fn not_planned(refusal: Refusal) -> Planned
    ensures { result ≡ not_planned refusal }
{
    Planned {
        answer: Err(refusal),
        has_path: false,
        waits: 0,
        tickets: 0,
        search: Search::empty(),
    }
}

// Whether a path was written.
fn has_moves(answer: Result<usize, Refusal>) -> bool
    ensures { result ≡ is_answered (retrace_reply answer) }
{
    answer.is_ok()
}
