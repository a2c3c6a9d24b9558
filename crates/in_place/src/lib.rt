// The step of a search that is lent by `&mut` and changed in place. The entry only moves whole values: it
// copies the record out, calls the step by value and stores what comes back.

#![tactic(auto)]

ghost use Rattle.dijkstra.specs.Calls.{Stepping};
ghost use Rattle.in_place.specs.Lent.{stepped_as};

use model::{Refusal, Search, SearchStatus, Stepped};

// What a step answered, without the record.
#[derive(Clone, Copy)]
pub struct StepReport {
    pub answer: Result<SearchStatus, Refusal>,
    pub tickets: usize,
}

// "a thin entry lends the search record and changes it in place": the record is copied out, stepped and stored. After a refusal it
// is as it was.
pub fn step_in_place(words: &mut [u32], search: &mut Search) -> StepReport
    ensures { Stepping words.old search.old (stepped_as result search.new) words.new }
{
    let stepped = dijkstra::step(words, *search);
    *search = stepped.search;
    StepReport {
        answer: stepped.answer,
        tickets: stepped.tickets,
    }
}

// For callers that hold the record by value.
pub fn step_lent(words: &mut [u32], search: Search) -> Stepped
    ensures { Stepping words.old search result words.new }
{
    let mut held = search;
    let report = step_in_place(words, &mut held);
    Stepped {
        answer: report.answer,
        tickets: report.tickets,
        search: held,
    }
}
