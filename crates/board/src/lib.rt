// The calls as a board links them from C or Rust: numbers and slices only, each call under its plain name. A search is kept by the board as
// the 390 words of its record (crate `search_words`). A call answers 0, or 01's number of its refusal, and then words, record and path are
// as they were. include/perillabeam.h declares the same for C.

#![tactic(auto)]

ghost use Rattle.std.specs.Prelude.{◌≡◌, ◌≤◌, length};
ghost use Rattle.model.specs.Answers.{step_reply};
ghost use Rattle.layout.specs.Sound.{sound_wordsb};
ghost use Rattle.search_words.specs.Record.{record_words};
ghost use Rattle.board.specs.Board.{answer_number, answer_numbers, step_waits, strange as strange_words, Kept, sizedb, WordsNeeded, OpenCalled, InitializeCalled, PlanCalled, StepCalled, SolveCalled, RetraceCalled};

use layout::GraphSize;
use model::limits::{MAX_EDGES, MAX_SLOTS, MAX_VERTICES};
use model::{Refusal, Search, SearchStatus, number};
use search_words::{RECORD_WORDS, encode, read_record};

// How many words a cache needs; refused 4 where a count is over its limit or the slots are not 1 to 64.
#[unsafe(no_mangle)]
pub extern "C" fn perillabeam_words_needed(
    vertices: usize,
    edges: usize,
    slots: usize,
    needed: &mut usize,
) -> u32
    ensures { WordsNeeded vertices edges slots result needed.new }
{
    if !is_sized(vertices, edges, slots) {
        *needed = 0;
        return number(Refusal::OverLimit);
    }
    *needed = GraphSize { vertices, edges }.words_needed(slots);
    0
}

// `cache::open`; the direction is a number, as C passes it, and a refusal's line is told through `line`.
#[unsafe(no_mangle)]
pub extern "C" fn perillabeam_open(
    words: &mut [u32],
    text: &[u8],
    direction: u32,
    slots: usize,
    line: &mut usize,
) -> u32
    ensures { OpenCalled words.old text.now direction slots result line.new words.new }
{
    match cache::open(words, text, direction, slots) {
        Ok(()) => {
            *line = 0;
            0
        }
        Err(refused) => {
            *line = refused.line;
            number(refused.refusal)
        }
    }
}

// `sound::is_sound`.
#[unsafe(no_mangle)]
pub extern "C" fn perillabeam_is_sound(words: &[u32]) -> bool
    ensures { result ≡ sound_wordsb words.now }
{
    sound::is_sound(words)
}

// `dijkstra::initialize`; the record is written where it is accepted.
#[unsafe(no_mangle)]
pub extern "C" fn perillabeam_initialize(
    words: &mut [u32],
    starts: &[u32],
    goals: &[u32],
    search: &mut [u32],
) -> u32
    ensures { InitializeCalled words.old starts.now goals.now search.old result words.new search.new }
{
    if search.len() < RECORD_WORDS {
        return strange(words);
    }
    match dijkstra::initialize(words, starts, goals) {
        Ok(next) => {
            encode(next, search);
            0
        }
        Err(refusal) => number(refusal),
    }
}

// `dijkstra::step` on the record that the words hold.
#[unsafe(no_mangle)]
pub extern "C" fn perillabeam_step(
    words: &mut [u32],
    search: &mut [u32],
    answer: &mut [usize; 6],
) -> u32
    ensures { StepCalled words.old search.old result answer.new words.new search.new }
{
    let Some(held) = read_record(search) else {
        *answer = [0; 6];
        return strange(words);
    };
    let stepped = dijkstra::step(words, held);
    keep(stepped.answer, stepped.search, search);
    *answer = answer_numbers(
        stepped.answer,
        step_waits(stepped.answer),
        stepped.tickets,
        false,
    );
    answer_number(stepped.answer)
}

// `planner::solve` on the record that the words hold.
#[unsafe(no_mangle)]
pub extern "C" fn perillabeam_solve(
    words: &mut [u32],
    search: &mut [u32],
    steps: u32,
    answer: &mut [usize; 6],
) -> u32
    ensures { SolveCalled words.old search.old steps result answer.new words.new search.new }
{
    let Some(held) = read_record(search) else {
        *answer = [0; 6];
        return strange(words);
    };
    let taken = planner::solve(words, held, steps);
    keep(taken.answer, taken.search, search);
    *answer = answer_numbers(taken.answer, taken.waits, taken.tickets, false);
    answer_number(taken.answer)
}

// `planner::plan`; the record is written where it is accepted.
#[unsafe(no_mangle)]
pub extern "C" fn perillabeam_plan(
    words: &mut [u32],
    starts: &[u32],
    goals: &[u32],
    path: &mut [u32],
    search: &mut [u32],
    answer: &mut [usize; 6],
) -> u32
    ensures { PlanCalled words.old starts.now goals.now path.old search.old result answer.new words.new path.new search.new }
{
    if search.len() < RECORD_WORDS {
        *answer = [0; 6];
        return strange(words);
    }
    let planned = planner::plan(words, starts, goals, path);
    keep(planned.answer, planned.search, search);
    *answer = answer_numbers(
        planned.answer,
        planned.waits,
        planned.tickets,
        planned.has_path,
    );
    answer_number(planned.answer)
}

// `dijkstra::retrace` on the record that the words hold.
#[unsafe(no_mangle)]
pub extern "C" fn perillabeam_retrace(
    words: &[u32],
    search: &[u32],
    path: &mut [u32],
    moves: &mut usize,
) -> u32
    ensures { RetraceCalled words.now search.now path.old result moves.new path.new }
{
    let Some(held) = read_record(search) else {
        *moves = 0;
        return strange(words);
    };
    let traced = dijkstra::retrace(words, held, path);
    *moves = traced.unwrap_or(0);
    traced.err().map_or(0, number)
}

// The counts of a graph, and slots, are within their limits.
fn is_sized(vertices: usize, edges: usize, slots: usize) -> bool
    ensures { result ≡ sizedb vertices edges slots }
{
    vertices <= MAX_VERTICES && edges <= MAX_EDGES && 1 <= slots && slots <= MAX_SLOTS
}

// Of a record's words that are none: 7 comes before 8.
fn strange(words: &[u32]) -> u32
    ensures { result ≡ strange_words words.now }
{
    if sound::is_sound(words) {
        return number(Refusal::InvalidSearch);
    }
    number(Refusal::Unsound)
}

// The record is written, unless the call was refused.
fn keep(told: Result<SearchStatus, Refusal>, next: Search, search: &mut [u32])
    requires { record_words ≤ length search.old }
    ensures { Kept (step_reply told) next search.old search.new }
{
    if told.is_ok() {
        encode(next, search);
    }
}

// 0, or the refusal's number.
fn answer_number(told: Result<SearchStatus, Refusal>) -> u32
    ensures { result ≡ answer_number (step_reply told) }
{
    told.err().map_or(0, number)
}

// Whether the step waited.
fn step_waits(told: Result<SearchStatus, Refusal>) -> usize
    ensures { result ≡ step_waits (step_reply told) }
{
    match told {
        Ok(SearchStatus::Incomplete) => 1,
        _ => 0,
    }
}

// Status, total cost, moves, waits, tickets, and whether the path was written.
fn answer_numbers(
    told: Result<SearchStatus, Refusal>,
    waits: usize,
    tickets: usize,
    has_path: bool,
) -> [usize; 6]
    ensures { result ≡ answer_numbers (step_reply told) waits tickets has_path }
{
    let path = usize::from(has_path);
    match told {
        Err(_) => [0; 6],
        Ok(SearchStatus::Incomplete) => [1, 0, 0, waits, tickets, path],
        Ok(SearchStatus::Solved { total_cost, moves }) => {
            [2, total_cost as usize, moves, waits, tickets, path]
        }
        Ok(SearchStatus::Impossible) => [3, 0, 0, waits, tickets, path],
    }
}
