// The search records and the run slice, the calls with a record, and the lines on a record alone.
ghost use Rattle.std.specs.Prelude.{◌<◌, IfSome};

use crate::UNTOUCHED;
use model::{Refusal, Search, SearchStatus, Stepped};
use script_lines::answers::Answer;
use script_lines::fields::Call;
use script_lines::names::Name;
use script_lines::records::set;
use text::bytes::capped;
use text::fields::Field::{self, Number};

const RECORDS: usize = 8;

// The words of the run slice.
const RUN: usize = 4096;

#[derive(Drop)]
pub struct Searches {
    records: [Search; RECORDS],
    run: [u32; RUN],
}

impl Searches {
    pub fn new() -> Searches {
        Searches {
            records: [Search::empty(); RECORDS],
            run: [0; RUN],
        }
    }

    // What a call with a record answers, if the line has a form. It gets the words that are lent.
    pub fn call(&mut self, call: &Call<'_>, words: &mut [u32]) -> Option<Answer<'_>> {
        let k = record_number(call.fields().get(1))?;
        let record = &mut self.records[k];
        let run = &mut self.run;
        let answered = match (call.name, call.fields()) {
            (Name::Open, [_, _, _, _]) => {
                let (starts, goals) = (call.numbers(3)?, call.numbers(4)?);
                open(&starts, &goals, record, words)
            }
            (Name::Step, [_, _]) => stepped(dijkstra::step(words, *record), record),
            // Through the entry that is lent the record.
            (Name::Lent, [_, _]) => stepped(in_place::step_lent(words, *record), record),
            (Name::Solve, [_, _, Number(steps)]) => solve(capped(*steps), record, words),
            (Name::Plan, [_, _, Number(lent), _, _]) => {
                let (starts, goals) = (call.numbers(4)?, call.numbers(5)?);
                plan(&starts, &goals, record, words, lend(run, *lent)?)
            }
            (Name::Retrace, [_, _, Number(lent)]) => retrace(*record, words, lend(run, *lent)?),
            _ => return None,
        };
        match answered {
            Ok(answer) => Some(answer),
            Err(refusal) => Some(Answer::Refused(refusal)),
        }
    }

    // What a line on the run slice or on a record answers, if it has a form.
    pub fn answer(&mut self, call: &Call<'_>) -> Option<Answer<'_>> {
        if let (Name::Past, [Number(at)]) = (call.name, call.fields()) {
            return Some(Answer::Words("past", self.run.get(*at..)?.get(..4)?));
        }
        let k = record_number(call.fields().first())?;
        match (call.name, call.fields()) {
            (Name::Record, [_]) => Some(Answer::Record(&self.records[k])),
            (Name::Copy, [_, j]) => {
                let j = record_number(Some(j))?;
                self.records[j] = self.records[k];
                Some(Answer::Done("copied"))
            }
            (name, fields) => {
                self.records[k] = set(name, fields, self.records[k])?;
                Some(Answer::Done("set"))
            }
        }
    }
}

// The number of a record.
fn record_number(field: Option<&Field>) -> Option<usize>
    ensures { IfSome result (λ k. k < 8) }
{
    match field {
        Some(Number(k)) if *k < RECORDS => Some(*k),
        _ => None,
    }
}

// The first words of the run slice, in which every word is untouched then.
fn lend(run: &mut [u32; RUN], lent: usize) -> Option<&mut [u32]> {
    if RUN < lent {
        return None;
    }
    *run = [UNTOUCHED; RUN];
    Some(&mut run[..lent])
}

fn open(
    starts: &[u32],
    goals: &[u32],
    record: &mut Search,
    words: &mut [u32],
) -> Result<Answer<'static>, Refusal> {
    *record = dijkstra::initialize(words, starts, goals)?;
    Ok(Answer::Done("opened"))
}

fn stepped(stepped: Stepped, record: &mut Search) -> Result<Answer<'static>, Refusal> {
    *record = stepped.search;
    Ok(Answer::Stepped {
        status: stepped.answer?,
        tickets: stepped.tickets,
    })
}

fn solve(steps: u32, record: &mut Search, words: &mut [u32]) -> Result<Answer<'static>, Refusal> {
    let taken = planner::solve(words, *record, steps);
    *record = taken.search;
    Ok(Answer::Solved {
        status: taken.answer?,
        waits: taken.waits,
        tickets: taken.tickets,
    })
}

// The record is the planned search's, unless it is refused.
fn plan<'a>(
    starts: &[u32],
    goals: &[u32],
    record: &mut Search,
    words: &mut [u32],
    run: &'a mut [u32],
) -> Result<Answer<'a>, Refusal> {
    let planned = planner::plan(words, starts, goals, run);
    let status = planned.answer?;
    *record = planned.search;
    let path = match status {
        SearchStatus::Solved { moves, .. } if planned.has_path => Some(path_in(run, moves)),
        _ => None,
    };
    Ok(Answer::Planned {
        status,
        waits: planned.waits,
        tickets: planned.tickets,
        path,
    })
}

fn retrace<'a>(record: Search, words: &[u32], run: &'a mut [u32]) -> Result<Answer<'a>, Refusal> {
    let moves = dijkstra::retrace(words, record, run)?;
    Ok(Answer::Words("run", path_in(run, moves)))
}

// The words of a path of so many moves, which is written at the start of the run slice.
fn path_in(run: &[u32], moves: usize) -> &[u32] {
    let words = moves.saturating_mul(2).saturating_add(1);
    &run[..words.min(run.len())]
}
