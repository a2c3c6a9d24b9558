// Lists of calls from a script: each line of standard input is a call of the library, or a look at what the calls left, and
// prints one line. A line that has none of the forms prints `?` and is passed over.

#![tactic(auto)]

mod chart;
mod searches;
mod sum;
mod words;

use crate::chart::Chart;
use crate::searches::Searches;
use crate::words::Words;
use order_lines::orders::Form;
use script_lines::answers::Answer;
use script_lines::fields::{Call, read_call};
use script_lines::input::{Input, MAX_BYTES};
use script_lines::names::Name;
use std::fmt::{self, Write};

// What an untouched word holds.
const UNTOUCHED: u32 = 7;

// What a script's lines leave behind: the chart text, the words of each direction, and what searches leave.
#[derive(Drop)]
struct State {
    chart: Chart,
    forward: Words,
    backward: Words,
    searches: Searches,
}

// Standard input is the script. Each turn is a line, and so takes a byte at least.
pub fn run() {
    let mut input = Input::new();
    let mut buffer = [0; 4096];
    let mut state = State::new();
    for _ in 0..MAX_BYTES {
        let Some(line) = input.read_line(&mut buffer) else {
            break;
        };
        let _unwritten = match state.answer(line, &mut input) {
            Some(answer) => writeln!(Output, "{answer}"),
            None => writeln!(Output, "?"),
        };
    }
}

// Standard output. What cannot be written is passed over, and the lines that follow are answered all the same.
#[derive(Drop)]
struct Output;

impl Write for Output {
    fn write_str(&mut self, s: &str) -> fmt::Result {
        io::write_all(1, s.as_bytes());
        Ok(())
    }
}

impl State {
    fn new() -> State {
        State {
            chart: Chart::new(),
            forward: Words::new(Form::Forward),
            backward: Words::new(Form::Backward),
            searches: Searches::new(),
        }
    }

    // What a line answers, if it has a form.
    fn answer(&mut self, line: &[u8], input: &mut Input) -> Option<Answer<'_>> {
        let call = read_call(line)?;
        let State {
            chart,
            forward,
            backward,
            searches,
        } = self;
        match (call.name, call.form) {
            (Name::Chart, _) => chart.read(&call, input),
            (_, Some(Form::Forward)) => on_side(&call, chart, forward, searches),
            (_, Some(Form::Backward)) => on_side(&call, chart, backward, searches),
            (_, None) => searches.answer(&call),
        }
    }
}

// A line on the words of a direction.
fn on_side<'a>(
    call: &Call<'_>,
    chart: &Chart,
    words: &'a mut Words,
    searches: &'a mut Searches,
) -> Option<Answer<'a>> {
    if is_search(call.name) {
        return searches.call(call, words.lent());
    }
    words.answer(call, chart.text())
}

// The calls with a record.
fn is_search(name: Name) -> bool {
    matches!(
        name,
        Name::Open | Name::Step | Name::Lent | Name::Solve | Name::Plan | Name::Retrace
    )
}
