// One order: its search is opened on the cache of its direction and stepped until it answers, and its line is put.

#![tactic(auto)]

ghost use Rattle.std.specs.Prelude.{◌≡◌, ◌<◌, ◌≤◌, length};
ghost use Rattle.model.specs.Answers.{step_reply};
ghost use Rattle.sound.specs.Facts.{SoundWords};
ghost use Rattle.put_text.specs.Puts.{Puts};
ghost use Rattle.order_run.specs.Orders.{answer_of, refused_order};
ghost use Rattle.order_run.specs.Run.{CanPut, CanPutShown, PathRoom, held_line, Ran, RanLine, CalledBoth};

use memory::held_in;
use memory::held_node::HeldNode;
use model::{Refusal, SearchStatus, number};
use order_lines::answers::{Answer, Line, put_line};
use order_lines::orders::{Form, read_order};
use unchecked::run_search;
use unchecked::shown::retrace_node;

// The words of a path of 1,023 moves, the most there are among 1,024 vertices.
pub const MAX_PATH: usize = 2047;

// Puts the line of an order, which is given without its LF, and answers how many bytes it has. A path is written into the words lent for it.
pub fn put_order(
    forward: &mut [u32],
    backward: &mut [u32],
    order: usize,
    line: &[u8],
    path: &mut [u32],
    out: &mut [u8],
) -> usize
    requires { CanPut order out.old × (PathRoom path.old × CalledBoth forward.old backward.old) }
    ensures { RanLine forward.old backward.old order line.now out.old result forward.new backward.new out.new }
{
    let Some(read) = read_order(line) else {
        return put_refusal(out, order, number(Refusal::Malformed));
    };
    match read.form {
        Form::Forward => put_search(forward, order, &read.starts, &read.goals, path, out),
        Form::Backward => put_search(backward, order, &read.starts, &read.goals, path, out),
    }
}

// Puts the line of an order that is refused, by its number, of which any may be put.
pub fn put_refusal(out: &mut [u8], order: usize, number: u32) -> usize
    requires { (order < 10000000000) × (108 ≤ length out.old) }
    ensures { Puts out.old 0 (refused_order order number) result out.new }
{
    let line = Line {
        order,
        answer: Answer::Refused(number),
        waits: 0,
        tickets: 0,
    };
    put_line(out, line, &[])
}

// The order is one of legal form, and the words are those of its direction.
fn put_search(
    words: &mut [u32],
    order: usize,
    starts: &[u32],
    goals: &[u32],
    path: &mut [u32],
    out: &mut [u8],
) -> usize
    requires { CanPut order out.old × (PathRoom path.old × SoundWords words.old) }
    ensures { Ran words.old order starts.now goals.now out.old result words.new out.new }
{
    let run = run_search(words, starts, goals);
    let line = Line {
        order,
        answer: answer_of(run.answer),
        waits: run.waits,
        tickets: run.tickets,
    };
    put_shown(line, held_in(words, run.shown), path, out)
}

// The line's answer, by that of the search.
fn answer_of(answer: Result<SearchStatus, Refusal>) -> Answer
    ensures { result ≡ answer_of (step_reply answer) }
{
    match answer {
        Ok(SearchStatus::Incomplete) => Answer::Incomplete,
        Ok(SearchStatus::Solved { total_cost, .. }) => Answer::Solved(total_cost),
        Ok(SearchStatus::Impossible) => Answer::Impossible,
        Err(refusal) => Answer::Refused(number(refusal)),
    }
}

// A solved order's line shows its path.
fn put_shown(line: Line, held: Option<HeldNode>, path: &mut [u32], out: &mut [u8]) -> usize
    requires { CanPutShown line path.old out.old }
    ensures { Puts out.old 0 (held_line line held.entry) result out.new }
{
    let Some(node) = held else {
        return put_line(out, line, &[]);
    };
    match retrace_node(node, path) {
        Ok(moves) => put_line(out, line, &path[..1 + 2 * moves]),
        Err(refusal) => put_refusal(out, line.order, number(refusal)),
    }
}
