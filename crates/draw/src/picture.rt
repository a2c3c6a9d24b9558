// What is printed: a chart's drawing, or why there is none.
ghost use Rattle.std.specs.Prelude.{◌≡◌, cond, ◌≤◌, length, replicate, option_copied};
ghost use Rattle.model.specs.Answers.{answered, status, step_reply};
ghost use Rattle.text.specs.Read.{read_graph};
ghost use Rattle.layout.specs.Read.{direction_of};
ghost use Rattle.put_text.specs.Puts.{Puts};
ghost use Rattle.draw.specs.Picture.{drawn_text, picture_text, form_number, order_path, path_in, words_in, found_by, Few, FoundIs};

use drawing::{DrawError, draw};
use model::{Planned, Refusal, Refused, SearchStatus, number};
use order_lines::answers::put_refused;
use order_lines::orders::{Form, read_order};
use order_run::MAX_PATH;
use order_sheet::MAX_BYTES;

// The bytes for the drawing of the largest chart there is.
pub const MAX_PICTURE: usize = 196864;

// Each direction has 16 slots, and words for the largest chart there is.
const SLOTS: usize = 16;

const WORDS: usize = 190598;

// Puts what is printed in front of the bytes lent, and answers how many bytes it has. Without an order nothing is bold.
pub fn put_picture(chart: &[u8], order: Option<&[u8]>, out: &mut [u8]) -> usize
    requires { length out.old ≡ 196864 }
    ensures { Puts out.old 0 (picture_text chart.now (option_copied order.entry)) result out.new }
{
    if MAX_BYTES < chart.len() {
        return put_refused(out, number(Refusal::OverLimit));
    }
    let Some(order) = order else {
        return put_drawn(chart, &[], out);
    };
    let mut path = [0u32; MAX_PATH];
    match find_path(chart, order, &mut path) {
        Ok(n) => put_drawn(chart, &path[..n], out),
        Err(refused) => put_refused(out, number(refused.refusal)),
    }
}

// The drawing, or the refusal of the chart.
fn put_drawn(chart: &[u8], path: &[u32], out: &mut [u8]) -> usize
    requires { length out.old ≡ 196864 }
    ensures { Puts out.old 0 (drawn_text (read_graph chart.now) path.now) result out.new }
{
    match draw(chart, path, out) {
        Ok(n) => n,
        Err(DrawError::Chart(refused)) => put_refused(out, number(refused.refusal)),
        Err(DrawError::ShortDrawing) => 0,
    }
}

// How many words the path of an order has. The order is refused by its form before the chart is read.
fn find_path(chart: &[u8], order: &[u8], path: &mut [u32]) -> Result<usize, Refused>
    requires { path.old ≡ replicate 2047 0 }
    ensures { FoundIs result path.new (order_path chart.now order.now) }
{
    let read = read_order(order).ok_or(Refusal::Malformed)?;
    find_in(chart, direction(read.form), &read.starts, &read.goals, path)
}

// How many words the path has that a search of a direction finds. Its words are a frame of their own: without an order, or with one that
// has no form, no page of them is touched.
#[inline(never)]
fn find_in(
    chart: &[u8],
    direction: u32,
    starts: &[u32],
    goals: &[u32],
    path: &mut [u32],
) -> Result<usize, Refused>
    requires { (direction ≤ 1) × (path.old ≡ replicate 2047 0) }
    ensures { FoundIs result path.new (path_in (direction_of direction) (read_graph chart.now) starts.now goals.now) }
{
    let mut words = [0u32; WORDS];
    cache::open(&mut words, chart, direction, SLOTS)?;
    path_found(planner::plan(&mut words, starts, goals, path))
}

// The number that `open` takes.
fn direction(form: Form) -> u32
    ensures { result ≡ form_number form }
{
    form as u32
}

// The path's words, of which there are none if no path was found.
fn path_found(planned: Planned) -> Result<usize, Refused>
    requires { Few (step_reply planned.answer) planned.has_path }
    ensures { result ≡ found_by planned.answer planned.has_path }
{
    let status = planned.answer?;
    Ok(path_words(status, planned.has_path))
}

fn path_words(search: SearchStatus, has_path: bool) -> usize
    requires { Few (answered (status search)) has_path }
    ensures { result ≡ cond has_path (words_in (status search)) 0 }
{
    match search {
        SearchStatus::Solved { moves, .. } if has_path => 1 + 2 * moves,
        _ => 0,
    }
}
