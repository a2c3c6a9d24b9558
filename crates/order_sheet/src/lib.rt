// An order sheet: a chart's caches in both directions, and a line on standard output for each order. Its bytes are those of the
// definition `sheet_text`; they are put part by part into bytes lent, and written.

#![tactic(auto)]

pub mod files;

ghost use Rattle.std.specs.Prelude.{◌≡◌, ◌≤◌, length};
ghost use Rattle.model.specs.Answers.{number as refusal_number};
ghost use Rattle.order_sheet.specs.Whole.{is_overlong};
ghost use Rattle.order_sheet.specs.Sheet.{Begins, RefusedPart, CanPutNext, PutsNext};

use model::{Refusal, number};
use order_lines::answers::put_refused;
use order_run::{MAX_PATH, put_order, put_refusal};
use put_text::put_bytes;
use text::bytes::find;

// The longest file.
pub const MAX_BYTES: usize = 65536;

// Each direction is lent these words, with these slots.
const WORDS: usize = 16000;

const SLOTS: usize = 16;

// A line has at most 108 bytes, and 11 for each of the 2,047 words of a path.
const LINE: usize = 24576;

// Lines are written many at once: the bytes that are put before they are written.
const SPACE: usize = 65536;

// The words lent to a sheet's orders: a cache for each direction, and a path.
#[derive(Drop)]
struct Lent {
    forward: [u32; WORDS],
    backward: [u32; WORDS],
    path: [u32; MAX_PATH],
}

// A part of a sheet: its bytes, and where the next order stands and which number it has.
#[derive(Clone, Copy)]
pub struct Part {
    pub bytes: usize,
    pub at: usize,
    pub order: usize,
}

// Prints the sheet of a chart and its orders.
pub fn run(chart: &[u8], orders: &[u8]) {
    let mut lent = Lent {
        forward: [0; WORDS],
        backward: [0; WORDS],
        path: [0; MAX_PATH],
    };
    let mut out = [0u8; SPACE];
    let mut part = begin(&mut lent, chart, orders, &mut out);
    let mut filled = part.bytes;
    // By as many bytes as each order has, which is known once it is put.
    while part.at < orders.len() {
        if SPACE - LINE < filled {
            io::write_all(1, &out[..filled]);
            filled = 0;
        }
        part = put_next(&mut lent, orders, part, &mut out[filled..]);
        filled += part.bytes;
    }
    io::write_all(1, &out[..filled]);
}

// The first part: the title, where both caches were opened. If a file is too long, or the chart is refused, a line that says so is
// the whole sheet.
fn begin(lent: &mut Lent, chart: &[u8], orders: &[u8], out: &mut [u8]) -> Part
    requires { 24576 ≤ length out.old }
    ensures { Begins chart.now orders.now out.old result lent.new.forward lent.new.backward out.new }
{
    if is_overlong(chart) || is_overlong(orders) {
        return refused_sheet(orders, out, Refusal::OverLimit);
    }
    if let Err(refused) = cache::open(&mut lent.forward, chart, 0, SLOTS) {
        return refused_sheet(orders, out, refused.refusal);
    }
    if let Err(refused) = cache::open(&mut lent.backward, chart, 1, SLOTS) {
        return refused_sheet(orders, out, refused.refusal);
    }
    Part {
        bytes: put_bytes(out, 0, b"order,answer,total,waits,tickets,run\n"),
        at: 0,
        order: 0,
    }
}

fn is_overlong(file: &[u8]) -> bool
    ensures { result ≡ is_overlong file.now }
{
    MAX_BYTES < file.len()
}

// A sheet that is refused has no lines of orders.
fn refused_sheet(orders: &[u8], out: &mut [u8], refusal: Refusal) -> Part
    requires { 24576 ≤ length out.old }
    ensures { RefusedPart orders.now out.old (refusal_number refusal) result out.new }
{
    Part {
        bytes: put_refused(out, number(refusal)),
        at: orders.len(),
        order: 0,
    }
}

// The line of the order at a part's place. A last line without LF is no order, but has a number.
fn put_next(lent: &mut Lent, orders: &[u8], part: Part, out: &mut [u8]) -> Part
    requires { CanPutNext orders.now lent.old.forward lent.old.backward out.old part }
    ensures { PutsNext orders.now lent.old.forward lent.old.backward out.old part result lent.new.forward lent.new.backward out.new }
{
    let at = part.at;
    let order = part.order;
    let next = order + 1;
    let end = at + find(&orders[at..], b'\n');
    if end == orders.len() {
        return Part {
            bytes: put_refusal(out, order, number(Refusal::Malformed)),
            at: end,
            order: next,
        };
    }
    let line = &orders[at..end];
    Part {
        bytes: put_order(
            &mut lent.forward,
            &mut lent.backward,
            order,
            line,
            &mut lent.path,
            out,
        ),
        at: end + 1,
        order: next,
    }
}
