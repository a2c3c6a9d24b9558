// 01's limits, on slices that are long enough. Each line is one opening: vertices, edges, initial cost, cost, direction, slots and
// words lent; then the answer, how many words it changed, and a sum of all words, those past the lent ones too.

#![tactic(auto)]

ghost use Rattle.std.specs.Prelude.{◌<◌, ◌≤◌, length};

use model::{Refused, number};
use put_text::{put_edge, put_vertex};
use std::fmt;

// The longest line of a vertex, and of an edge. A text has room for all of its lines.
const VERTEX: usize = 24;

const EDGE: usize = 35;

// What a text is made of.
#[derive(Clone, Copy)]
struct Sample {
    vertices: u32,
    edges: u32,
    initial: u32,
    cost: u32,
}

// What is asked for with a text, its direction by the number that `open` takes, and how many words are lent.
#[derive(Clone, Copy)]
struct Opening {
    direction: u32,
    slots: usize,
    lent: usize,
    ghost fits: { lent ≤ 22000 },
}

// What cannot be written is passed over.
fn main(rt: HostRuntime) {
    let most = Sample::new(1024, 2048, 999999, 999999);
    for (sample, opening) in [
        (most, Opening::new(0, 1, 21518)),
        (most, Opening::new(1, 1, 21518)),
        (most, Opening::new(0, 1, 21517)),
        (most, Opening::new(1, 1, 21517)),
        (most, Opening::new(1, 1, 22000)),
        (Sample::new(1025, 0, 0, 0), Opening::new(0, 1, 22000)),
        (Sample::new(1025, 2049, 0, 0), Opening::new(1, 1, 22000)),
        (Sample::new(1024, 2049, 0, 0), Opening::new(0, 1, 22000)),
        (Sample::new(1024, 2049, 0, 0), Opening::new(1, 1, 22000)),
        (Sample::new(3, 4, 1000000, 0), Opening::new(0, 1, 22000)),
        (Sample::new(3, 4, 0, 1000000), Opening::new(1, 1, 22000)),
    ] {
        try_open(&rt, sample, opening);
    }
    try_slots(&rt, Sample::new(3, 4, 999999, 999999));
    try_slots(&rt, Sample::new(0, 0, 0, 0));
}

// Slots and direction at their limits, and lengths about what 64 slots need.
fn try_slots(rt: &impl Print, sample: Sample) {
    for opening in [
        Opening::new(0, 0, 22000),
        Opening::new(0, 1, 22000),
        Opening::new(1, 64, 22000),
        Opening::new(1, 65, 22000),
        Opening::new(2, 1, 22000),
        Opening::new(4294967295, 1, 22000),
        Opening::new(0, 64, 2012),
        Opening::new(0, 64, 2011),
        Opening::new(1, 64, 518),
        Opening::new(1, 64, 517),
        Opening::new(0, 1, 0),
    ] {
        try_open(rt, sample, opening);
    }
}

fn try_open(rt: &impl Print, sample: Sample, opening: Opening) {
    let mut space = [0u8; 60000];
    let text = put_sample(&mut space, sample);
    let mut words = [7u32; 24000];
    let lent = &mut words[..opening.lent];
    let opened = cache::open(lent, text, opening.direction, opening.slots);
    let _unwritten = print!(rt; "{sample} {opening} ");
    print_opened(rt, opened);
    let _unwritten = println!(rt; " {} {}", changed(&words), sum(&words));
}

fn print_opened(rt: &impl Print, opened: Result<(), Refused>) {
    let _unwritten = match opened {
        Ok(()) => print!(rt; "opened"),
        Err(Refused { refusal, line }) => print!(rt; "refused {} {line}", number(refusal)),
    };
}

// How many words stand before the last run of 7.
fn changed(words: &[u32]) -> usize {
    words
        .iter()
        .rposition(|word| *word != 7)
        .map_or(0, |i| i + 1)
}

fn sum(words: &[u32]) -> usize
    ensures { result < 4294967291 }
{
    let mut sum: usize = 0;
    for word in words {
        sum = (sum * 31 + *word as usize) % 4294967291;
    }
    sum
}

impl Sample {
    fn new(vertices: u32, edges: u32, initial: u32, cost: u32) -> Sample {
        Sample {
            vertices,
            edges,
            initial,
            cost,
        }
    }
}

impl fmt::Display for Sample {
    fn fmt<W: fmt::Write>(&self, f: &mut fmt::Formatter<W>) -> fmt::Result {
        let Sample {
            vertices,
            edges,
            initial,
            cost,
        } = self;
        write!(f, "{vertices} {edges} {initial} {cost}")
    }
}

impl Opening {
    fn new(direction: u32, slots: usize, lent: usize) -> Opening
        requires { lent ≤ 22000 }
    {
        Opening {
            direction,
            slots,
            lent,
        }
    }
}

impl fmt::Display for Opening {
    fn fmt<W: fmt::Write>(&self, f: &mut fmt::Formatter<W>) -> fmt::Result {
        let Opening {
            direction,
            slots,
            lent,
        } = self;
        write!(f, "{direction} {slots} {lent}")
    }
}

// ---- the text

// The part of the space that it fills.
fn put_sample<'a>(space: &'a mut [u8], sample: Sample) -> &'a [u8] {
    let at = put_vertices(space, sample);
    let end = put_edges(space, at, sample);
    &space[..end]
}

fn put_vertices(text: &mut [u8], sample: Sample) -> usize
    ensures { result ≤ length text.old }
{
    let mut at = 0;
    for v in 0..sample.vertices as usize {
        if text.len() < at + VERTEX {
            break;
        }
        at = put_vertex(text, at, v, sample.initial);
    }
    at
}

// Edge e leads from vertex 7e to vertex 3e, counted round.
fn put_edges(text: &mut [u8], start: usize, sample: Sample) -> usize
    requires { start ≤ length text.old }
    ensures { result ≤ length text.old }
{
    let vertices = sample.vertices as usize;
    let mut at = start;
    if vertices == 0 {
        return at;
    }
    for e in 0..sample.edges as usize {
        if text.len() < at + EDGE {
            break;
        }
        let from = 7 * e % vertices;
        let to = 3 * e % vertices;
        at = put_edge(text, at, from, to, sample.cost as usize);
    }
    at
}
