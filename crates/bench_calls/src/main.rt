// One kind of call made many times, for bench/: `laps SLOTS FILL STARTS GOALS CALL COUNT`, with a chart on standard input. A forward
// cache is opened, a search from each vertex of FILL to the goals is solved, and then one from the starts; CALL is made COUNT times
// on the words left, each time with that search as it was opened. Prints a sum of what was answered.

#![tactic(auto)]

use model::Search;
use order_lines::orders::{Numbers, empty_list, read_list};
use planner::{MAX_STEPS, solve};
use std::env::Env;
use text::bytes::read_number;

// The words that caches are opened in, and one past them, which the check alone is lent.
const LENT: usize = 65536;

const WORDS: usize = LENT + 1;

// The longest argument.
const ARGUMENT: usize = 4096;

// What cannot be written is passed over.
fn main(rt: HostRuntime) {
    let mut chart = io::large_buffer();
    let n = io::read_full(0, &mut chart);
    let mut words = [0u32; WORDS];
    let _unwritten = match cache::open(&mut words[..LENT], &chart[..n], 0, number(&rt, 1)) {
        Ok(()) => println!(rt; "{}", run(&rt, &mut words)),
        Err(_) => println!(rt; "refused"),
    };
}

// All but the last word are those of an opened cache. The call is `c`, which checks the words, or one of those below.
fn run(rt: &impl Env, words: &mut [u32; WORDS]) -> u64 {
    let goals = list(rt, 4);
    fill(&mut words[..LENT], &list(rt, 2), &goals);
    let search = opened(&mut words[..LENT], &list(rt, 3), &goals);
    solve(&mut words[..LENT], search, MAX_STEPS);
    let count = number(rt, 6);
    match letter(rt, 5) {
        b'c' => checked(words, count),
        call => called(&mut words[..LENT], search, call, count),
    }
}

fn checked(words: &mut [u32], count: usize) -> u64 {
    repeated(count, || {
        touch(words);
        u64::from(sound::is_sound(words))
    })
}

// Changes the last word, which no cache reaches: a check of the same words would be made once and not repeated.
fn touch(words: &mut [u32]) {
    if let Some(last) = words.last_mut() {
        *last = last.wrapping_add(1);
    }
}

// The call is `v`, which solves the search, `s`, which steps it once, or anything else, which adds the words up.
fn called(words: &mut [u32], search: Search, call: u8, count: usize) -> u64 {
    match call {
        b'v' => repeated(count, || solve(words, search, MAX_STEPS).waits as u64),
        b's' => repeated(count, || dijkstra::step(words, search).tickets as u64),
        _ => repeated(count, || u64::from(plain_sum(words))),
    }
}

// A search from each vertex.
fn fill(words: &mut [u32], starts: &[u32], goals: &[u32]) {
    for start in starts {
        let search = opened(words, &[*start], goals);
        solve(words, search, MAX_STEPS);
    }
}

// A search as it is opened; a refused one is empty.
fn opened(words: &mut [u32], starts: &[u32], goals: &[u32]) -> Search {
    dijkstra::opened_search(dijkstra::initialize(words, starts, goals))
}

fn repeated<Call: FnMut() -> u64>(count: usize, mut call: Call) -> u64
    requires { (f : _) → Call.pre f }
{
    let mut sum: u64 = 0;
    for _ in 0..count {
        sum = sum.wrapping_add(call());
    }
    sum
}

// What a pass over the words costs at the least.
fn plain_sum(words: &[u32]) -> u32 {
    words.iter().fold(0u32, |sum, word| sum.wrapping_add(*word))
}

// An argument as a list, as a number, and its first byte.
fn list(rt: &impl Env, i: usize) -> Numbers {
    let mut buffer = [0; ARGUMENT];
    read_list(argument(rt, i, &mut buffer), b' ').unwrap_or(empty_list())
}

fn number(rt: &impl Env, i: usize) -> usize {
    let mut buffer = [0; ARGUMENT];
    read_number(argument(rt, i, &mut buffer)).unwrap_or(0)
}

fn letter(rt: &impl Env, i: usize) -> u8 {
    let mut buffer = [0; ARGUMENT];
    argument(rt, i, &mut buffer);
    buffer[0]
}

// An argument's bytes, in the buffer lent: none if it is missing or too long.
fn argument<'a>(rt: &impl Env, i: usize, buffer: &'a mut [u8]) -> &'a [u8] {
    match rt.arg(i, buffer) {
        Ok(n) => &buffer[..n],
        Err(_) => &[],
    }
}
