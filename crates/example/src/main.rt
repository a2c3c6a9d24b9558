// The calls as a controller makes them: a cache is opened from a chart, searches are opened on it, each is stepped once between two picks,
// and its path is shown.

#![tactic(auto)]

use model::{SearchStatus, Stepped, number};

// 4 vertices, 3 edges and 2 tree slots: 6 + 2 × 4 + 4 × 3 + 2 × (8 + 5 × 3 + 4) words.
const WORDS: usize = 80;

// A search with one tree on 3 edges waits at most 1 + 1 × (1 + 3) times, and then answers.
const STEPS: u32 = 6;

// A path among 4 vertices has at most 3 moves, in 1 + 2 × 3 words.
const MOVES: usize = 3;

const PATH: usize = 1 + 2 * MOVES;

// What cannot be written is passed over.
fn main(rt: HostRuntime) {
    let chart = b"M,0,0\nM,1,5\nM,2,-\nM,3,-\nL,0,1,4\nL,1,2,3\nL,0,2,9\n";
    let mut words = [0u32; WORDS];
    if let Err(refused) = cache::open(&mut words, chart, 0, 2) {
        let _unwritten = println!(rt; "chart refused {}", number(refused.refusal));
        return;
    }
    search(&rt, &mut words, 0, 2);
    search(&rt, &mut words, 1, 3);
    search(&rt, &mut words, 1, 4);
}

// One search, from a start to a goal, to its end.
fn search(rt: &impl Print, words: &mut [u32], start: u32, goal: u32) {
    let mut search = match dijkstra::initialize(words, &[start], &[goal]) {
        Ok(search) => search,
        Err(refusal) => {
            let _unwritten = println!(rt; "search refused {}", number(refusal));
            return;
        }
    };
    for _ in 0..STEPS {
        let stepped = dijkstra::step(words, search);
        search = stepped.search;
        say(rt, stepped);
        if stepped.answer != Ok(SearchStatus::Incomplete) {
            break;
        }
    }
    let mut path = [0u32; PATH];
    if let Ok(moves) = dijkstra::retrace(words, search, &mut path)
        && moves <= MOVES
    {
        show(rt, &path[..1 + 2 * moves]);
    }
}

// Says how the search stands after a step.
fn say(rt: &impl Print, stepped: Stepped) {
    let tickets = stepped.tickets;
    let _unwritten = match stepped.answer {
        Ok(SearchStatus::Incomplete) => println!(rt; "waiting, tickets {tickets}"),
        Ok(SearchStatus::Solved { total_cost, .. }) => println!(rt; "solved, total {total_cost}"),
        Ok(SearchStatus::Impossible) => println!(rt; "no path, tickets {tickets}"),
        Err(refusal) => println!(rt; "step refused {}", number(refusal)),
    };
}

// The path's words: first vertex, then edge and vertex for each move.
fn show(rt: &impl Print, path: &[u32]) {
    for word in path {
        let _unwritten = println!(rt; "path {word}");
    }
}
