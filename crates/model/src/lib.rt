// The types that cross crates. What they mean stands in specs/: a definition gives each refusal and each status
// document 01's number and values, and the promises of the calls use that definition.
// Ported from open-rmf/mapf (mapf/src: algorithm/dijkstra/forward.rs) and changed; Apache License 2.0, see NOTICE.

#![tactic(auto)]

pub mod limits;

ghost use Rattle.std.specs.Prelude.{◌≡◌, ◌<◌};
ghost use Rattle.model.specs.Limits.{list_limit};
ghost use Rattle.model.specs.Answers.{number as refusal_number};
ghost use Rattle.model.specs.Search.{entry_of, empty_search, with_entry, with_goal, with_find, with_known_len, with_exhausted};

use crate::limits::MAX_ENTRIES;

// Returned instead of an answer; specs/Answers.antt numbers them.
#[derive(Clone, Copy, PartialEq, Eq, Debug)]
pub enum Refusal {
    Malformed = 1,
    OutOfOrder,
    NoSuchVertex,
    OverLimit,
    ShortCache,
    TreesFull,
    Unsound,
    InvalidSearch,
    NotSolved,
    ShortPath,
}

// 01's numbers. A function with the name that the definitions and docs/CLAIMS.md have, and no `From`: each caller prints it or hands it to C.
pub fn number(refusal: Refusal) -> u32
    ensures { result ≡ refusal_number refusal }
{
    refusal as u32
}

// A refusal of a text, with the line at fault, 0 where none is.
#[derive(Clone, Copy)]
pub struct Refused {
    pub refusal: Refusal,
    pub line: usize,
}

// A refusal that no line of a text is at fault for.
impl From<Refusal> for Refused {
    ghost from_gives = { λ f r. r ≡ record { refusal = f; line = 0 } };

    fn from(refusal: Refusal) -> Refused {
        Refused { refusal, line: 0 }
    }
}

// The best solution: the entry that found it, and its node. The Rust keeps the entry and the cost.
#[derive(Clone, Copy)]
pub struct BestSolution {
    pub entry: u32,
    pub node: u32,
}

// One entry of a search: the slot of its tree, and what the search knows of that tree. A solution is the node that closed a goal; the
// Rust keeps the whole path.
#[derive(Clone, Copy)]
pub struct TreeMemory {
    pub tree: u32,
    pub last_known_closed_len: Option<u32>,
    pub solution: Option<u32>,
}

impl TreeMemory {
    // An entry of the tree in a slot, of which nothing is known.
    pub fn new(tree: u32) -> TreeMemory
        ensures { result ≡ entry_of tree }
    {
        TreeMemory {
            tree,
            last_known_closed_len: None,
            solution: None,
        }
    }
}

// The Rust's `Memory`; 01 calls it the search record. Its numbers have 32 bits each, for it goes by value. Counts stand beside arrays, as C
// keeps them: a record whose counts pass its arrays comes from outside, and is refused 8.
#[derive(Clone, Copy)]
pub struct Search {
    pub trees: [TreeMemory; MAX_ENTRIES],
    pub tree_count: u32,
    pub goal_keys: [u32; MAX_ENTRIES],
    pub goal_count: u32,
    pub best_solution: Option<BestSolution>,
    pub exhausted: bool,
}

// A search goes in by value and comes back changed.
impl Search {
    // No entries, no goals, nothing held, not finished.
    pub fn empty() -> Search
        ensures { result ≡ empty_search }
    {
        Search {
            trees: [TreeMemory::new(0); MAX_ENTRIES],
            tree_count: 0,
            goal_keys: [0; MAX_ENTRIES],
            goal_count: 0,
            best_solution: None,
            exhausted: false,
        }
    }

    // One entry more, of the tree in a slot.
    pub fn with_entry(mut self, tree: u32) -> Search
        requires { self.tree_count < list_limit }
        ensures { result ≡ with_entry self tree }
    {
        let count = self.tree_count;
        self.trees[count as usize] = TreeMemory::new(tree);
        self.tree_count = count + 1;
        self
    }

    // One goal more.
    pub fn with_goal(mut self, vertex: u32) -> Search
        requires { self.goal_count < list_limit }
        ensures { result ≡ with_goal self vertex }
    {
        let count = self.goal_count;
        self.goal_keys[count as usize] = vertex;
        self.goal_count = count + 1;
        self
    }

    // A find, which the entry holds from now on, and which may be the best.
    pub fn with_find(mut self, entry: u32, node: u32, is_best: bool) -> Search
        requires { entry < list_limit }
        ensures { result ≡ with_find self entry node is_best }
    {
        self.trees[entry as usize].solution = Some(node);
        if is_best {
            self.best_solution = Some(BestSolution { entry, node });
        }
        self
    }

    // A closed count remembered by an entry.
    pub fn with_known_len(mut self, entry: u32, len: u32) -> Search
        requires { entry < list_limit }
        ensures { result ≡ with_known_len self entry len }
    {
        self.trees[entry as usize].last_known_closed_len = Some(len);
        self
    }

    // The finished mark.
    pub fn with_exhausted(mut self, exhausted: bool) -> Search
        ensures { result ≡ with_exhausted self exhausted }
    {
        self.exhausted = exhausted;
        self
    }
}

#[derive(Clone, Copy, PartialEq, Eq)]
pub enum SearchStatus {
    Incomplete,
    Solved { total_cost: u32, moves: usize },
    Impossible,
}

// What a step came to. The search went in by value, and comes back beside the answer.
#[derive(Clone, Copy)]
pub struct Stepped {
    pub answer: Result<SearchStatus, Refusal>,
    pub tickets: usize,
    pub search: Search,
}

// What some steps came to: the answer of the last, how many waited, the tickets of all, and the search.
#[derive(Clone, Copy)]
pub struct StepsTaken {
    pub answer: Result<SearchStatus, Refusal>,
    pub waits: usize,
    pub tickets: usize,
    pub search: Search,
}

// What a whole search came to: its answer, whether its path was written, how many steps waited, the tickets of all, and the record.
#[derive(Clone, Copy)]
pub struct Planned {
    pub answer: Result<SearchStatus, Refusal>,
    pub has_path: bool,
    pub waits: usize,
    pub tickets: usize,
    pub search: Search,
}
