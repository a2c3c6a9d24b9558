// A search record in words that a board lends, for callers that have no struct of its shape: one encoding, read and written here alone.

#![tactic(auto)]

ghost use Rattle.std.specs.Prelude.{◌≡◌, [], ◌∷◌, map, ◌+◌, ◌≤◌, length, take, drop};
ghost use Rattle.std.specs.Bool.{then_some};
ghost use Rattle.std.proofs.lemmas.List.Edits.{sets};
ghost use Rattle.model.specs.Limits.{list_limit};
ghost use Rattle.model.specs.Lists.{numbers, upto};
ghost use Rattle.search_words.specs.Record.{best_at, goals_at, entries_at, entry_at, entry_size, record_words, option_words, best_words, entry_words, entries_words, option_of, best_of, entry_in, tagb, optionb, bestb, entryb, is_record, decode as Record·decode, Encodes};

use model::limits::MAX_ENTRIES;
use model::{BestSolution, Search, TreeMemory};
use std::array;

// Where each word stands; specs/Record.antt has the same numbers.
const ENTRY_COUNT: usize = 1;

const GOAL_COUNT: usize = 2;

const BEST: usize = 3;

const GOALS: usize = 6;

const ENTRIES: usize = 70;

const ENTRY: usize = 5;

// The words of a record.
pub const RECORD_WORDS: usize = 390;

// The record in front of the words, if they begin with one.
pub fn read_record(words: &[u32]) -> Option<Search>
    ensures { result ≡ then_some (is_record words.now) (Record·decode words.now) }
{
    is_record(words).then(|| decode(words))
}

// Whether the words begin with a record.
pub fn is_record(words: &[u32]) -> bool
    ensures { result ≡ is_record words.now }
{
    if words.len() < RECORD_WORDS {
        return false;
    }
    if 1 < words[0] {
        return false;
    }
    if !is_best(words[BEST], words[BEST + 1], words[BEST + 2]) {
        return false;
    }
    are_entries(words)
}

fn is_best(tag: u32, entry: u32, node: u32) -> bool
    ensures { result ≡ bestb tag entry node }
{
    is_tag(tag, entry == 0 && node == 0)
}

fn are_entries(words: &[u32]) -> bool
    requires { record_words ≤ length words.now }
    ensures { result ≡ upto (entryb words.now) list_limit }
{
    (0..MAX_ENTRIES).all(|i| is_entry(words, i))
}

fn is_entry(words: &[u32], i: usize) -> bool
    requires { entry_at i + entry_size ≤ length words.now }
    ensures { result ≡ entryb words.now i }
{
    let at = ENTRIES + ENTRY * i;
    is_option(words[at + 1], words[at + 2]) && is_option(words[at + 3], words[at + 4])
}

fn is_option(tag: u32, number: u32) -> bool
    ensures { result ≡ optionb tag number }
{
    is_tag(tag, number == 0)
}

// Where the tag is 0 all numbers after it are.
fn is_tag(tag: u32, zeros: bool) -> bool
    ensures { result ≡ tagb tag zeros }
{
    if tag == 0 {
        return zeros;
    }
    tag == 1
}

// The record in front of the words.
pub fn decode(words: &[u32]) -> Search
    requires { record_words ≤ length words.now }
    ensures { result ≡ Record·decode words.now }
{
    Search {
        trees: decode_entries(words),
        tree_count: words[ENTRY_COUNT],
        goal_keys: decode_goals(words),
        goal_count: words[GOAL_COUNT],
        best_solution: best_of(words[BEST], words[BEST + 1], words[BEST + 2]),
        exhausted: words[0] != 0,
    }
}

fn best_of(tag: u32, entry: u32, node: u32) -> Option<BestSolution>
    ensures { result ≡ best_of tag entry node }
{
    (tag != 0).then_some(BestSolution { entry, node })
}

fn decode_goals(words: &[u32]) -> [u32; MAX_ENTRIES]
    requires { record_words ≤ length words.now }
    ensures { result ≡ take list_limit (drop goals_at words.now) }
{
    let mut goals = [0; MAX_ENTRIES];
    goals.copy_from_slice(&words[GOALS..GOALS + MAX_ENTRIES]);
    goals
}

fn decode_entries(words: &[u32]) -> [TreeMemory; MAX_ENTRIES]
    requires { record_words ≤ length words.now }
    ensures { result ≡ map (entry_in words.now) (numbers list_limit) }
{
    array::from_fn(|i| decode_entry(words, i))
}

fn decode_entry(words: &[u32], i: usize) -> TreeMemory
    requires { entry_at i + entry_size ≤ length words.now }
    ensures { result ≡ entry_in words.now i }
{
    let at = ENTRIES + ENTRY * i;
    TreeMemory {
        tree: words[at],
        last_known_closed_len: option_of(words[at + 1], words[at + 2]),
        solution: option_of(words[at + 3], words[at + 4]),
    }
}

fn option_of(tag: u32, number: u32) -> Option<u32>
    ensures { result ≡ option_of tag number }
{
    (tag != 0).then_some(number)
}

// Writes the record in front of the words; words past it stay.
pub fn encode(search: Search, words: &mut [u32])
    requires { record_words ≤ length words.old }
    ensures { Encodes search words.old words.new }
{
    words[0] = search.exhausted as u32;
    words[ENTRY_COUNT] = search.tree_count;
    words[GOAL_COUNT] = search.goal_count;
    encode_best(search.best_solution, words);
    encode_goals(search.goal_keys, words);
    encode_entries(search.trees, words);
}

fn encode_best(best: Option<BestSolution>, words: &mut [u32])
    requires { goals_at ≤ length words.old }
    ensures { words.new ≡ sets words.old best_at (best_words best) }
{
    let (tag, entry, node) = match best {
        None => (0, 0, 0),
        Some(b) => (1, b.entry, b.node),
    };
    words[BEST] = tag;
    words[BEST + 1] = entry;
    words[BEST + 2] = node;
}

fn encode_goals(goals: [u32; MAX_ENTRIES], words: &mut [u32])
    requires { entries_at ≤ length words.old }
    ensures { words.new ≡ sets words.old goals_at goals }
{
    words[GOALS..GOALS + MAX_ENTRIES].copy_from_slice(&goals);
}

fn encode_entries(trees: [TreeMemory; MAX_ENTRIES], words: &mut [u32])
    requires { record_words ≤ length words.old }
    ensures { words.new ≡ sets words.old entries_at (entries_words trees) }
{
    for (i, memory) in trees.iter().enumerate() {
        encode_entry(*memory, words, ENTRIES + ENTRY * i);
    }
}

fn encode_entry(memory: TreeMemory, words: &mut [u32], at: usize)
    requires { at + entry_size ≤ length words.old }
    ensures { words.new ≡ sets words.old at (entry_words memory) }
{
    words[at] = memory.tree;
    encode_option(memory.last_known_closed_len, words, at + 1);
    encode_option(memory.solution, words, at + 3);
}

fn encode_option(number: Option<u32>, words: &mut [u32], at: usize)
    requires { at + 2 ≤ length words.old }
    ensures { words.new ≡ sets words.old at (option_words number) }
{
    words[at] = number.is_some() as u32;
    words[at + 1] = number.unwrap_or(0);
}
