// A sound cache, damaged word by word, and its trees grown: 01's chart, forward, three slots, a tree at vertex 0 after one ticket
// and a new tree at vertex 1. A line for each word says what the check finds when the word is 0, 1, one more, and 4294967295.
// Then a line for each growing: tickets, and the goal's node if one was found.

#![tactic(auto)]

ghost use Rattle.std.specs.Prelude.{◌<◌};

const WORDS: usize = 107;

// A digit for each word, and `-` for 4294967295.
const DIGITS: [u8; WORDS] =
    *b"0433205--0141230290233302103200--1400290200001200100011115--00000000000000000000000000000000000000000000000";

// What cannot be written is passed over.
fn main(rt: HostRuntime) {
    let words = DIGITS.map(word_of);
    try_words(&rt, words);
    for (slot, goal, bound) in [
        (0, 4, None),
        (0, 2, None),
        (0, 4, Some(3)),
        (0, 4, Some(4)),
        (1, 2, None),
        (2, 2, None),
    ] {
        try_grow(&rt, words, slot, goal, bound);
    }
}

fn word_of(digit: u8) -> u32 {
    match digit {
        b'0'..=b'9' => u32::from(digit - b'0'),
        _ => u32::MAX,
    }
}

fn try_words(rt: &impl Print, words: [u32; WORDS]) {
    for (i, word) in words.iter().enumerate() {
        let zero = check(words, i, 0);
        let one = check(words, i, 1);
        let more = check(words, i, word.wrapping_add(1));
        let most = check(words, i, u32::MAX);
        let _unwritten = println!(rt; "{i} {zero} {one} {more} {most}");
    }
}

// What the check finds when one word is another.
fn check(mut words: [u32; WORDS], i: usize, word: u32) -> &'static str
    requires { i < 107 }
{
    words[i] = word;
    if sound::is_sound(&words) {
        "sound"
    } else {
        "not"
    }
}

// Growing may be asked for on sound words and a slot in use only.
fn try_grow(rt: &impl Print, mut words: [u32; WORDS], slot: usize, goal: u32, bound: Option<u64>) {
    if !sound::is_sound(&words) {
        let _unwritten = println!(rt; "not sound");
        return;
    }
    if layout::header(&words, layout::TREES) <= slot {
        let _unwritten = println!(rt; "not grown");
        return;
    }
    let grown = grow::grow(&mut words, slot, &[goal], bound);
    let _unwritten = match grown.solution {
        Some(node) => println!(rt; "{} {node}", grown.tickets),
        None => println!(rt; "{} -", grown.tickets),
    };
}
