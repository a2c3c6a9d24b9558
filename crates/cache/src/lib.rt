// A cache: the words that a board lends for one direction's graph and trees.

#![tactic(auto)]

ghost use Rattle.std.specs.Prelude.{◌≡◌, ◌∷◌, [], ◌++◌, ◌≤◌, length, drop, replicate};
ghost use Rattle.model.specs.Limits.{slot_limit};
ghost use Rattle.model.specs.Answers.{answered};
ghost use Rattle.text.specs.Read.{graph_of};
ghost use Rattle.layout.specs.Layout.{header_words};
ghost use Rattle.cache.specs.Open.{Opening, after_open, open_read, CanOpen};

use layout::GraphSize;
use model::limits::MAX_SLOTS;
use model::{Refusal, Refused};
use text::counts::{Counts, judge_text};

// Makes a cache of a graph's text in the words lent: direction 0 forward or 1 backward, 1 to 64 tree slots. The whole text is
// judged before a word is written; words past those needed stay. The direction is the word that C passes and the header keeps: another
// one is refused, which a type of two cases could not be.
pub fn open(words: &mut [u32], text: &[u8], direction: u32, slots: usize) -> Result<(), Refused>
    ensures { Opening words.old text.now direction slots result words.new }
{
    if 1 < direction || slots == 0 || MAX_SLOTS < slots {
        return Err(Refused::from(Refusal::OverLimit));
    }
    let counts = judge_text(text)?;
    open_sized(words, text, direction, slots, counts)
}

// The text was judged: it has no fault. The direction is a word still, which the header is to keep.
fn open_sized(
    words: &mut [u32],
    text: &[u8],
    direction: u32,
    slots: usize,
    counts: Counts,
) -> Result<(), Refused>
    requires { CanOpen text.now direction slots counts }
    ensures { after_open result words.new ≡ open_read (answered (graph_of text.now)) words.old direction slots }
{
    let size = GraphSize {
        vertices: counts.vertices,
        edges: counts.edges,
    };
    let needed = size.words_needed(slots);
    if words.len() < needed {
        return Err(Refused::from(Refusal::ShortCache));
    }
    write_header(words, direction, size, slots);
    graph::simple::write(words, text, direction, counts);
    let trees = size.slots_at();
    words[trees..needed].fill(0);
    Ok(())
}

fn write_header(words: &mut [u32], direction: u32, size: GraphSize, slots: usize)
    requires { (header_words ≤ length words.old) × (slots ≤ slot_limit) }
    ensures { words.new ≡ (direction ∷ size.vertices ∷ size.edges ∷ slots ∷ 0 ∷ []) ++ drop header_words words.old }
{
    words[layout::DIRECTION] = direction;
    words[layout::VERTICES] = size.vertices as u32;
    words[layout::EDGES] = size.edges as u32;
    words[layout::SLOTS] = slots as u32;
    words[layout::TREES] = 0;
}
