// The words of one direction, and the lines on them: a cache is opened in them, and they are looked at.
use crate::UNTOUCHED;
use crate::sum::sum;
use order_lines::orders::Form;
use script_lines::answers::Answer;
use script_lines::fields::Call;
use script_lines::names::Name;
use text::bytes::capped;
use text::fields::Field::Number;

pub const WORDS: usize = 16384;

// The first of the words are lent to the calls.
#[derive(Drop)]
pub struct Words {
    form: Form,
    pub words: [u32; WORDS],
    pub lent: usize,
}

impl Words {
    pub fn new(form: Form) -> Words {
        Words {
            form,
            words: [0; WORDS],
            lent: 0,
        }
    }

    pub fn lent(&mut self) -> &mut [u32] {
        &mut self.words[..self.lent.min(WORDS)]
    }

    // What a line answers, if it has a form.
    pub fn answer(&mut self, call: &Call<'_>, chart: &[u8]) -> Option<Answer<'_>> {
        match (call.name, call.fields()) {
            (Name::Book, [_, Number(slots), Number(lent)]) => {
                self.open(self.form as u32, *slots, *lent, chart)
            }
            (Name::As, [_, Number(direction), Number(slots), Number(lent)]) => {
                self.open(capped(*direction), *slots, *lent, chart)
            }
            (Name::Lend, [_, Number(lent)]) => self.lend(*lent),
            (Name::Poke, [_, Number(i), Number(value)]) => self.poke(*i, capped(*value)),
            // This answer alone keeps the words lent.
            (Name::Words, [_, Number(at), Number(count)]) => return Some(self.show(*at, *count)),
            (Name::Sum, [_]) => Some(Answer::Counted("sum", sum(self))),
            _ => None,
        }
    }

    // With so many words lent, where there are as many. A script may give any number as direction.
    fn open(
        &mut self,
        direction: u32,
        slots: usize,
        lent: usize,
        chart: &[u8],
    ) -> Option<Answer<'static>> {
        if WORDS < lent {
            return None;
        }
        self.words = [UNTOUCHED; WORDS];
        self.lent = lent;
        match cache::open(self.lent(), chart, direction, slots) {
            Ok(()) => Some(Answer::Done("opened")),
            Err(refused) => Some(Answer::RefusedAt(refused)),
        }
    }

    fn lend(&mut self, lent: usize) -> Option<Answer<'static>> {
        if WORDS < lent {
            return None;
        }
        self.lent = lent;
        Some(Answer::Counted("lent", lent))
    }

    fn poke(&mut self, i: usize, value: u32) -> Option<Answer<'static>> {
        *self.words.get_mut(i)? = value;
        Some(Answer::Done("poked"))
    }

    // So many words from a place on, or as many as there are.
    fn show(&self, at: usize, count: usize) -> Answer<'_> {
        let words = &self.words[at.min(WORDS)..];
        Answer::Words("words", &words[..count.min(words.len())])
    }
}
