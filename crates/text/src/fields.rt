// The fields of a line, of which each is a number or a hyphen.
ghost use Rattle.std.specs.Prelude.{◌≡◌, ◌<◌};
ghost use Rattle.text.specs.Fields.{value_of, no_fields, with_field, fields_of, lettered_of};

use crate::bytes::read_number;

// No line has a form with more fields behind its letter.
const MAX_FIELDS: usize = 5;

// A number has at most ten digits.
#[derive(Clone, Copy, PartialEq, Eq)]
pub enum Field {
    Number(usize),
    Hyphen,
    Other,
}

// How many fields there are, and what the first five say: the count may pass the array, so the two are no list.
#[derive(Clone, Copy)]
pub struct Fields {
    pub count: usize,
    pub values: [Field; MAX_FIELDS],
}

// A line's letter and the fields behind it.
#[derive(Clone, Copy)]
pub struct Lettered {
    pub letter: u8,
    pub fields: Fields,
}

// A line's bytes, without its LF. It may not begin with a letter and a comma.
#[tactic(auto, unfolding(crate::specs::Fields::lettered_of))]
pub fn read_lettered(s: &[u8]) -> Option<Lettered>
    ensures { result ≡ lettered_of s.now }
{
    let [letter, b',', fields @ ..] = s else {
        return None;
    };
    Some(Lettered {
        letter: *letter,
        fields: read_fields(fields, b','),
    })
}

// The fields of a text that are parted by one byte.
pub fn read_fields(s: &[u8], b: u8) -> Fields
    ensures { result ≡ fields_of b s.now }
{
    let mut fields = no_fields();
    for field in s.split(|x| *x == b) {
        fields = fields.with(read_field(field));
    }
    fields
}

fn no_fields() -> Fields
    ensures { result ≡ no_fields }
{
    Fields {
        count: 0,
        values: [Field::Other; MAX_FIELDS],
    }
}

#[tactic(auto, unfolding(crate::specs::Fields::value_of))]
fn read_field(s: &[u8]) -> Field
    ensures { result ≡ value_of s.now }
{
    if let [b'-'] = s {
        return Field::Hyphen;
    }
    read_number(s).map_or(Field::Other, Field::Number)
}

impl Fields {
    // These and one more.
    fn with(self, value: Field) -> Fields
        requires { self.count < 18446744073709551615 }
        ensures { result ≡ with_field self value }
    {
        let mut next = self;
        let i = next.count;
        if i < MAX_FIELDS {
            next.values[i] = value;
        }
        next.count = i + 1;
        next
    }
}
