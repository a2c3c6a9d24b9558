// An order is `F` or `B`, starts, goals; the lists are parted by single spaces, numbers as in a graph's text.
ghost use Rattle.std.specs.Prelude.{◌≡◌, []};
ghost use Rattle.order_lines.specs.Orders.{order_of, list_of, numbers_in, form_of, Pushed};

pub use crate::numbers::Numbers;
use model::limits::MAX_ENTRIES;
use text::bytes::{capped, read_number};

// The longest list that can be told from one of 64.
pub const MAX_LIST: usize = 1 + MAX_ENTRIES;

#[derive(Clone, Copy)]
pub enum Form {
    Forward,
    Backward,
}

#[derive(Clone, Copy)]
pub struct Order {
    pub form: Form,
    pub starts: Numbers,
    pub goals: Numbers,
}

// An order's line, without its LF. It may be no order.
pub fn read_order(line: &[u8]) -> Option<Order>
    ensures { result ≡ order_of line.now }
{
    let mut fields = line.split(|b| *b == b',');
    let (Some(form), Some(starts), Some(goals), None) = (
        fields.next(),
        fields.next(),
        fields.next(),
        fields.next(),
    ) else {
        return None;
    };
    Some(Order {
        form: read_letter(form)?,
        starts: read_list(starts, b' ')?,
        goals: read_list(goals, b' ')?,
    })
}

// The first field: `F` or `B`.
pub fn read_letter(field: &[u8]) -> Option<Form>
    ensures { result ≡ form_of field.now }
{
    match field {
        [b'F'] => Some(Form::Forward),
        [b'B'] => Some(Form::Backward),
        _ => None,
    }
}

// Numbers parted by one byte, or nothing.
pub fn read_list(field: &[u8], b: u8) -> Option<Numbers>
    ensures { result ≡ list_of b field.now }
{
    let mut list = empty_list();
    if field.is_empty() {
        return Some(list);
    }
    for number in field.split(|x| *x == b) {
        list.push(read_number(number)?);
    }
    Some(list)
}

pub fn empty_list() -> Numbers
    ensures { result ≡ numbers_in [] }
{
    Numbers {
        numbers: [0; MAX_LIST],
        count: 0,
    }
}

impl Numbers {
    // One number more, if it is still kept.
    fn push(&mut self, n: usize)
        ensures { Pushed self.old n self.new }
    {
        let fits = self.count < MAX_LIST;
        if fits {
            self.numbers[self.count] = capped(n);
            self.count += 1;
        }
    }
}
