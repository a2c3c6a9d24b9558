// A line: its name, the direction that it is about, and the fields behind its name, which are parted by spaces.
use crate::names::{Name, read_name};
use order_lines::orders::{Form, Numbers, empty_list, read_letter, read_list};
use text::fields::{Field, Fields, read_fields};

// The longest list.
const MAX_NUMBERS: usize = 128;

// The direction, which is no number, is the first of the fields.
#[derive(Clone, Copy)]
pub struct Call<'a> {
    line: &'a [u8],
    pub name: Name,
    pub form: Option<Form>,
    fields: Fields,
}

// A line without its LF. It may have none of the names.
pub fn read_call(line: &[u8]) -> Option<Call<'_>> {
    let (name, rest) = match line.iter().position(|b| *b == b' ') {
        Some(k) => (&line[..k], &line[k + 1..]),
        None => (line, &line[line.len()..]),
    };
    Some(Call {
        line,
        name: read_name(name)?,
        form: line.split(|b| *b == b' ').nth(1).and_then(read_letter),
        fields: read_fields(rest, b' '),
    })
}

impl Call<'_> {
    // The fields behind the name; none where they are more than any form has.
    pub fn fields(&self) -> &[Field] {
        self.fields.values.get(..self.fields.count).unwrap_or(&[])
    }

    // Field i of the line, its name being field 0, as a list: `-`, or at most 128 numbers parted by commas.
    pub fn numbers(&self, i: usize) -> Option<Numbers> {
        let field = self.line.split(|b| *b == b' ').nth(i)?;
        match field {
            [] => None,
            [b'-'] => Some(empty_list()),
            _ if MAX_NUMBERS < field.split(|b| *b == b',').count() => None,
            _ => read_list(field, b','),
        }
    }
}
