// The two kinds of line.
ghost use Rattle.std.specs.Prelude.{◌≡◌};
ghost use Rattle.text.specs.Lines.{vertex_of, edge_of, line_of, ended_line};

use crate::fields::{Field, Fields, read_lettered};

#[derive(Clone, Copy)]
pub enum Line {
    Vertex {
        number: usize,
        initial: Option<usize>,
    },
    Edge {
        from: usize,
        to: usize,
        cost: usize,
    },
}

// A line's bytes, of which the last must be LF.
pub fn read_ended(s: &[u8]) -> Option<Line>
    ensures { result ≡ ended_line s.now }
{
    let line = s.strip_suffix(b"\n")?;
    read_line(line)
}

// A line's bytes, without its LF. It may have no legal form.
#[tactic(auto, unfolding(crate::specs::Lines::line_of))]
pub fn read_line(s: &[u8]) -> Option<Line>
    ensures { result ≡ line_of s.now }
{
    let line = read_lettered(s)?;
    match line.letter {
        b'M' => vertex_line(line.fields),
        b'L' => edge_line(line.fields),
        _ => None,
    }
}

// The fields behind `M`.
fn vertex_line(f: Fields) -> Option<Line>
    ensures { result ≡ vertex_of f }
{
    if f.count != 2 {
        return None;
    }
    match f.values {
        [Field::Number(number), Field::Number(c), ..] => Some(Line::Vertex {
            number,
            initial: Some(c),
        }),
        [Field::Number(number), Field::Hyphen, ..] => Some(Line::Vertex {
            number,
            initial: None,
        }),
        _ => None,
    }
}

// The fields behind `L`.
fn edge_line(f: Fields) -> Option<Line>
    ensures { result ≡ edge_of f }
{
    if f.count != 3 {
        return None;
    }
    let [
        Field::Number(from),
        Field::Number(to),
        Field::Number(cost),
        ..
    ] = f.values
    else {
        return None;
    };
    Some(Line::Edge { from, to, cost })
}
