// The lines of a drawing, each put from a place on.
ghost use Rattle.std.specs.Prelude.{◌≡◌, ◌+◌, ◌≤◌, length};
ghost use Rattle.put_text.specs.Puts.{Puts};
ghost use Rattle.drawing.specs.Drawing.{numbered, line_end, initial_label, vertex_line, edge_line};

use layout::Edge;
use put_text::{put_bytes, put_word};

pub fn put_vertex_line(
    out: &mut [u8],
    at: usize,
    vertex: u32,
    initial: Option<u32>,
    bold: bool,
) -> usize
    requires { at + 66 ≤ length out.old }
    ensures { Puts out.old at (vertex_line vertex initial bold) result out.new }
{
    let a = put_numbered(out, at, b"  ", vertex);
    let b = put_numbered(out, a, b" [label=\"", vertex);
    let c = put_initial_label(out, b, initial);
    put_bytes(out, c, line_end(bold))
}

pub fn put_edge_line(out: &mut [u8], at: usize, edge: Edge, bold: bool) -> usize
    requires { at + 66 ≤ length out.old }
    ensures { Puts out.old at (edge_line edge.from edge.to edge.cost bold) result out.new }
{
    let a = put_numbered(out, at, b"  ", edge.from);
    let b = put_numbered(out, a, b" -> ", edge.to);
    let c = put_numbered(out, b, b" [label=\"", edge.cost);
    put_bytes(out, c, line_end(bold))
}

// A text and a number.
fn put_numbered(out: &mut [u8], at: usize, text: &[u8], word: u32) -> usize
    requires { at + length text.now + 10 ≤ length out.old }
    ensures { Puts out.old at (numbered text.now word) result out.new }
{
    let a = put_bytes(out, at, text);
    put_word(out, a, word)
}

// Nothing for a vertex that has no initial cost.
fn put_initial_label(out: &mut [u8], at: usize, initial: Option<u32>) -> usize
    requires { at + 18 ≤ length out.old }
    ensures { Puts out.old at (initial_label initial) result out.new }
{
    let Some(cost) = initial else {
        return at;
    };
    put_numbered(out, at, b"\\nstart ", cost)
}

fn line_end(bold: bool) -> &'static [u8]
    ensures { result.now ≡ line_end bold }
{
    if bold {
        b"\", style=bold];\n"
    } else {
        b"\"];\n"
    }
}
