// Text put into bytes that are lent: bytes, numbers and the lines of a graph, each from a place on. Every function answers where its
// text ends, and leaves all other bytes as they were. No `fmt::Write`: definitions say each byte, room is asked for, and so nothing fails. The
// bytes and the place stay two parameters: a struct of them would hold a `&mut` and be taken apart in each function.

#![tactic(auto)]

ghost use Rattle.std.specs.Prelude.{◌≡◌, [], ◌∷◌, ◌++◌, ◌+◌, ◌<◌, ◌≤◌, length};
ghost use Rattle.text.specs.Bytes.{comma};
ghost use Rattle.text.specs.Print.{decimal, vertex_text, edge_text};
ghost use Rattle.put_text.specs.Puts.{Puts, Written, initial_text};

use itoa::Buffer;
use layout::ABSENT;

pub fn put_byte(out: &mut [u8], at: usize, b: u8) -> usize
    requires { at < length out.old }
    ensures { Puts out.old at (b ∷ []) result out.new }
{
    out[at] = b;
    at + 1
}

pub fn put_bytes(out: &mut [u8], at: usize, text: &[u8]) -> usize
    requires { at + length text.now ≤ length out.old }
    ensures { Puts out.old at text.now result out.new }
{
    let end = at + text.len();
    out[at..end].copy_from_slice(text);
    end
}

// A number of at most ten digits.
#[tactic(auto, using(crate::proofs::Decimals::written_decimal))]
pub fn put_decimal(out: &mut [u8], at: usize, n: usize) -> usize
    requires { (n < 10000000000) × (at + length (decimal n) ≤ length out.old) }
    ensures { Puts out.old at (decimal n) result out.new }
{
    let mut buffer = Buffer::new();
    put_bytes(out, at, buffer.format(n).as_bytes())
}

pub fn put_word(out: &mut [u8], at: usize, word: u32) -> usize
    requires { at + length (decimal word) ≤ length out.old }
    ensures { Puts out.old at (decimal word) result out.new }
{
    put_decimal(out, at, word as usize)
}

// A number and a comma.
pub fn put_field(out: &mut [u8], at: usize, n: usize) -> usize
    requires { (n < 10000000000) × (at + length (decimal n) < length out.old) }
    ensures { Puts out.old at (decimal n ++ (comma ∷ [])) result out.new }
{
    let a = put_decimal(out, at, n);
    put_byte(out, a, b',')
}

// The line of a vertex, of which an initial cost of 4294967295 is a hyphen.
#[tactic(auto, using(crate::proofs::GraphLines::field_length, crate::proofs::GraphLines::vertex_length))]
pub fn put_vertex(out: &mut [u8], at: usize, vertex: usize, initial: u32) -> usize
    requires { (vertex < 10000000000) × (at + length (vertex_text vertex initial) ≤ length out.old) }
    ensures { Puts out.old at (vertex_text vertex initial) result out.new }
{
    let a = put_bytes(out, at, b"M,");
    let b = put_field(out, a, vertex);
    let c = put_initial(out, b, initial);
    put_byte(out, c, b'\n')
}

fn put_initial(out: &mut [u8], at: usize, initial: u32) -> usize
    requires { at + length (initial_text initial) ≤ length out.old }
    ensures { Puts out.old at (initial_text initial) result out.new }
{
    if initial == ABSENT {
        return put_byte(out, at, b'-');
    }
    put_word(out, at, initial)
}

// The line of an edge.
#[tactic(auto, using(crate::proofs::GraphLines::field_length, crate::proofs::GraphLines::edge_length))]
pub fn put_edge(out: &mut [u8], at: usize, from: usize, to: usize, cost: usize) -> usize
    requires { Written from to cost × (at + length (edge_text (record { from = from; to = to; cost = cost })) ≤ length out.old) }
    ensures { Puts out.old at (edge_text (record { from = from; to = to; cost = cost })) result out.new }
{
    let a = put_bytes(out, at, b"L,");
    let b = put_field(out, a, from);
    let c = put_field(out, b, to);
    let d = put_decimal(out, c, cost);
    put_byte(out, d, b'\n')
}
