// A chart as a Graphviz text.

#![tactic(auto)]

pub mod bold;
pub mod lines;

ghost use Rattle.std.specs.Prelude.{◌≡◌, false, ◌+◌, ◌<◌, ◌≤◌, length};
ghost use Rattle.std.proofs.Props.{props};
ghost use Rattle.layout.specs.Layout.{vertices_in, edges_in};
ghost use Rattle.layout.proofs.StartCosts.{start_once};
ghost use Rattle.put_text.specs.Puts.{Puts};
ghost use Rattle.drawing.specs.declared.DrawError.TheVariants.{Chart};
ghost use Rattle.drawing.specs.Drawing.{marked, drawing_by};
ghost use Rattle.drawing.specs.Draw.{drawing_room, Drawing};
ghost use Rattle.drawing.specs.Puts.{HoldsGraph, Room, held_graph, is_some, vertex_if, vertices_text, cluster_text, edge_of, edges_text, DrawingHeld};

use bold::standing;
use layout::{EDGES, VERTICES, header, initial_cost};
use lines::{put_edge_line, put_vertex_line};
use model::Refused;
use model::limits::{MAX_EDGES, MAX_VERTICES};
use put_text::put_bytes;

// The words of a forward cache of one slot for the largest graph there is.
const WORDS: usize = 21518;

// Why there is no drawing: the chart is refused, or the bytes lent are too few.
#[derive(Clone, Copy)]
pub enum DrawError {
    Chart(Refused),
    ShortDrawing,
}

impl From<Refused> for DrawError {
    ghost from_gives = { λ f e. e ≡ Chart f };

    fn from(refused: Refused) -> DrawError {
        DrawError::Chart(refused)
    }
}

// Draws a graph's text, with the vertices and edges of a path bold: path words are as `retrace` shows them, and an empty path makes
// nothing bold. The drawing stands in front of the bytes lent, which must be 256 and 64 for each vertex and each edge. Answers how many
// bytes it has.
pub fn draw(text: &[u8], path: &[u32], out: &mut [u8]) -> Result<usize, DrawError>
    ensures { Drawing text.now path.now out.old result out.new }
{
    let mut words = [0u32; WORDS];
    cache::open(&mut words, text, 0, 1)?;
    draw_held(&words, path, out)
}

// Draws the graph that the words hold.
fn draw_held(words: &[u32], path: &[u32], out: &mut [u8]) -> Result<usize, DrawError>
    requires { HoldsGraph words.now }
    ensures { DrawingHeld words.now path.now out.old result out.new }
{
    let vertices = header(words, VERTICES);
    let edges = header(words, EDGES);
    if out.len() < 256 + 64 * (vertices + edges) {
        return Err(DrawError::ShortDrawing);
    }
    let marks = reach::reached(words);
    Ok(put_drawing(out, words, &marks, path))
}

// Puts the drawing of the graph that the words hold in front of the bytes lent, and answers how many bytes it has.
fn put_drawing(out: &mut [u8], words: &[u32], marks: &[bool; MAX_VERTICES], path: &[u32]) -> usize
    requires { HoldsGraph words.now × (drawing_room (vertices_in words.now) (edges_in words.now) ≤ length out.old) }
    ensures { Puts out.old 0 (drawing_by marks.now (held_graph words.now) path.now) result out.new }
{
    let vertices = standing(path, true);
    let edges = standing(path, false);
    let picture = Picture {
        words,
        marks,
        bold_vertices: &vertices,
        bold_edges: &edges,
    };
    let a = put_bytes(
        out,
        0,
        b"digraph chart {\n  rankdir=LR;\n  node [shape=circle];\n",
    );
    let b = picture.put_vertices(out, a, true);
    let c = picture.put_apart(out, b);
    let d = picture.put_edges(out, c);
    put_bytes(out, d, b"}\n")
}

// What a drawing is put from: the words that hold the graph, for each vertex whether a run leads to it, and which vertices and edges
// are bold.
#[derive(Clone, Copy)]
struct Picture<'a> {
    words: &'a [u32],
    marks: &'a [bool; MAX_VERTICES],
    bold_vertices: &'a [bool; MAX_EDGES],
    bold_edges: &'a [bool; MAX_EDGES],
    ghost graph: { HoldsGraph words.now } by { Prim.hlevel (props, start_once) },
}

impl Picture<'_> {
    // The vertices of a mark, ascending.
    fn put_vertices(self, out: &mut [u8], at: usize, mark: bool) -> usize
        requires { Room out.old at (vertices_text self.words.now self.marks.now mark self.bold_vertices.now) }
        ensures { let p = self.entry in Puts out.old at (vertices_text p.words.now p.marks.now mark p.bold_vertices.now) result out.new }
    {
        let mut end = at;
        for v in 0..header(self.words, VERTICES) {
            end = self.put_vertex(out, end, mark, v);
        }
        end
    }

    // A vertex's line, or nothing if it has another mark.
    fn put_vertex(self, out: &mut [u8], at: usize, mark: bool, v: usize) -> usize
        requires { (v < vertices_in self.words.now) × (at + 66 ≤ length out.old) }
        ensures { let p = self.entry in Puts out.old at (vertex_if p.words.now p.marks.now mark p.bold_vertices.now v) result out.new }
    {
        if self.marks[v] != mark {
            return at;
        }
        put_vertex_line(
            out,
            at,
            v as u32,
            initial_cost(self.words, v),
            self.bold_vertices[v],
        )
    }

    // The vertices that no run leads to stand apart, in a cluster of their own.
    fn put_apart(self, out: &mut [u8], at: usize) -> usize
        requires { Room out.old at (cluster_text self.words.now self.marks.now self.bold_vertices.now) }
        ensures { let p = self.entry in Puts out.old at (cluster_text p.words.now p.marks.now p.bold_vertices.now) result out.new }
    {
        if !is_any_apart(self.marks, header(self.words, VERTICES)) {
            return at;
        }
        let a = put_bytes(
            out,
            at,
            b"  subgraph cluster_apart {\n    label=\"no run leads here\";\n    style=dashed;\n",
        );
        let b = self.put_vertices(out, a, false);
        put_bytes(out, b, b"  }\n")
    }

    // The edges by number.
    fn put_edges(self, out: &mut [u8], at: usize) -> usize
        requires { Room out.old at (edges_text self.words.now self.bold_edges.now) }
        ensures { Puts out.old at (edges_text self.entry.words.now self.entry.bold_edges.now) result out.new }
    {
        let mut end = at;
        for e in 0..header(self.words, EDGES) {
            end = self.put_edge(out, end, e);
        }
        end
    }

    fn put_edge(self, out: &mut [u8], at: usize, e: usize) -> usize
        requires { (e < edges_in self.words.now) × (at + 66 ≤ length out.old) }
        ensures { Puts out.old at (edge_of self.entry.words.now self.entry.bold_edges.now e) result out.new }
    {
        let edge = layout::edge_of(self.words, header(self.words, VERTICES), e);
        put_edge_line(out, at, edge, self.bold_edges[e])
    }
}

fn is_any_apart(marks: &[bool; MAX_VERTICES], vertices: usize) -> bool
    requires { vertices ≤ 1024 }
    ensures { result ≡ is_some (marked false marks.now vertices) }
{
    marks[..vertices].contains(&false)
}
