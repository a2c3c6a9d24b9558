// The whole text is judged, line by line, before anything is made of it.
ghost use Rattle.std.specs.Prelude.{◌≡◌, ◌≤◌, None, Some, MatchResult};
ghost use Rattle.model.specs.Limits.{vertex_limit, edge_limit};
ghost use Rattle.model.specs.Answers.{number};
ghost use Rattle.model.specs.Calls.{first_fault};
ghost use Rattle.text.specs.Read.{line_faults, check_fault, counted, judge_text, judged_reply};

use crate::lines::{Line, read_ended};
use model::limits::{MAX_COST, MAX_EDGES, MAX_VERTICES};
use model::{Refusal, Refused};

// Vertices and edges, as a text has them so far; the size of a cache's words is `layout::GraphSize`.
#[derive(Clone, Copy)]
pub struct Counts {
    pub vertices: usize,
    pub edges: usize,
}

impl Counts {
    // The faults of a line below these vertices and edges.
    fn check(self, line: Line) -> Result<(), Refusal>
        ensures { check_fault result ≡ first_fault (line_faults self (Some line)) }
    {
        match line {
            Line::Vertex { number, initial } => self.check_vertex(number, initial),
            Line::Edge { from, to, cost } => self.check_edge(from, to, cost),
        }
    }

    #[tactic(auto, unfolding(crate::specs::Read::line_faults))]
    fn check_vertex(self, number: usize, initial: Option<usize>) -> Result<(), Refusal>
        ensures { check_fault result ≡ first_fault (line_faults self (Some (Line.Vertex number initial))) }
    {
        if 0 < self.edges || number != self.vertices {
            return Err(Refusal::OutOfOrder);
        }
        if MAX_VERTICES <= self.vertices || initial.is_some_and(|c| MAX_COST < c) {
            return Err(Refusal::OverLimit);
        }
        Ok(())
    }

    #[tactic(auto, unfolding(crate::specs::Read::line_faults))]
    fn check_edge(self, from: usize, to: usize, cost: usize) -> Result<(), Refusal>
        ensures { check_fault result ≡ first_fault (line_faults self (Some (Line.Edge from to cost))) }
    {
        if MAX_EDGES <= self.edges || MAX_COST < cost {
            return Err(Refusal::OverLimit);
        }
        if self.vertices <= from || self.vertices <= to {
            return Err(Refusal::NoSuchVertex);
        }
        Ok(())
    }

    // These with a line below them counted, or its first fault. A line of no legal form is none.
    #[tactic(auto, unfolding(crate::specs::Read::line_faults))]
    fn judge(self, line: Option<Line>) -> Result<Counts, Refusal>
        requires { (self.vertices ≤ vertex_limit) × (self.edges ≤ edge_limit) }
        ensures { MatchResult result (λ k. (None ≡ first_fault (line_faults self line)) × (k ≡ counted self line)) (λ r. Some (number r) ≡ first_fault (line_faults self line)) }
    {
        self.check(line.ok_or(Refusal::Malformed)?)?;
        Ok(self.count(line))
    }

    // These with the line counted. A line of no legal form counts for nothing.
    #[tactic(auto, unfolding(crate::specs::Read::counted))]
    pub fn count(mut self, line: Option<Line>) -> Counts
        requires { (self.vertices ≤ vertex_limit) × (self.edges ≤ edge_limit) }
        ensures { result ≡ counted self line }
    {
        match line {
            Some(Line::Vertex { .. }) => self.vertices += 1,
            Some(Line::Edge { .. }) => self.edges += 1,
            None => {}
        }
        self
    }
}

// The first fault of the text, with its line, or how many vertices and edges it has.
pub fn judge_text(text: &[u8]) -> Result<Counts, Refused>
    ensures { judged_reply result ≡ judge_text text.now }
{
    let mut counts = Counts {
        vertices: 0,
        edges: 0,
    };
    for (i, piece) in text.split_inclusive(|b| *b == b'\n').enumerate() {
        counts = counts.judge(read_ended(piece)).map_err(|refusal| Refused {
            refusal,
            line: i + 1,
        })?;
    }
    Ok(counts)
}
