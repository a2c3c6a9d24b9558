// The edges of a vertex, one after the other: the Rust's `SimpleGraphEdges`. `next_edge` is for callers that write to the same words
// in between: its parameters are a plain slice and numbers.
// Ported from open-rmf/mapf (mapf/src: graph/simple.rs) and changed; Apache License 2.0, see NOTICE.

#![tactic(auto)]

ghost use Rattle.std.specs.Prelude.{◌≡◌};
ghost use Rattle.std.specs.Iterator.{item_count};
ghost use Rattle.edges.specs.Edges.{next_at, edges_left, Advances};

// "a small cursor that holds the slice of links it walks": the edge numbers, the place of the next one, and where those of the
// vertex end.
#[derive(Clone, Copy)]
pub struct SimpleGraphEdges<'a> {
    pub numbers: &'a [u32],
    pub place: usize,
    pub end: usize,
}

// The edge at a place, or the end of the walk, and the place past it.
#[derive(Clone, Copy)]
pub struct Placed {
    pub edge: Option<u32>,
    pub place: usize,
}

pub fn edges_from<'a>(numbers: &'a [u32], place: usize, end: usize) -> SimpleGraphEdges<'a>
    ensures { (result.numbers ≡ numbers.entry) × ((result.place ≡ place) × (result.end ≡ end)) }
{
    SimpleGraphEdges {
        numbers,
        place,
        end,
    }
}

// The edge at the cursor's place, and the cursor moved past it; at the end it is not moved.
impl<'a> Iterator for SimpleGraphEdges<'a> {
    type Item = u32;

    ghost next_gives = { Advances };

    ghost remaining = { item_count edges_left };

    fn next(&mut self) -> Option<u32> {
        if self.end <= self.place {
            return None;
        }
        let edge = *self.numbers.get(self.place)?;
        self.place += 1;
        Some(edge)
    }
}

pub fn next_edge(numbers: &[u32], place: usize, end: usize) -> Placed
    ensures { result ≡ next_at numbers.now place end }
{
    let mut edges = edges_from(numbers, place, end);
    let edge = edges.next();
    Placed {
        edge,
        place: edges.place,
    }
}
