// The vertices and the edges of a path, as marks by their numbers.
ghost use Rattle.std.specs.Prelude.{◌≡◌};
ghost use Rattle.drawing.specs.Puts.{Table, with_mark};

use model::limits::MAX_EDGES;

// Marks the numbers that stand at every other place of a path's words: its vertices from the first place on, else its edges. A word
// that names neither is passed over.
pub fn standing(path: &[u32], first: bool) -> [bool; MAX_EDGES]
    ensures { Table first path.now result }
{
    let mut table = [false; MAX_EDGES];
    for word in path.iter().skip(usize::from(!first)).step_by(2) {
        mark(&mut table, *word);
    }
    table
}

fn mark(table: &mut [bool; MAX_EDGES], word: u32)
    ensures { table.new ≡ with_mark table.old word }
{
    let number = word as usize;
    if number < MAX_EDGES {
        table[number] = true;
    }
}
