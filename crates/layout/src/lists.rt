// Lists of vertices looked through.
ghost use Rattle.std.specs.Prelude.{◌≡◌};
ghost use Rattle.model.specs.Lists.{mem, all_below};

#[tactic(auto, using(crate::proofs::Members::mem_any))]
pub fn contains(list: &[u32], vertex: u32) -> bool
    ensures { result ≡ mem vertex list.now }
{
    list.contains(&vertex)
}

// Whether each number of a list is below the count of vertices.
pub fn are_vertices(list: &[u32], vertices: usize) -> bool
    ensures { result ≡ all_below vertices list.now }
{
    list.iter().all(|vertex| (*vertex as usize) < vertices)
}
