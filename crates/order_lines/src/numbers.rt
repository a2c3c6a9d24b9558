// The numbers of a list.
ghost use Rattle.std.specs.Prelude.{◌≡◌, ◌≤◌, take};

use crate::orders::MAX_LIST;
use std::ops::DerefSlice;

// The first 65 numbers of a list, and how many of them there are. A longer list is over 01's limit of 64 as well.
#[derive(Clone, Copy)]
pub struct Numbers {
    pub numbers: [u32; MAX_LIST],
    pub count: usize,
    pub ghost within: { count ≤ 65 },
}

// The numbers that are counted.
impl DerefSlice for Numbers {
    type Elem = u32;

    ghost deref_gives = { λ list xs. xs ≡ take list.count list.numbers };

    fn deref(&self) -> &[u32] {
        &self.numbers[..self.count]
    }
}
