// 01's limits; specs/Limits.antt has them beside 01's sentences.

// Vertices, edges, and each cost.
pub const MAX_VERTICES: usize = 1024;

pub const MAX_EDGES: usize = 2048;

pub const MAX_COST: usize = 999999;

// The tree slots of a cache.
pub const MAX_SLOTS: usize = 64;

// The starts and the goals of a search, and so its entries.
pub const MAX_ENTRIES: usize = 64;
