// The order sheet, on bytes: an order's line read, an answer's line written.

#![tactic(auto)]

pub mod answers;
pub mod numbers;
pub mod orders;
