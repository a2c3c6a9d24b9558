// The text of a graph, as designers write it (01 calls it a chart): numbers, lines and the first fault. What is legal is
// defined in specs/; every function answers by an equation with a definition there.

#![tactic(auto)]

pub mod bytes;
pub mod counts;
pub mod fields;
pub mod lines;
