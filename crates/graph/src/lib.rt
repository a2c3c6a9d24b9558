// The graph's words of a cache: initial costs, edges, first-edge places and edge numbers, written from a text.

#![tactic(auto)]

pub mod simple;
pub mod sort;
